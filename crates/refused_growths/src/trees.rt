//! The reading of an inline text, a copy of what it reads as, and the HTML of blocks.

use crate::reports::{say, say_failed, say_refused};
use mdblock::{Align, Block};
use mdhtml::{Options, unit_html};
use mdinline::{InlineFault, LabelTable, Parsed, read};
use mdtext::{Entities, NoMemory, Tally, Target, fold_label};
use std::alloc::{AllocError, Global};

/// Makes each of the calls.
pub fn try_trees(alloc: Global, said: &mut String) -> Result<(), AllocError> {
    let entities = Entities::builtin(alloc)?;
    let labels = labels(alloc)?;
    let mut texts = Vec::new(alloc);
    for text in ["*a* `b` **[c][d]**", "![e\\\n<f>][g] ~h~ &amp;"] {
        let mut answer = read(alloc, text, &labels, &entities, 64, &mut Tally::new());
        if matches!(answer, Err(InlineFault::NoMemory)) {
            say_refused(said, true)?;
            answer = read(alloc, text, &labels, &entities, 64, &mut Tally::new());
        }
        match answer {
            Ok(parsed) => {
                say_asked(said, &parsed)?;
                try_copy(alloc, &parsed, said)?;
                texts.push(parsed)?;
            }
            Err(_) => say_failed(said, "read")?,
        }
    }
    try_unit_html(alloc, &texts, said)
}

/// A table in which `d` leads somewhere, and `g` does not.
fn labels(alloc: Global) -> Result<LabelTable, AllocError> {
    let mut labels = LabelTable::new(alloc);
    if let Some(label) = fold_label(alloc, "D")? {
        let url = String::from_str(alloc, "/u")?;
        let title = String::from_str(alloc, "t")?;
        labels.add(label, Target { url, title })?;
    }
    Ok(labels)
}

/// Says which labels were asked for.
fn say_asked(said: &mut String, parsed: &Parsed) -> Result<(), AllocError> {
    for number in 0..parsed.asked().len() {
        if let Some(label) = parsed.asked().get(number) {
            say(said, "read, label", label.as_str())?;
        }
    }
    Ok(())
}

fn try_copy(alloc: Global, parsed: &Parsed, said: &mut String) -> Result<(), AllocError> {
    let mut answer: Result<Parsed, NoMemory> = parsed.copy(alloc);
    if answer.is_err() {
        say_refused(said, true)?;
        answer = parsed.copy(alloc);
    }
    match answer {
        Ok(copy) if copy.tree() == parsed.tree() => say(said, "copy", "equal"),
        _ => say_failed(said, "copy"),
    }
}

fn try_unit_html(alloc: Global, texts: &[Parsed], said: &mut String) -> Result<(), AllocError> {
    if texts.len() < 2 {
        return say_failed(said, "unit_html");
    }
    let options = Options::plain();
    let mut inner = Vec::new(alloc);
    inner.push(Block::Paragraph {
        text: 1,
        task: None,
    })?;
    let mut blocks = Vec::new(alloc);
    blocks.push(Block::Heading { level: 2, text: 0 })?;
    blocks.push(Block::Quote(inner))?;
    blocks.push(Block::Table {
        aligns: [Align::Right].to_vec(alloc)?,
        head: [0].to_vec(alloc)?,
        rows: Vec::new(alloc),
    })?;
    let mut answer = unit_html(alloc, &blocks, texts, &options);
    if answer.is_err() {
        say_refused(said, true)?;
        answer = unit_html(alloc, &blocks, texts, &options);
    }
    match answer {
        Ok(html) => say(said, "unit_html", &html),
        Err(_) => say_failed(said, "unit_html"),
    }
}
