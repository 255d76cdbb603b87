//! Edits and preludes, each made of a preview and of a twin that says what it would be like without a refused growth.

use crate::reports::{say_failed, say_refused};
use crate::views::show_the_same;
use mdtext::{Entities, Tally, lines_of};
use mdview::{EditFault, Options, Patch, Preview};
use std::alloc::{AllocError, Global};

/// A change of a preview. Its lines end at LF.
#[derive(Clone, Copy)]
pub enum Change<'a> {
    /// Lines in the place of so many others.
    Edit { at: usize, del: usize, add: &'a str },
    /// Lines of definitions as the prelude.
    Prelude(&'a str),
}

/// Makes these changes, one after another, of an empty preview.
pub fn try_changes(
    alloc: Global,
    changes: &[Change<'_>],
    said: &mut String,
) -> Result<(), AllocError> {
    let options = Options::plain();
    let mut preview = Preview::new(alloc, Entities::builtin(alloc)?, options);
    let mut twin = Preview::new(alloc, Entities::builtin(alloc)?, options);
    for change in changes {
        try_change(alloc, change, &mut preview, &mut twin, said)?;
    }
    Ok(())
}

/// Makes a change of both previews, of the second after the first. Only where it was refused of the second for want of memory, there is no answer.
fn try_change(
    alloc: Global,
    change: &Change<'_>,
    preview: &mut Preview,
    twin: &mut Preview,
    said: &mut String,
) -> Result<(), AllocError> {
    let text = lines_of(alloc, lines_in(change))?;
    let mut lines = Vec::with_capacity(alloc, text.len())?;
    for line in &text {
        lines.push(line.as_str())?;
    }
    let mut answer = made(preview, change, &lines);
    if matches!(answer, Err(EditFault::NoMemory)) {
        say_refused(said, show_the_same(alloc, preview, twin)?)?;
        answer = made(preview, change, &lines);
    }
    if matches!(made(twin, change, &lines), Err(EditFault::NoMemory)) {
        return Err(AllocError);
    }
    match answer {
        Ok(patch) => say_patch(&patch, preview, said)?,
        Err(fault) => write!(said, "refused {} {}\n", fault.name(), fault.number())?,
    }
    if !show_the_same(alloc, preview, twin)? {
        say_failed(said, "the preview's parts")?;
    }
    Ok(())
}

fn lines_in<'a>(change: &Change<'a>) -> &'a str {
    match change {
        Change::Edit { add, .. } => add,
        Change::Prelude(lines) => lines,
    }
}

fn made(preview: &mut Preview, change: &Change<'_>, lines: &[&str]) -> Result<Patch, EditFault> {
    match change {
        Change::Edit { at, del, .. } => preview.edit(*at, *del, lines, &mut Tally::new()),
        Change::Prelude(_) => preview.set_prelude(lines, &mut Tally::new()),
    }
}

/// Of a piece with more bytes its length alone is said.
const LONG_PIECE: usize = 16_384;

/// Says which pieces came and went, with those that came, as `mdpreview` does.
fn say_patch(patch: &Patch, preview: &Preview, said: &mut String) -> Result<(), AllocError> {
    let again = patch.again.len();
    write!(
        said,
        "ok {} {} {} {again}\n",
        patch.first, patch.removed, patch.added
    )?;
    let mut answer = patch.pieces(preview);
    if answer.is_err() {
        say_refused(said, true)?;
        answer = patch.pieces(preview);
    }
    let Ok(pieces) = answer else {
        return say_failed(said, "Patch");
    };
    for (number, html) in pieces {
        if patch.text(preview, number) != Some(html) {
            say_failed(said, "Patch")?;
        }
        write!(said, "piece {number} {}\n", html.len())?;
        if html.len() <= LONG_PIECE {
            said.push_str(html)?;
        }
        try_walk(preview, number, said)?;
    }
    Ok(())
}

/// Says how many nodes a unit has.
fn try_walk(preview: &Preview, number: usize, said: &mut String) -> Result<(), AllocError> {
    let mut answer = preview.walk(number);
    if answer.is_err() {
        say_refused(said, true)?;
        answer = preview.walk(number);
    }
    match answer {
        Ok(Some(walk)) => write!(said, "walk: {}\n", walk.count() / 2),
        _ => say_failed(said, "walk"),
    }
}
