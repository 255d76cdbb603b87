//! Tests as tables of steps: what is done with a preview, and what it tells then. Such a table costs no proof; what goes through it is proved once.

use crate::calls::{edit, empty, set_prelude};
use crate::repeats::repeated;
use mdtext::Tally;
use mdview::{EditFault, Parsed, Patch, Preview};
use std::alloc::{AllocError, Global};
use std::process::Abort;
use std::test::Fail;

/// A call of a preview with its answer, or a look at what it holds. Lines and units count from 0, and nothing is told of one that isn't there.
pub(crate) enum Step {
    /// The first lines of the text, of which nothing is counted.
    Begin {
        lines: &'static [&'static str],
    },
    /// Replaces `del` lines at line `at`. The patch says this (see `told`), and what is read is counted from nothing.
    Edit {
        at: usize,
        del: usize,
        add: &'static [&'static str],
        says: &'static str,
    },
    /// Sets the prelude. The patch says this, and what is read is counted from nothing.
    SetPrelude {
        lines: &'static [&'static str],
        says: &'static str,
    },
    /// Replaces `del` lines at line `at`, and is refused for this, if for anything. What is read is counted on.
    TryEdit {
        at: usize,
        del: usize,
        add: &'static [&'static str],
        fault: Option<EditFault>,
    },
    /// Adds so many lines of nothing in front, and is refused for this, if for anything. What is read is counted on.
    TryBlanks {
        len: usize,
        fault: Option<EditFault>,
    },
    /// Adds a line of so many letters at line `at`, and is refused for this, if for anything. What is read is counted on.
    TryLetters {
        at: usize,
        len: usize,
        fault: Option<EditFault>,
    },
    /// Sets the prelude, and is refused for this, if for anything. What is read is counted on.
    TryPrelude {
        lines: &'static [&'static str],
        fault: Option<EditFault>,
    },
    /// Sets a prelude of so many lines of nothing, and is refused for this, if for anything. What is read is counted on.
    TryBlankPrelude {
        len: usize,
        fault: Option<EditFault>,
    },
    /// From here on what is read is counted from nothing.
    CountAnew,
    /// How many lines and inline texts were counted: each from the first number to the second.
    Counted {
        lines: (u64, u64),
        inlines: (u64, u64),
    },
    /// How many lines and units there are.
    Sizes {
        lines: usize,
        units: usize,
    },
    Line {
        number: usize,
        line: Option<&'static str>,
    },
    Piece {
        number: usize,
        html: Option<&'static str>,
    },
    /// All pieces, one behind the other.
    Pieces {
        html: &'static str,
    },
    /// The lines of the prelude.
    Prelude {
        lines: &'static [&'static str],
    },
    /// In which line a unit begins.
    FirstLine {
        number: usize,
        line: Option<usize>,
    },
    /// How many definitions a unit has.
    Definitions {
        number: usize,
        count: Option<usize>,
    },
    /// How many labels each inline text of a unit asked for.
    Asked {
        number: usize,
        labels: Option<&'static [usize]>,
    },
    /// How many nodes a walk over a unit goes through.
    Nodes {
        number: usize,
        count: Option<usize>,
    },
}

/// What a patch says: its numbers, the pieces that are made again, and behind a colon each piece that it brings, behind its number.
fn told(alloc: Global, patch: &Patch, preview: &Preview) -> Result<String, AllocError> {
    let (first, removed, added) = (patch.first, patch.removed, patch.added);
    let again = patch.again.as_slice();
    let mut told = format!(in alloc; "{first} {removed} {added} {again:?}:")?;
    push_pieces(patch, preview, &mut told)?;
    Ok(told)
}

/// Appends the pieces that a patch brings, each behind its number: a `!` where it is another one by its number alone.
fn push_pieces(patch: &Patch, preview: &Preview, told: &mut String) -> Result<(), AllocError> {
    if patch.pieces(preview)?.next().is_some() {
        told.push_str(" ")?;
    }
    for (number, html) in patch.pieces(preview)? {
        push_piece(number, html, patch.text(preview, number), told)?;
    }
    if patch.text(preview, preview.units()).is_some() {
        told.push_str("!")?;
    }
    Ok(())
}

fn push_piece(
    number: usize,
    html: &str,
    by_number: Option<&str>,
    told: &mut String,
) -> Result<(), AllocError> {
    let mark = if by_number == Some(html) { "" } else { "!" };
    write!(told, "{mark}{number} {html}")
}

/// Whether a call was taken, and its patch says this.
fn says(
    rt: &impl Abort,
    alloc: Global,
    patch: Result<Patch, EditFault>,
    preview: &Preview,
    want: &str,
) -> Result<bool, AllocError> {
    let Ok(patch) = patch else {
        return Ok(false);
    };
    let told = told(alloc, &patch, preview)?;
    assert_eq!(rt; told.as_str(), want);
    Ok(true)
}

fn edits(
    rt: &impl Abort,
    alloc: Global,
    preview: &mut Preview,
    count: &mut Tally,
    (at, del): (usize, usize),
    add: &[&str],
    want: &str,
) -> Result<bool, AllocError> {
    *count = Tally::new();
    let patch = edit(preview, at, del, add, count);
    says(rt, alloc, patch, preview, want)
}

fn sets_prelude(
    rt: &impl Abort,
    alloc: Global,
    preview: &mut Preview,
    count: &mut Tally,
    lines: &[&str],
    want: &str,
) -> Result<bool, AllocError> {
    *count = Tally::new();
    let patch = set_prelude(preview, lines, count);
    says(rt, alloc, patch, preview, want)
}

fn is_within(count: u64, (least, most): (u64, u64)) -> bool {
    least <= count && count <= most
}

/// Whether the pieces one behind the other are this.
fn has_pieces(alloc: Global, preview: &Preview, html: &str) -> Result<bool, AllocError> {
    let mut shown = String::new(alloc);
    for piece in preview.pieces() {
        shown.push_str(piece)?;
    }
    Ok(shown.as_str() == html)
}

fn has_prelude(preview: &Preview, lines: &[&str]) -> bool {
    preview.prelude().eq(lines.iter().copied())
}

fn definitions(preview: &Preview, number: usize) -> Option<usize> {
    let unit = preview.unit(number)?;
    Some(unit.definitions().len())
}

fn have_asked(texts: &[Parsed], labels: &[usize]) -> bool {
    texts.len() == labels.len()
        && texts
            .iter()
            .zip(labels)
            .all(|(text, count)| text.asked().len() == *count)
}

fn has_asked(preview: &Preview, number: usize, labels: Option<&[usize]>) -> bool {
    match (preview.inlines(number), labels) {
        (Some(texts), Some(labels)) => have_asked(texts, labels),
        (None, None) => true,
        _ => false,
    }
}

fn has_nodes(preview: &Preview, number: usize, count: Option<usize>) -> Result<bool, AllocError> {
    match preview.walk(number)? {
        // A node has two edges.
        Some(walk) => Ok(count == Some(walk.count() / 2)),
        None => Ok(count.is_none()),
    }
}

/// So many lines of nothing.
fn blanks(alloc: Global, count: usize) -> Result<Vec<&'static str>, AllocError> {
    vec![in alloc; ""; count]
}

fn try_blanks(
    alloc: Global,
    preview: &mut Preview,
    count: &mut Tally,
    len: usize,
    fault: Option<EditFault>,
) -> Result<bool, AllocError> {
    let blanks = blanks(alloc, len)?;
    Ok(try_edit(preview, count, (0, 0), &blanks, fault))
}

fn try_blank_prelude(
    alloc: Global,
    preview: &mut Preview,
    count: &mut Tally,
    len: usize,
    fault: Option<EditFault>,
) -> Result<bool, AllocError> {
    let blanks = blanks(alloc, len)?;
    Ok(try_prelude(preview, count, &blanks, fault))
}

fn try_letters(
    alloc: Global,
    preview: &mut Preview,
    count: &mut Tally,
    at: usize,
    len: usize,
    fault: Option<EditFault>,
) -> Result<bool, AllocError> {
    let line = repeated(alloc, "a", len)?;
    Ok(try_edit(preview, count, (at, 0), &[line.as_str()], fault))
}

fn begins(preview: &mut Preview, lines: &[&str]) -> bool {
    edit(preview, 0, 0, lines, &mut Tally::new()).is_ok()
}

fn try_edit(
    preview: &mut Preview,
    count: &mut Tally,
    (at, del): (usize, usize),
    add: &[&str],
    fault: Option<EditFault>,
) -> bool {
    edit(preview, at, del, add, count).err() == fault
}

fn try_prelude(
    preview: &mut Preview,
    count: &mut Tally,
    lines: &[&str],
    fault: Option<EditFault>,
) -> bool {
    set_prelude(preview, lines, count).err() == fault
}

fn count_anew(count: &mut Tally) -> bool {
    *count = Tally::new();
    true
}

fn has_counted(count: &Tally, lines: (u64, u64), inlines: (u64, u64)) -> bool {
    is_within(count.lines(), lines) && is_within(count.inlines(), inlines)
}

fn has_sizes(preview: &Preview, lines: usize, units: usize) -> bool {
    preview.len() == lines && preview.units() == units
}

/// Does what a step says, and answers whether all is as it says.
fn is_so(
    rt: &impl Abort,
    alloc: Global,
    preview: &mut Preview,
    count: &mut Tally,
    step: &Step,
) -> Result<bool, AllocError> {
    match *step {
        Step::Begin { lines } => Ok(begins(preview, lines)),
        Step::Edit { at, del, add, says } => edits(rt, alloc, preview, count, (at, del), add, says),
        Step::SetPrelude { lines, says } => sets_prelude(rt, alloc, preview, count, lines, says),
        Step::TryEdit {
            at,
            del,
            add,
            fault,
        } => { Ok(try_edit(preview, count, (at, del), add, fault)) }
        Step::TryBlanks { len, fault } => try_blanks(alloc, preview, count, len, fault),
        Step::TryLetters { at, len, fault } => try_letters(alloc, preview, count, at, len, fault),
        Step::TryPrelude { lines, fault } => Ok(try_prelude(preview, count, lines, fault)),
        Step::TryBlankPrelude { len, fault } => try_blank_prelude(
            alloc, preview, count, len, fault,
        ),
        Step::CountAnew => Ok(count_anew(count)),
        Step::Counted { lines, inlines } => Ok(has_counted(count, lines, inlines)),
        Step::Sizes { lines, units } => Ok(has_sizes(preview, lines, units)),
        Step::Line { number, line } => Ok(preview.line(number) == line),
        Step::Piece { number, html } => Ok(preview.piece(number) == html),
        Step::Pieces { html } => has_pieces(alloc, preview, html),
        Step::Prelude { lines } => Ok(has_prelude(preview, lines)),
        Step::FirstLine { number, line } => Ok(preview.first_line(number) == line),
        Step::Definitions { number, count } => Ok(definitions(preview, number) == count),
        Step::Asked { number, labels } => Ok(has_asked(preview, number, labels)),
        Step::Nodes { number, count } => has_nodes(preview, number, count),
    }
}

/// Takes steps one by one, with this preview.
pub(crate) fn run_on(
    rt: &impl Abort,
    alloc: Global,
    mut preview: Preview,
    steps: &[Step],
) -> Result<(), Fail> {
    let mut count = Tally::new();
    for (number, step) in steps.iter().enumerate() {
        assert!(rt;
            is_so(rt, alloc, &mut preview, &mut count, step)?,
            "step {number}"
        );
    }
    Ok(())
}

/// Takes steps one by one, with a preview of no lines at first.
pub(crate) fn run(rt: &impl Abort, alloc: Global, steps: &[Step]) -> Result<(), Fail> {
    run_on(rt, alloc, empty(alloc)?, steps)
}
