//! A reader of texts that is used again.

use super::copies::printed;
use super::rows::{parsed_of, printed_tree};
use mdinline::{InlineFault, LabelTable, Parsed, TextReader};
use mdtext::{Entities, Tally};
use std::alloc::{AllocError, Global};
use std::process::Abort;
use std::test::Fail;

/// Reads one more text.
fn read_again<'a>(
    reader: &mut TextReader<'a>,
    labels: &'a LabelTable,
    text: &str,
    tally: &mut Tally,
) -> Result<Parsed, InlineFault> {
    reader.read(text, labels, 64, tally)
}

/// Reads one more text, and answers whether its tree is printed so.
fn is_tree_again<'a>(
    alloc: Global,
    reader: &mut TextReader<'a>,
    labels: &'a LabelTable,
    text: &str,
    tree: &str,
    tally: &mut Tally,
) -> Result<bool, Fail> {
    let parsed = read_again(reader, labels, text, tally)?;
    let shown = printed_tree(alloc, &parsed)?;
    Ok(shown.as_str() == tree)
}

/// The reading of one more text, as it is printed.
fn shown_again<'a>(
    alloc: Global,
    reader: &mut TextReader<'a>,
    labels: &'a LabelTable,
    text: &str,
    tally: &mut Tally,
) -> Result<String, Fail> {
    let parsed = read_again(reader, labels, text, tally)?;
    Ok(printed(alloc, &parsed)?)
}

static TEXTS: [(&str, &str); 3] = [
    ("*a `b <!-- [c", "[Text(\"*a `b <!-- [c\")]"),
    (
        "d* `e` f](g)",
        "[Text(\"d* \"), Code(\"e\"), Text(\" f](g)\")]",
    ),
    ("*h*", "[Emph([Text(\"h\")])]"),
];

/// What one text leaves pending does not reach the next one.
#[test]
fn a_reader_is_used_again(rt: HostRuntime) -> Result<(), Fail> {
    let alloc = rt.alloc();
    let labels = LabelTable::new(alloc);
    let entities = Entities::builtin(alloc)?;
    let mut reader = TextReader::new(alloc, &entities);
    let mut tally = Tally::new();
    for &(text, want) in &TEXTS {
        let is_read = is_tree_again(alloc, &mut reader, &labels, text, want, &mut tally)?;
        assert!(rt; is_read, "in {text:?}");
    }
    Ok(())
}

/// Code and text by turns: one by its place, and then as it is printed.
fn piece(i: usize) -> (&'static str, &'static str) {
    match i % 2 {
        0 => ("`a`", "Code(\"a\")"),
        _ => ("b", "Text(\"b\")"),
    }
}

/// A text of so many inlines, code and text by turns.
fn row_of(alloc: Global, len: usize) -> Result<String, AllocError> {
    let mut text = String::new(alloc);
    for i in 0..len {
        text.push_str(piece(i).0)?;
    }
    Ok(text)
}

/// What stands before the printed inline at a place.
fn separator(i: usize) -> &'static str {
    match i {
        0 => "",
        _ => ", ",
    }
}

/// The reading of such a text, as it is printed.
fn shown_row(alloc: Global, len: usize) -> Result<String, AllocError> {
    let mut shown = String::from_str(alloc, "Parsed { tree: [")?;
    for i in 0..len {
        shown.push_str(separator(i))?;
        shown.push_str(piece(i).1)?;
    }
    shown.push_str("], asked: Asked { labels: [] } }")?;
    Ok(shown)
}

/// The reading of a text by itself, as it is printed.
fn shown_alone(alloc: Global, text: &str) -> Result<String, Fail> {
    let parsed = parsed_of(alloc, text, &[])?;
    Ok(printed(alloc, &parsed)?)
}

/// Reads a row of so many inlines by a reader, and by itself.
fn check_row<'a>(
    rt: &impl Abort,
    alloc: Global,
    reader: &mut TextReader<'a>,
    labels: &'a LabelTable,
    len: usize,
) -> Result<(), Fail> {
    let text = row_of(alloc, len)?;
    let want = shown_row(alloc, len)?;
    let mut tally = Tally::new();
    check_shown(
        rt,
        &shown_again(alloc, reader, labels, &text, &mut tally)?,
        &want,
        len,
    );
    check_shown(rt, &shown_alone(alloc, &text)?, &want, len);
    Ok(())
}

fn check_shown(rt: &impl Abort, shown: &str, want: &str, len: usize) {
    assert!(rt; shown == want, "of {len}");
}

static LENGTHS: [usize; 9] = [64, 65, 300, 64, 3, 66, 0, 1, 65];

fn check_rows<'a>(
    rt: &impl Abort,
    alloc: Global,
    reader: &mut TextReader<'a>,
    labels: &'a LabelTable,
) -> Result<(), Fail> {
    for &len in &LENGTHS {
        check_row(rt, alloc, reader, labels, len)?;
    }
    Ok(())
}

/// A row that goes out with its room, and one that is put in a list of its own, are what a reader reads that read nothing before.
#[test]
fn rows_of_all_lengths_are_read_one_by_one(rt: HostRuntime) -> Result<(), Fail> {
    let alloc = rt.alloc();
    let labels = LabelTable::new(alloc);
    let entities = Entities::builtin(alloc)?;
    let mut reader = TextReader::new(alloc, &entities);
    check_rows(&rt, alloc, &mut reader, &labels)
}
