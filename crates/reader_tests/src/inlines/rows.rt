//! How tables of texts are read and compared.

ghost use Rattle.std.specs.Prelude.{◌≤◌};

use mdinline::{Asked, InlineFault, LabelTable, Parsed, read};
use mdtext::{Entities, Tally, Target, fold_label};
use std::alloc::{AllocError, Global};
use std::process::Abort;
use std::test::Fail;

/// A definition: label, destination and title.
pub(crate) type Definition = (&'static str, &'static str, &'static str);

/// A text, its definitions, and its tree.
pub(crate) type Defined = (&'static str, &'static [Definition], &'static str);

pub(crate) fn target(alloc: Global, url: &str, title: &str) -> Result<Target, AllocError> {
    let url = String::from_str(alloc, url)?;
    let title = String::from_str(alloc, title)?;
    Ok(Target { url, title })
}

/// Puts a definition in the table, if its name is a label.
fn define(
    alloc: Global,
    table: &mut LabelTable,
    definition: &Definition,
) -> Result<(), AllocError> {
    let (name, url, title) = *definition;
    match fold_label(alloc, name)? {
        Some(label) => table.add(label, target(alloc, url, title)?),
        None => Ok(()),
    }
}

fn table_of(alloc: Global, definitions: &[Definition]) -> Result<LabelTable, AllocError> {
    let mut table = LabelTable::new(alloc);
    for definition in definitions {
        define(alloc, &mut table, definition)?;
    }
    Ok(table)
}

/// Reads a text with these labels and the built-in entities.
fn read_with(
    alloc: Global,
    text: &str,
    table: &LabelTable,
    limit: usize,
) -> Result<Result<Parsed, InlineFault>, Fail>
    requires least { 1 ≤ limit }
    requires most { limit ≤ 256 }
{
    let entities = Entities::builtin(alloc)?;
    let mut tally = Tally::new();
    Ok(read(alloc, text, table, &entities, limit, &mut tally))
}

/// Reads a text with the built-in entities, in which no more than `limit` spans, 1 to 256, may lie in one another.
pub(crate) fn read_within(
    alloc: Global,
    text: &str,
    definitions: &[Definition],
    limit: usize,
) -> Result<Result<Parsed, InlineFault>, Fail> {
    if limit == 0 || limit > 256 {
        return Err("no such limit".into());
    }
    let table = table_of(alloc, definitions)?;
    read_with(alloc, text, &table, limit)
}

/// The reading of a text that is not refused.
pub(crate) fn parsed_of(
    alloc: Global,
    text: &str,
    definitions: &[Definition],
) -> Result<Parsed, Fail> {
    Ok(read_within(alloc, text, definitions, 64)??)
}

/// The tree of a reading, as it is printed.
pub(crate) fn printed_tree(alloc: Global, parsed: &Parsed) -> Result<String, AllocError> {
    format!(in alloc; "{:?}", parsed.tree())
}

/// The tree of a text, as it is printed.
fn tree_of(alloc: Global, text: &str, definitions: &[Definition]) -> Result<String, Fail> {
    let parsed = parsed_of(alloc, text, definitions)?;
    Ok(printed_tree(alloc, &parsed)?)
}

fn check_tree(
    rt: &impl Abort,
    alloc: Global,
    text: &str,
    definitions: &[Definition],
    tree: &str,
) -> Result<(), Fail> {
    let shown = tree_of(alloc, text, definitions)?;
    assert_eq!(rt; shown.as_str(), tree, "in {text:?}");
    Ok(())
}

pub(crate) fn check_texts(
    rt: &impl Abort,
    alloc: Global,
    rows: &[(&str, &str)],
) -> Result<(), Fail> {
    for (text, tree) in rows {
        check_tree(rt, alloc, text, &[], tree)?;
    }
    Ok(())
}

pub(crate) fn check_defined(rt: &impl Abort, alloc: Global, rows: &[Defined]) -> Result<(), Fail> {
    for (text, definitions, tree) in rows {
        check_tree(rt, alloc, text, definitions, tree)?;
    }
    Ok(())
}

fn is_label(asked: &Asked, i: usize, text: &str) -> bool {
    match asked.get(i) {
        Some(label) => label.as_str() == text,
        None => false,
    }
}

/// Whether the labels that were asked for are these.
fn are_labels(asked: &Asked, labels: &[&str]) -> bool {
    for (i, label) in labels.iter().enumerate() {
        if !is_label(asked, i, label) {
            return false;
        }
    }
    asked.len() == labels.len()
}

/// Reads a text, and answers whether it asks for these labels.
fn asks_for(
    alloc: Global,
    text: &str,
    definitions: &[Definition],
    labels: &[&str],
) -> Result<bool, Fail> {
    let parsed = parsed_of(alloc, text, definitions)?;
    Ok(are_labels(parsed.asked(), labels))
}

pub(crate) fn check_asked(
    rt: &impl Abort,
    alloc: Global,
    rows: &[(&str, &[Definition], &[&str])],
) -> Result<(), Fail> {
    for (text, definitions, labels) in rows {
        assert!(rt; asks_for(alloc, text, definitions, labels)?, "in {text:?}");
    }
    Ok(())
}
