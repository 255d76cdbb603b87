//! Units as texts: each block by a short name, with its inline texts and blocks in it.

use mdblock::{Block, Definition, Found, Item, Unit};
use std::alloc::AllocError;

fn show_text(texts: &[String], position: usize, out: &mut String) -> Result<(), AllocError> {
    let text = match texts.get(position) {
        Some(text) => text.as_str(),
        None => "?",
    };
    write!(out, "({text})")
}

fn show_cells(texts: &[String], cells: &[usize], out: &mut String) -> Result<(), AllocError> {
    for cell in cells {
        show_text(texts, *cell, out)?;
    }
    Ok(())
}

fn task_name(task: Option<bool>) -> &'static str {
    match task {
        Some(true) => "done",
        Some(false) => "task",
        None => "p",
    }
}

fn heading_name(level: u8) -> &'static str {
    match level {
        1 => "h1",
        2 => "h2",
        _ => "h",
    }
}

fn list_name(tight: bool) -> &'static str {
    if tight { "tight" } else { "loose" }
}

fn show_leaf(
    name: &str,
    texts: &[String],
    position: usize,
    out: &mut String,
) -> Result<(), AllocError> {
    out.push_str(name)?;
    show_text(texts, position, out)
}

fn show_rows(rows: &[Vec<usize>], texts: &[String], out: &mut String) -> Result<(), AllocError> {
    for row in rows {
        out.push_str("/")?;
        show_cells(texts, row, out)?;
    }
    Ok(())
}

fn show_table(
    head: &[usize],
    rows: &[Vec<usize>],
    texts: &[String],
    out: &mut String,
) -> Result<(), AllocError> {
    out.push_str("table")?;
    show_cells(texts, head, out)?;
    show_rows(rows, texts, out)
}

#[cycle(shown)]
fn show_quote(inner: &[Block], texts: &[String], out: &mut String) -> Result<(), AllocError> {
    out.push_str("quote{")?;
    show_blocks(inner, texts, out)?;
    out.push_str("}")
}

#[cycle(shown)]
fn show_items(items: &[Item], texts: &[String], out: &mut String) -> Result<(), AllocError> {
    for item in items {
        out.push_str("-")?;
        show_blocks(&item.blocks, texts, out)?;
    }
    out.push_str("}")
}

#[cycle(shown)]
fn show_list(
    tight: bool,
    items: &[Item],
    texts: &[String],
    out: &mut String,
) -> Result<(), AllocError> {
    write!(out, "{}{{", list_name(tight))?;
    show_items(items, texts, out)
}

fn show_code(lang: &str, meta: &str, body: &str, out: &mut String) -> Result<(), AllocError> {
    out.push_str("code:")?;
    out.push_str(lang)?;
    show_meta(meta, out)?;
    out.push_str("(")?;
    out.push_str(body)?;
    out.push_str(")")
}

/// What stands behind the language, if anything does.
fn show_meta(meta: &str, out: &mut String) -> Result<(), AllocError> {
    if meta.is_empty() {
        return Ok(());
    }
    out.push_str(" ")?;
    out.push_str(meta)
}

#[cycle(shown)]
fn show_block(block: &Block, texts: &[String], out: &mut String) -> Result<(), AllocError> {
    match block {
        Block::Paragraph { text, task } => show_leaf(task_name(*task), texts, *text, out),
        Block::Heading { level, text } => show_leaf(heading_name(*level), texts, *text, out),
        Block::Break => out.push_str("hr"),
        Block::Code { lang, meta, body } => show_code(lang, meta, body, out),
        Block::Html(lines) => write!(out, "html({lines})"),
        Block::Quote(inner) => show_quote(inner, texts, out),
        Block::List { tight, items, .. } => show_list(*tight, items, texts, out),
        Block::Table { head, rows, .. } => show_table(head, rows, texts, out),
    }
}

#[cycle(shown)]
fn show_blocks(blocks: &[Block], texts: &[String], out: &mut String) -> Result<(), AllocError> {
    for block in blocks {
        show_block(block, texts, out)?;
        out.push_str(";")?;
    }
    Ok(())
}

fn show_definition(definition: &Definition, out: &mut String) -> Result<(), AllocError> {
    let target = &definition.target;
    write!(
        out,
        "[{} {} {}]",
        definition.label.as_str(),
        target.url,
        target.title
    )
}

fn show_unit(unit: &Unit, out: &mut String) -> Result<(), AllocError> {
    for definition in unit.definitions() {
        show_definition(definition, out)?;
    }
    show_blocks(unit.blocks(), unit.texts(), out)
}

/// Appends a unit and a line's end, where one was handed out.
pub(crate) fn show(found: &Option<Found>, out: &mut String) -> Result<(), AllocError> {
    match found {
        Some(found) => {
            show_unit(found.unit(), out)?;
            out.push_str("\n")
        }
        None => Ok(()),
    }
}
