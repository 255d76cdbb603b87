//! The rows of a table.

ghost use Rattle.std.specs.Prelude.{◌≡◌, All, IfOk, IfSome, length, map, option_map, slice_get, string_bytes};
ghost use Rattle.mdscan.specs.Spans.{IsSpanOf};
ghost use Rattle.mdleaf.specs.Tables.{before_bar, begins_table, cell_text, filled, header_of, row_aligns, row_texts, table_header, text_at};

use crate::span_texts::part_of;
use mdscan::{Align, Span, align_by_colons, cell_count, cells, delimiter_row};
use mdtext::NoMemory;
use memchr::memchr;
use std::alloc::Global;

/// A table's first two rows: the alignment of each column, and the texts of the header cells, as many.
#[derive(Debug, Drop)]
pub struct Header {
    /// How each column is aligned.
    pub aligns: Vec<Align>,
    /// The text of each column's cell; as many as there are columns.
    pub cells: Vec<String>,
}

/// The header of the table that a delimiter row makes of the line before it (GFM Tables (extension)). `None` where the two have
/// not equally many cells, or the second is no delimiter row. Refused for want of memory alone.
#[tactic(auto, unfolding(crate::specs::Tables::table_header))]
pub fn table_header(alloc: Global, head: &str, delimiters: &str) -> Result<Option<Header>, NoMemory>
    ensures header { IfOk result (λ header. option_map header_of header ≡ table_header head.now delimiters.now) }
    ensures columns { IfOk result (λ found. IfSome found (λ header. length header.aligns.items ≡ length header.cells.items)) }
{
    if !begins_table(head, delimiters) {
        return Ok(None);
    }
    let aligns = aligns_of(alloc, delimiters)?;
    let cells = data_row(alloc, head, aligns.len())?;
    Ok(Some(Header { aligns, cells }))
}

/// Whether a delimiter row makes a table of the line before it (GFM Tables (extension)). Takes no memory.
#[tactic(auto, unfolding(crate::specs::Tables::begins_table))]
pub fn begins_table(head: &str, delimiters: &str) -> bool
    ensures { result ≡ begins_table head.now delimiters.now }
{
    match delimiter_row(delimiters) {
        Some(columns) => columns == cell_count(head),
        None => false,
    }
}

/// The texts of a table's row with so many columns (GFM Tables (extension)): missing cells are empty, and excess cells left out. A
/// bar that a backslash stands directly before is written without it. Refused for want of memory alone.
pub fn data_row(alloc: Global, row: &str, columns: usize) -> Result<Vec<String>, NoMemory>
    ensures { IfOk result (λ cells. map string_bytes cells.items ≡ filled columns (row_texts row.now)) }
{
    let spans = cells(alloc, row)?;
    let mut texts = Vec::with_capacity(alloc, columns)?;
    for column in 0..columns {
        texts.push(column_text(alloc, row, &spans, column)?)?;
    }
    Ok(texts)
}

fn column_text(alloc: Global, row: &str, spans: &[Span], column: usize) -> Result<String, NoMemory>
    requires { All (IsSpanOf row.now) spans.now }
    ensures { IfOk result (λ text. string_bytes text ≡ text_at row.now (slice_get spans.now column)) }
{
    if column < spans.len() {
        cell_text(alloc, part_of(row, spans[column]))
    } else {
        Ok(String::new(alloc))
    }
}

#[tactic(auto, unfolding(crate::specs::Tables::row_aligns))]
fn aligns_of(alloc: Global, row: &str) -> Result<Vec<Align>, NoMemory>
    ensures { IfOk result (λ aligns. aligns.items ≡ row_aligns row.now) }
{
    let spans = cells(alloc, row)?;
    let mut aligns = Vec::with_capacity(alloc, spans.len())?;
    for span in &spans {
        aligns.push(align_by_colons(part_of(row, *span)))?;
    }
    Ok(aligns)
}

/// The text of a cell: of a backslash and the bar directly after it only the bar.
fn cell_text(alloc: Global, cell: &str) -> Result<String, NoMemory>
    ensures { IfOk result (λ text. string_bytes text ≡ cell_text cell.now) }
{
    if let None = memchr(b'|', cell.as_bytes()) {
        return Ok(String::from_str(alloc, cell)?);
    }
    let mut text = String::with_capacity(alloc, cell.len())?;
    let mut rest = cell;
    while let Some((before, after)) = rest.split_once('|') {
        text.push_str(before_bar(before))?;
        text.push('|')?;
        rest = after;
    }
    text.push_str(rest)?;
    Ok(text)
}

/// What stands before a bar, without a backslash that escapes the bar.
fn before_bar(text: &str) -> &str
    ensures { result.now ≡ before_bar text.now }
{
    match text.strip_suffix('\\') {
        Some(front) => front,
        None => text,
    }
}
