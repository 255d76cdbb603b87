//! Delimiter rows of tables.

ghost use Rattle.std.specs.Prelude.{◌≡◌, ◌<◌, ◌≤◌, length, unwrap_or};
ghost use Rattle.mdscan.specs.Spans.{part};
ghost use Rattle.mdscan.specs.TableRow.{cell};
ghost use Rattle.mdscan.specs.DelimiterRow.{is_colon_or_none, is_hyphens, is_delimiter, delimiter_columns, delimiter_align, align_by, column_align};

use crate::byte_runs::{begins, holds, leading};
use crate::table_rows::{cell_at, inner, is_split};

/// How a table's column is aligned (GFM Tables (extension)).
#[derive(Clone, Copy, Debug, PartialEq, Eq)]
pub enum Align {
    /// No colon: the column has no alignment.
    Plain,
    /// A colon on the left.
    Left,
    /// A colon on each side.
    Center,
    /// A colon on the right.
    Right,
}

/// How many columns the delimiter row has that the rest of a line is (GFM Tables (extension)). A bar stands in it, even
/// where it has one column.
pub fn delimiter_row(rest: &str) -> Option<usize>
    ensures { result ≡ delimiter_columns rest.now }
{
    columns(rest.as_bytes())
}

/// The alignment of a column of a delimiter row, by the colons at the ends of its cell (GFM Tables (extension)). Columns count from 0, and the
/// row has the column that is asked for.
pub fn align_at(rest: &str, column: usize) -> Align
    requires { column < unwrap_or (delimiter_columns rest.now) 0 }
    ensures { result ≡ column_align rest.now column }
{
    align_of(rest.as_bytes(), column)
}

/// The alignment that one cell of a delimiter row stands for, by the colons at its ends (GFM Tables (extension)).
pub fn align_by_colons(cell: &str) -> Align
    ensures { result ≡ delimiter_align cell.now }
{
    colons(cell.as_bytes())
}

#[tactic(auto, unfolding(crate::specs::DelimiterRow::delimiter_columns))]
fn columns(row: &[u8]) -> Option<usize>
    ensures { result ≡ delimiter_columns row.now }
{
    if !holds(row, b'|') {
        return None;
    }
    let inner = inner(row);
    let mut columns = 0;
    let mut start = inner.start;
    for at in inner.start..inner.end {
        if is_split(row, at) {
            if !delimits(row, start, at) {
                return None;
            }
            columns += 1;
            start = at + 1;
        }
    }
    if delimits(row, start, inner.end) {
        Some(columns + 1)
    } else {
        None
    }
}

fn align_of(row: &[u8], column: usize) -> Align
    ensures { result ≡ column_align row.now column }
{
    let inner = inner(row);
    let mut left = column;
    let mut start = inner.start;
    for at in inner.start..inner.end {
        if is_split(row, at) {
            if left == 0 {
                return cell_align(row, start, at);
            }
            left -= 1;
            start = at + 1;
        }
    }
    if left == 0 {
        cell_align(row, start, inner.end)
    } else {
        Align::Plain
    }
}

/// Whether the cell between two places is a delimiter.
fn delimits(row: &[u8], start: usize, end: usize) -> bool
    requires ordered { start ≤ end }
    requires within { end ≤ length row.now }
    ensures { result ≡ is_delimiter (part row.now (cell row.now start end)) }
{
    let cell = cell_at(row, start, end);
    delimiter(&row[cell.start..cell.end])
}

/// The alignment that the cell between two places stands for.
fn cell_align(row: &[u8], start: usize, end: usize) -> Align
    requires ordered { start ≤ end }
    requires within { end ≤ length row.now }
    ensures { result ≡ delimiter_align (part row.now (cell row.now start end)) }
{
    let cell = cell_at(row, start, end);
    colons(&row[cell.start..cell.end])
}

/// Whether a text is hyphens, one at least, with an optional colon at either end.
#[tactic(auto, unfolding(crate::specs::DelimiterRow::is_delimiter))]
fn delimiter(text: &[u8]) -> bool
    ensures { result ≡ is_delimiter text.now }
{
    if begins(text, b':') {
        hyphens(&text[1..])
    } else {
        hyphens(text)
    }
}

/// Whether a text is hyphens, one at least, and an optional colon.
fn hyphens(text: &[u8]) -> bool
    ensures { result ≡ is_hyphens text.now }
{
    let run = leading(text, b'-');
    run > 0 && colon_or_none(&text[run..])
}

/// Whether a text is nothing or one colon.
fn colon_or_none(text: &[u8]) -> bool
    ensures { result ≡ is_colon_or_none text.now }
{
    match text {
        [] => true,
        [byte] => *byte == b':',
        _ => false,
    }
}

/// The alignment by the colons at a cell's ends.
#[tactic(auto, unfolding(crate::specs::DelimiterRow::delimiter_align))]
fn colons(text: &[u8]) -> Align
    ensures { result ≡ delimiter_align text.now }
{
    align_with(
        begins(text, b':'),
        text.len() > 0 && text[text.len() - 1] == b':',
    )
}

fn align_with(left: bool, right: bool) -> Align
    ensures { result ≡ align_by left right }
{
    match (left, right) {
        (true, true) => Align::Center,
        (true, false) => Align::Left,
        (false, true) => Align::Right,
        (false, false) => Align::Plain,
    }
}
