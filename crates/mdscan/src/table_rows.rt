//! Rows of tables.

ghost use Rattle.std.specs.Prelude.{◌≡◌, ◌<◌, ◌≤◌, All, IfNone, IfOk, IfSome, length};
ghost use Rattle.mdscan.specs.Spans.{IsSpanOf};
ghost use Rattle.mdscan.specs.TableRow.{IsWholeBetween, inside, splits, cell, row_cells};

use crate::spans::{Span, trimmed_bytes};
use memchr::memchr;
use std::alloc::{AllocError, Global};

// So many bytes are looked at before a bar is searched for.
const NEAR: usize = 8;

/// The cells of a table's row, without the spaces and tabs at their ends (GFM Tables (extension)). A backslash before a bar
/// is still there. Refused for want of memory alone.
pub fn cells(alloc: Global, row: &str) -> Result<Vec<Span>, AllocError>
    ensures items { IfOk result (λ cells. cells.items ≡ row_cells row.now) }
    ensures spans { IfOk result (λ cells. All (IsSpanOf row.now) cells.items) }
{
    cells_of(alloc, row.as_bytes())
}

/// How many cells a table's row has (GFM Tables (extension)). Takes no memory.
pub fn cell_count(row: &str) -> usize
    ensures { result ≡ length (row_cells row.now) }
{
    count_cells(row.as_bytes())
}

fn count_cells(row: &[u8]) -> usize
    ensures { result ≡ length (row_cells row.now) }
{
    let inner = inner(row);
    let mut count = 1;
    for at in inner.start..inner.end {
        if is_split(row, at) {
            count += 1;
        }
    }
    count
}

#[tactic(auto, unfolding(crate::specs::TableRow::row_cells))]
fn cells_of(alloc: Global, row: &[u8]) -> Result<Vec<Span>, AllocError>
    ensures { IfOk result (λ cells. cells.items ≡ row_cells row.now) }
{
    let inner = inner(row);
    let mut cells = Vec::new(alloc);
    let mut start = inner.start;
    let mut at = inner.start;
    while let Some(bar) = bar_from(row, at, inner.end) {
        if is_split(row, bar) {
            cells.push(cell_at(row, start, bar))?;
            start = bar + 1;
        }
        at = bar + 1;
    }
    cells.push(cell_at(row, start, inner.end))?;
    Ok(cells)
}

/// A row without the spaces and tabs at its ends, one bar at its beginning and one at its end.
#[tactic(auto, unfolding(crate::specs::TableRow::inside))]
pub(crate) fn inner(row: &[u8]) -> Span
    ensures value { result ≡ inside row.now }
    ensures ordered { result.start ≤ result.end }
    ensures within { result.end ≤ length row.now }
{
    let whole = trimmed_bytes(row, 0);
    let mut start = whole.start;
    if start < whole.end && row[start] == b'|' {
        start += 1;
    }
    let mut end = whole.end;
    if start < end && is_split(row, end - 1) {
        end -= 1;
    }
    Span { start, end }
}

/// The first bar from one place on and before another. One that stands near is found byte by byte.
fn bar_from(row: &[u8], from: usize, end: usize) -> Option<usize>
    requires ordered { from ≤ end }
    requires within { end ≤ length row.now }
    ensures found { IfSome result (λ bar. (from ≤ bar) × (bar < end) × IsWholeBetween row.now from bar) }
    ensures none { IfNone result (IsWholeBetween row.now from end) }
{
    let near = from + (end - from).min(NEAR);
    for at in from..near {
        if row[at] == b'|' {
            return Some(at);
        }
    }
    far_bar(row, near, end)
}

fn far_bar(row: &[u8], from: usize, end: usize) -> Option<usize>
    requires ordered { from ≤ end }
    requires within { end ≤ length row.now }
    ensures found { IfSome result (λ bar. (from ≤ bar) × (bar < end) × IsWholeBetween row.now from bar) }
    ensures none { IfNone result (IsWholeBetween row.now from end) }
{
    match memchr(b'|', &row[from..end]) {
        Some(before) => Some(from + before),
        None => None,
    }
}

/// Whether a row is split at a place: a bar stands there, and not directly after a backslash.
pub(crate) fn is_split(row: &[u8], at: usize) -> bool
    requires { at < length row.now }
    ensures { result ≡ splits row.now at }
{
    row[at] == b'|' && (at == 0 || row[at - 1] != b'\\')
}

/// What stands between two places, without the spaces and tabs at its ends.
pub(crate) fn cell_at(row: &[u8], start: usize, end: usize) -> Span
    requires ordered { start ≤ end }
    requires within { end ≤ length row.now }
    ensures value { result ≡ cell row.now start end }
    ensures ordered { result.start ≤ result.end }
    ensures inside { result.end ≤ length row.now }
{
    trimmed_bytes(&row[..end], start)
}
