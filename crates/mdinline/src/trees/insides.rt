//! What stands in a span, as its row ends.

ghost use Rattle.std.specs.Prelude.{◌≡◌, ◌≤◌, [], IfOk, OnOk, drop, length, string_bytes, take};
ghost use Rattle.mdinline.specs.held.OpenRows.{EndsWithText, IsTextRow};

use crate::inlines::Inline;
use std::alloc::{AllocError, Global};

/// Appends a text to a row, if it is not empty, and empties it.
pub(super) fn push_text(
    alloc: Global,
    row: &mut Vec<Inline>,
    text: &mut String,
) -> Result<(), AllocError>
    ensures row { OnOk result (EndsWithText row.old.items (string_bytes text.old) row.new.items) }
    ensures text { OnOk result (string_bytes text.new ≡ []) }
    ensures kept { length row.old.items ≤ length row.new.items }
{
    if text.is_empty() {
        return Ok(());
    }
    let copy = String::from_str(alloc, text)?;
    text.clear();
    row.push(Inline::Text(copy))?;
    Ok(())
}

/// A list of a text alone, or an empty one, and empties the text.
fn lone_text(alloc: Global, text: &mut String) -> Result<Vec<Inline>, AllocError>
    ensures inside { IfOk result (λ inside. IsTextRow (string_bytes text.old) inside.items) }
    ensures text { OnOk result (string_bytes text.new ≡ []) }
{
    if text.is_empty() {
        return Ok(Vec::new(alloc));
    }
    let mut inside = Vec::with_capacity(alloc, 1)?;
    push_text(alloc, &mut inside, text)?;
    Ok(inside)
}

/// Takes what stands in a row from a place on, and the text behind it, into a list of that length. Most spans hold a text alone, which does not go through the
/// row.
pub(super) fn take_inside(
    alloc: Global,
    row: &mut Vec<Inline>,
    text: &mut String,
    begin: usize,
) -> Result<Vec<Inline>, AllocError>
    requires { begin ≤ length row.old.items }
    ensures row { OnOk result (row.new.items ≡ take begin row.old.items) }
    ensures text { OnOk result (string_bytes text.new ≡ []) }
    ensures inside { IfOk result (λ inside. EndsWithText (drop begin row.old.items) (string_bytes text.old) inside.items) }
    ensures kept { begin ≤ length row.new.items }
{
    if row.len() == begin {
        return lone_text(alloc, text);
    }
    push_text(alloc, row, text)?;
    let inside = row.split_off(begin)?;
    Ok(inside)
}
