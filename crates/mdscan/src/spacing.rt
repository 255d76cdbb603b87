//! Spaces and tabs with at most one line ending.

ghost use Rattle.std.specs.Prelude.{◌≡◌, ◌≤◌, length};
ghost use Rattle.mdscan.specs.Spacing.{spacing_length};

use crate::byte_runs::{begins, leading_blanks};

/// How many of the first bytes are spaces and tabs with at most one line ending among them.
#[tactic(auto, unfolding(crate::specs::Spacing::spacing_length))]
pub(crate) fn spacing(text: &[u8]) -> usize
    ensures value { result ≡ spacing_length text.now }
    ensures within { result ≤ length text.now }
{
    let first = leading_blanks(text);
    if begins(&text[first..], b'\n') {
        first + 1 + leading_blanks(&text[first + 1..])
    } else {
        first
    }
}
