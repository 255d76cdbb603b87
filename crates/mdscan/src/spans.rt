//! Parts of a text, by their places in it.

ghost use Rattle.std.specs.Prelude.{◌≡◌, ◌≤◌, length};
ghost use Rattle.std.specs.Str.{IsCharBoundary};
ghost use Rattle.mdscan.specs.Spans.{IsSpanOf, trimmed_from};

use crate::byte_runs::{leading_blanks, trailing_blanks};

/// The bytes from `start` up to `end`.
#[derive(Clone, Copy, Debug, PartialEq, Eq)]
pub struct Span {
    /// Where it begins, in bytes.
    pub start: usize,
    /// Where it ends, in bytes: the place behind its last one.
    pub end: usize,
}

/// What stands from `at` on, without the spaces and tabs at its ends.
pub(crate) fn trimmed(text: &str, at: usize) -> Span
    requires { IsCharBoundary text.now at }
    ensures value { result ≡ trimmed_from text.now at }
    ensures span { IsSpanOf text.now result }
{
    trimmed_bytes(text.as_bytes(), at)
}

/// What stands from `at` on in these bytes, without the spaces and tabs at its ends.
pub(crate) fn trimmed_bytes(text: &[u8], at: usize) -> Span
    requires { at ≤ length text.now }
    ensures value { result ≡ trimmed_from text.now at }
    ensures ordered { result.start ≤ result.end }
    ensures within { result.end ≤ length text.now }
{
    let start = at + leading_blanks(&text[at..]);
    let body = &text[start..];
    Span {
        start,
        end: start + (body.len() - trailing_blanks(body)),
    }
}
