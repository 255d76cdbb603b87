//! Titles of links.

ghost use Rattle.std.specs.Prelude.{◌≡◌, ◌+◌, ◌<◌, ◌≤◌, IfSome, length, slice_index};
ghost use Rattle.std.specs.Str.{IsCharBoundary};
ghost use Rattle.mdscan.specs.Spans.{IsEnclosed, IsEndAfter, IsSpanOf};
ghost use Rattle.mdscan.specs.LinkTitle.{begins_blank_line, holds_blank_line, title_at, title_to};

use crate::backslash_escapes::before;
use crate::byte_runs::{begins, leading_blanks};
use crate::link_destinations::Dest;
use crate::spans::Span;

/// The link title that stands at a place of a text (CommonMark 6.3).
///
/// The place is a character's beginning or the text's end.
pub fn title(text: &str, at: usize) -> Option<Dest>
    requires { IsCharBoundary text.now at }
    ensures value { result ≡ title_at text.now at }
    ensures span { IfSome result (λ dest. IsSpanOf text.now dest.span) }
    ensures end { IfSome result (λ dest. IsEndAfter text.now at dest.end) }
{
    quoted(text.as_bytes(), at)
}

#[tactic(auto, unfolding(crate::specs::LinkTitle::title_at))]
pub(crate) fn quoted(text: &[u8], at: usize) -> Option<Dest>
    requires { at ≤ length text.now }
    ensures value { result ≡ title_at text.now at }
    ensures enclosed { IfSome result (λ dest. IsEnclosed text.now at dest.span) }
    ensures end { IfSome result (λ dest. dest.end ≡ dest.span.end + 1) }
{
    let rest = &text[at..];
    if begins(rest, b'"') {
        title_up_to(text, at, b"\"", b'"')
    } else if begins(rest, b'\'') {
        title_up_to(text, at, b"'", b'\'')
    } else if begins(rest, b'(') {
        title_up_to(text, at, b"()", b')')
    } else {
        None
    }
}

/// A title whose opening mark stands at a place, up to the first of the stops that is not escaped.
#[tactic(auto, unfolding(crate::specs::LinkTitle::title_to))]
fn title_up_to(text: &[u8], at: usize, stops: &[u8], closing: u8) -> Option<Dest>
    requires inside { at < length text.now }
    requires mark { slice_index text.now at < 128 }
    requires ascii { closing < 128 }
    ensures value { result ≡ title_to text.now at stops.now closing }
    ensures enclosed { IfSome result (λ dest. IsEnclosed text.now at dest.span) }
    ensures end { IfSome result (λ dest. dest.end ≡ dest.span.end + 1) }
{
    let start = at + 1;
    let end = start + before(&text[start..], stops);
    if begins(&text[end..], closing) && !blank_line_inside(&text[start..end]) {
        Some(Dest {
            span: Span { start, end },
            end: end + 1,
        })
    } else {
        None
    }
}

/// Whether a text holds a blank line.
fn blank_line_inside(text: &[u8]) -> bool
    ensures { result ≡ holds_blank_line text.now }
{
    for at in 0..text.len() {
        if blank_line_begins(&text[at..]) {
            return true;
        }
    }
    false
}

/// Whether a text begins with a line ending, spaces and tabs, and a line ending.
fn blank_line_begins(text: &[u8]) -> bool
    ensures { result ≡ begins_blank_line text.now }
{
    if !begins(text, b'\n') {
        return false;
    }
    let blanks = leading_blanks(&text[1..]);
    begins(&text[1 + blanks..], b'\n')
}
