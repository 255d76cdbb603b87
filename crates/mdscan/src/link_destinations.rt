//! Destinations of links.

ghost use Rattle.std.specs.Prelude.{◌≡◌, ◌+◌, ◌<◌, ◌≤◌, IfSome, length, slice_index};
ghost use Rattle.std.specs.Str.{IsUtf8, IsCharBoundary};
ghost use Rattle.mdscan.specs.Spans.{IsEnclosed, IsEndAfter, IsSpanOf};
ghost use Rattle.mdscan.specs.LinkDestination.{angle_destination, bare_end, bare_dest, destination_at, ends_bare};

use crate::backslash_escapes::{before, escape};
use crate::byte_runs::begins;
use crate::spans::Span;

/// A link's destination or its title (CommonMark 6.3), as written.
#[derive(Clone, Copy, Debug, PartialEq, Eq)]
pub struct Dest {
    /// What stands between its marks; all of a destination that has none.
    pub span: Span,
    /// The byte of the text where it ends, after its marks.
    pub end: usize,
}

/// The link destination that stands at a place of a text (CommonMark 6.3), bare or between `<` and `>`. No
/// more than 32 parentheses are open at once in a bare one.
///
/// The place is a character's beginning or the text's end.
pub fn destination(text: &str, at: usize) -> Option<Dest>
    requires { IsCharBoundary text.now at }
    ensures value { result ≡ destination_at text.now at }
    ensures span { IfSome result (λ dest. IsSpanOf text.now dest.span) }
    ensures end { IfSome result (λ dest. IsEndAfter text.now at dest.end) }
{
    target(text.as_bytes(), at)
}

#[tactic(auto, unfolding(crate::specs::LinkDestination::destination_at))]
pub(crate) fn target(text: &[u8], at: usize) -> Option<Dest>
    requires { at ≤ length text.now }
    ensures value { result ≡ destination_at text.now at }
    ensures later { IfSome result (λ dest. at < dest.end) }
    ensures within { IfSome result (λ dest. dest.end ≤ length text.now) }
    ensures span { IsUtf8 text.now → IsCharBoundary text.now at → IfSome result (λ dest. IsSpanOf text.now dest.span) }
    ensures end { IsUtf8 text.now → IfSome result (λ dest. IsEndAfter text.now at dest.end) }
{
    if begins(&text[at..], b'<') {
        return angle(text, at);
    }
    match bare(text, at) {
        Some(end) if at < end => Some(Dest {
            span: Span { start: at, end },
            end,
        }),
        _ => None,
    }
}

/// A destination whose `<` stands at a place.
#[tactic(auto, unfolding(crate::specs::LinkDestination::angle_destination))]
fn angle(text: &[u8], at: usize) -> Option<Dest>
    requires inside { at < length text.now }
    requires mark { slice_index text.now at < 128 }
    ensures value { result ≡ angle_destination text.now at }
    ensures enclosed { IfSome result (λ dest. IsEnclosed text.now at dest.span) }
    ensures end { IfSome result (λ dest. dest.end ≡ dest.span.end + 1) }
{
    let start = at + 1;
    let end = start + before(&text[start..], b"\n<>");
    if begins(&text[end..], b'>') {
        Some(Dest {
            span: Span { start, end },
            end: end + 1,
        })
    } else {
        None
    }
}

/// Where the bare destination ends that begins at a place, where its parentheses are balanced.
#[tactic(auto, unfolding(crate::specs::LinkDestination::bare_end))]
fn bare(text: &[u8], at: usize) -> Option<usize>
    requires { at ≤ length text.now }
    ensures value { result ≡ bare_end text.now at }
    ensures boundary { IfSome result (λ end. IsCharBoundary text.now end) }
{
    let mut depth: usize = 0;
    let mut escaped = false;
    for end in at..text.len() {
        let byte = text[end];
        if escaped {
            escaped = false;
        } else if escape(&text[end..]) {
            escaped = true;
        } else if bare_ends(byte) {
            return if depth == 0 { Some(end) } else { None };
        } else if byte == b'(' {
            if depth >= 32 {
                return None;
            }
            depth += 1;
        } else if byte == b')' {
            if depth == 0 {
                return Some(end);
            }
            depth -= 1;
        }
    }
    if depth == 0 { Some(text.len()) } else { None }
}

/// Whether a byte is a space or an ASCII control character.
fn bare_ends(byte: u8) -> bool
    ensures { result ≡ ends_bare byte }
{
    byte.is_ascii_control() || byte == b' '
}
