//! Hard and soft line breaks (CommonMark 6.7, 6.8).

ghost use Rattle.std.specs.Prelude.{◌≡◌, ◌+◌, ◌-◌, ◌<◌, ◌≤◌, [], ◌∷◌, IfSome, length, drop, slice_index, true};
ghost use Rattle.mdtext.specs.EntityTable.{EntityTable};
ghost use Rattle.mdscan.specs.Spans.{IsEndAfter};
ghost use Rattle.inlinespec.specs.InlineEvents.{SoftBreak};
ghost use Rattle.inlinespec.specs.Lexemes.{as_written, leaf};
ghost use Rattle.inlinespec.specs.LineBreaks.{break_or_written, spaces, spaced_break};
ghost use Rattle.mdinline.specs.held.LeafEvents.{IsTokenOf};
ghost use Rattle.mdinline.specs.held.ReadPending.{is_leaf};
ghost use Rattle.mdinline.specs.held.Recognised.{IsFound};

use crate::scanner::{Found, leaf_of};
use crate::texts::past_marks;
use crate::tokens::Token;

/// The line break at a place, from the spaces before it to those after it. Two or more spaces before it make it a hard one.
pub(crate) fn line_break(text: &str, at: usize) -> Option<Found<'static>>
    requires inside { at < length text.now }
    ensures end { IfSome result (λ found. IsEndAfter text.now at found.end) }
    ensures token { IfSome result (λ found. IsTokenOf text.now found.token) }
    ensures leaf { IfSome result (λ found. is_leaf found.token ≡ true) }
    ensures value { (entities : EntityTable) → IsFound entities text.now at (break_or_written (drop at text.now) (spaced_break (drop at text.now))) result }
{
    let bytes = text.as_bytes();
    let feed = past_spaces(bytes, at);
    if feed >= bytes.len() || bytes[feed] != b'\n' {
        return None;
    }
    let end = past_break(text, at, feed);
    if feed - at > 1 {
        Some(leaf_of(Token::HardBreak, end))
    } else {
        Some(leaf_of(Token::SoftBreak, end))
    }
}

/// Where the soft line break ends whose line feed stands at a place, with no space before it.
pub(crate) fn soft_break_end(text: &str, at: usize) -> usize
    requires inside { at < length text.now }
    requires feed { slice_index text.now at ≡ 10 }
    ensures end { IsEndAfter text.now at result }
    ensures value { break_or_written (drop at text.now) (spaced_break (drop at text.now)) ≡ leaf (result - at) (SoftBreak ∷ []) }
{
    past_break(text, at, at)
}

/// The place after the line feed at `feed` and the spaces behind it.
pub(crate) fn past_break(text: &str, at: usize, feed: usize) -> usize
    requires from { at ≤ feed }
    requires inside { feed < length text.now }
    requires mark { slice_index text.now feed < 128 }
    ensures end { IsEndAfter text.now at result }
    ensures value { result ≡ feed + 1 + spaces (drop (feed + 1) text.now) }
{
    past_marks(text.as_bytes(), feed, b' ')
}

/// Whether no line feed stands behind the spaces at a place.
pub(crate) fn are_spaces_alone(text: &str, at: usize) -> bool
    requires { at < length text.now }
    ensures { result ≡ true → break_or_written (drop at text.now) (spaced_break (drop at text.now)) ≡ as_written 1 (drop at text.now) }
{
    let bytes = text.as_bytes();
    let feed = past_spaces(bytes, at);
    if feed >= bytes.len() {
        return true;
    }
    bytes[feed] != b'\n'
}

/// The place after the spaces at a place.
fn past_spaces(text: &[u8], at: usize) -> usize
    requires { at ≤ length text.now }
    ensures from { at ≤ result }
    ensures within { result ≤ length text.now }
    ensures value { result ≡ at + spaces (drop at text.now) }
{
    let mut end = at;
    while end < text.len() && text[end] == b' ' {
        end += 1;
    }
    end
}
