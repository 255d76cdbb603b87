//! Backslash escapes (CommonMark 2.4).

ghost use Rattle.std.specs.Prelude.{◌≡◌, ◌<◌, IfSome, length, drop, slice_index, true};
ghost use Rattle.mdtext.specs.EntityTable.{EntityTable};
ghost use Rattle.mdscan.specs.Spans.{IsEndAfter};
ghost use Rattle.inlinespec.specs.BackslashEscapes.{escape_lexeme};
ghost use Rattle.mdinline.specs.held.LeafEvents.{IsTokenOf};
ghost use Rattle.mdinline.specs.held.ReadPending.{is_leaf};
ghost use Rattle.mdinline.specs.held.Recognised.{IsFound};

use crate::line_breaks::past_break;
use crate::scanner::{Found, leaf_of};
use crate::texts::byte_token;
use crate::tokens::Token;

/// The backslash at a place, with what it escapes. Before a line ending it makes a hard line break.
pub(crate) fn escape(text: &str, at: usize) -> Option<Found<'static>>
    requires inside { at < length text.now }
    requires mark { slice_index text.now at < 128 }
    ensures end { IfSome result (λ found. IsEndAfter text.now at found.end) }
    ensures token { IfSome result (λ found. IsTokenOf text.now found.token) }
    ensures leaf { IfSome result (λ found. is_leaf found.token ≡ true) }
    ensures value { slice_index text.now at ≡ 92 → (entities : EntityTable) → IsFound entities text.now at (escape_lexeme (drop at text.now)) result }
{
    let bytes = text.as_bytes();
    let next = at + 1;
    if next >= bytes.len() {
        return None;
    }
    let byte = bytes[next];
    if byte == b'\n' {
        return Some(leaf_of(Token::HardBreak, past_break(text, at, next)));
    }
    if byte.is_ascii_punctuation() {
        return Some(leaf_of(byte_token(text, next), next + 1));
    }
    None
}
