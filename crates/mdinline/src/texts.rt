//! Text: what begins nothing else (CommonMark 6.9).

ghost use Rattle.std.specs.Prelude.{◌≡◌, ◌+◌, ◌-◌, ◌<◌, ◌≤◌, ◌==◌, ◌||◌, ℕ, true, false, length, drop, slice_index, take};
ghost use Rattle.std.specs.List.{position_or_len, prefix_len};
ghost use Rattle.std.specs.Str.{IsCharBoundary};
ghost use Rattle.mdtext.specs.EntityTable.{EntityTable};
ghost use Rattle.mdscan.specs.Spans.{IsEndAfter, EndsAfterMark};
ghost use Rattle.inlinespec.specs.InlineEvents.{written};
ghost use Rattle.inlinespec.specs.Lexemes.{as_written};
ghost use Rattle.inlinespec.specs.Lexing.{lex};
ghost use Rattle.mdinline.specs.declared.tokens.Token.TheVariants as kept;
ghost use Rattle.mdinline.specs.held.LeafEvents.{IsTokenOf, leaf_events};
ghost use Rattle.mdinline.specs.held.ReadPending.{is_leaf};
ghost use Rattle.mdinline.specs.held.PlainText.{IsWritten, is_escaped, is_stop};
ghost use Rattle.mdinline.specs.held.Recognised.{lexeme_of};

use crate::line_breaks::are_spaces_alone;
use crate::scanner::{Found, leaf_of};
use crate::stops::{first_stop, is_stop};
use crate::tokens::Token;
use mdscan::Span;

/// One ASCII byte as text.
pub(crate) fn byte_token(text: &str, at: usize) -> Token<'static>
    requires whole { IsCharBoundary text.now at }
    requires inside { at < length text.now }
    requires mark { slice_index text.now at < 128 }
    ensures token { IsTokenOf text.now result }
    ensures leaf { is_leaf result ≡ true }
    ensures value { (entities : EntityTable) → leaf_events entities text.now result ≡ written (take 1 (drop at text.now)) }
{
    let span = Span {
        start: at,
        end: at + 1,
    };
    if is_escaped(text.as_bytes()[at]) {
        Token::Text(span)
    } else {
        Token::Plain(span)
    }
}

/// Whether HTML writes a byte as a reference.
fn is_escaped(byte: u8) -> bool
    ensures { result ≡ is_escaped byte }
{
    matches!(byte, b'&' | b'<' | b'>' | b'"')
}

/// The text at a place: a byte that HTML escapes; or a character, and what follows it up to the next that may begin something else or is escaped, without
/// the spaces before a line ending.
pub(crate) fn plain(text: &str, at: usize) -> Found<'static>
    requires whole { IsCharBoundary text.now at }
    requires inside { at < length text.now }
    ensures end { IsEndAfter text.now at result.end }
    ensures token { IsTokenOf text.now result.token }
    ensures leaf { is_leaf result.token ≡ true }
    ensures value { (entities : EntityTable) → lexeme_of entities text.now at result ≡ as_written (result.end - at) (drop at text.now) }
    ensures rest { IsWritten text.now (at + 1) result.end }
{
    let bytes = text.as_bytes();
    if is_escaped(bytes[at]) {
        return leaf_of(byte_token(text, at), at + 1);
    }
    let end = plain_end(text, at);
    leaf_of(Token::Plain(Span { start: at, end }), end)
}

/// Where the text ends that begins at a place with a byte that HTML does not escape: before the next byte that may begin something else or is escaped, and
/// before the spaces that stand before a line ending.
pub(crate) fn plain_end(text: &str, at: usize) -> usize
    requires whole { IsCharBoundary text.now at }
    requires inside { at < length text.now }
    requires first { is_escaped (slice_index text.now at) ≡ false }
    ensures end { IsEndAfter text.now at result }
    ensures token { IsTokenOf text.now (kept.Plain (record { start = at; end = result })) }
    ensures rest { IsWritten text.now (at + 1) result }
{
    text_end(text.as_bytes(), at)
}

fn text_end(text: &[u8], at: usize) -> usize
    requires { at < length text.now }
    ensures later { at < result }
    ensures within { result ≤ length text.now }
    ensures mark { result < length text.now → slice_index text.now result < 128 }
    ensures value { IsWritten text.now (at + 1) result }
    ensures plain { (i : ℕ) → at + 1 ≤ i → i < result → is_stop (slice_index text.now i) ≡ false }
{
    let first = at + 1;
    let stop = stop_from(text, first);
    if stop < text.len() && text[stop] == b'\n' {
        without_spaces(text, first, stop)
    } else {
        stop
    }
}

/// The first place from `start` on at which something may begin that is not plain text.
fn stop_from(text: &[u8], start: usize) -> usize
    requires { start ≤ length text.now }
    ensures from { start ≤ result }
    ensures within { result ≤ length text.now }
    ensures mark { result < length text.now → slice_index text.now result < 128 }
    ensures value { result ≡ start + position_or_len is_stop (drop start text.now) }
{
    start + first_stop(&text[start..])
}

/// Whether text begins at a place with a byte that HTML does not escape, as that byte tells, or with spaces that no line feed follows.
pub(crate) fn begins_text(text: &str, at: usize) -> bool
    requires { at < length text.now }
    ensures first { result ≡ true → is_escaped (slice_index text.now at) ≡ false }
    ensures value { result ≡ true → (entities : EntityTable) → lex entities text.now at ≡ as_written 1 (drop at text.now) }
{
    let byte = text.as_bytes()[at];
    if byte == b' ' {
        return are_spaces_alone(text, at);
    }
    !is_stop(byte)
}

/// Whether a byte stands at a place that is text whatever stands around it, and that HTML escapes: a quotation mark or a `>`.
pub(crate) fn begins_mark(text: &str, at: usize) -> bool
    requires { at < length text.now }
    ensures end { result ≡ true → IsEndAfter text.now at (at + 1) }
    ensures token { result ≡ true → IsCharBoundary text.now at → IsTokenOf text.now (kept.Text (record { start = at; end = at + 1 })) }
    ensures value { result ≡ true → (entities : EntityTable) → lex entities text.now at ≡ as_written 1 (drop at text.now) }
{
    is_lone(text.as_bytes()[at])
}

fn is_lone(byte: u8) -> bool
    ensures { result ≡ (byte == 34 || byte == 62) }
{
    byte == b'"' || byte == b'>'
}

/// Where the spaces begin that stand before `end`, and not before `start`.
fn without_spaces(text: &[u8], start: usize, end: usize) -> usize
    requires ordered { start ≤ end }
    requires inside { end < length text.now }
    requires mark { slice_index text.now end < 128 }
    ensures from { start ≤ result }
    ensures within { result ≤ end }
    ensures mark { slice_index text.now result < 128 }
    ensures value { start < result → slice_index text.now (result - 1) ≡ 32 → ⊥ }
{
    let mut first = end;
    while first > start && text[first - 1] == b' ' {
        first -= 1;
    }
    first
}

/// The place after an ASCII byte and the marks behind it.
pub(crate) fn past_marks(text: &[u8], at: usize, mark: u8) -> usize
    requires inside { at < length text.now }
    requires first { slice_index text.now at < 128 }
    requires ascii { mark < 128 }
    ensures end { EndsAfterMark text.now at result }
    ensures value { result ≡ at + 1 + prefix_len (λ b. b == mark) (drop (at + 1) text.now) }
{
    let mut end = at + 1;
    while end < text.len() && text[end] == mark {
        end += 1;
    }
    end
}
