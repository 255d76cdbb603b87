//! Link labels.

ghost use Rattle.std.specs.Prelude.{◌≡◌, ◌<◌, ◌≤◌, IfSome, count_by, length};
ghost use Rattle.std.specs.List.{list_any};
ghost use Rattle.std.specs.Str.{IsCharBoundary};
ghost use Rattle.mdscan.specs.Spans.{IsEnclosed, IsSpanOf};
ghost use Rattle.mdscan.specs.LinkLabel.{begins_character, is_visible, is_label_text, label_at};

use crate::backslash_escapes::before;
use crate::byte_runs::begins;
use crate::spans::Span;

/// The inside of the link label whose brackets stand at a place of a text (CommonMark 6.3): 1 to 999
/// characters, not all of them spaces, tabs and line endings, and no bracket that is not escaped.
///
/// The place is a character's beginning or the text's end.
pub fn link_label(text: &str, at: usize) -> Option<Span>
    requires { IsCharBoundary text.now at }
    ensures value { result ≡ label_at text.now at }
    ensures enclosed { IfSome result (λ span. IsEnclosed text.now at span) }
    ensures span { IfSome result (λ span. IsSpanOf text.now span) }
{
    brackets(text.as_bytes(), at)
}

#[tactic(auto, unfolding(crate::specs::LinkLabel::label_at))]
pub(crate) fn brackets(text: &[u8], at: usize) -> Option<Span>
    requires { at ≤ length text.now }
    ensures value { result ≡ label_at text.now at }
    ensures enclosed { IfSome result (λ span. IsEnclosed text.now at span) }
{
    if !begins(&text[at..], b'[') {
        return None;
    }
    let start = at + 1;
    let end = start + before(&text[start..], b"[]");
    if begins(&text[end..], b']') && label_text(&text[start..end]) {
        Some(Span { start, end })
    } else {
        None
    }
}

/// Whether a label's brackets may hold a text.
fn label_text(inside: &[u8]) -> bool
    ensures { result ≡ is_label_text inside.now }
{
    characters(inside) <= 999 && any_visible(inside)
}

/// How many characters begin in a text.
fn characters(text: &[u8]) -> usize
    ensures { result ≡ count_by begins_character text.now }
{
    text.iter().filter(|byte| character_begins(**byte)).count()
}

fn character_begins(byte: u8) -> bool
    ensures { result ≡ begins_character byte }
{
    byte < 128 || byte >= 192
}

fn any_visible(text: &[u8]) -> bool
    ensures { result ≡ list_any is_visible text.now }
{
    text.iter().any(|byte| visible(*byte))
}

fn visible(byte: u8) -> bool
    ensures { result ≡ is_visible byte }
{
    !matches!(byte, b' ' | b'\t' | b'\n' | b'\r')
}
