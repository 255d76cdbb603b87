//! Raw HTML in a text.

ghost use Rattle.std.specs.Prelude.{◌≡◌, ◌+◌, ◌-◌, ◌<◌, ◌≤◌, true, nat_eq, ℕ, List, None, IfSome, length, drop, slice_index};
ghost use Rattle.std.specs.List.{starts_with};
ghost use Rattle.std.specs.Option.{option_map};
ghost use Rattle.std.specs.Str.{IsCharBoundary};
ghost use Rattle.mdscan.specs.Spans.{IsEndAfter, EndsAfterMark};
ghost use Rattle.mdscan.specs.RawHtml.{comment, declaration, delimited, place_of, raw_html};

use crate::tags::{closing, opening};

/// Where the raw HTML ends that stands at a place of a text (CommonMark 6.6).
///
/// The place is a character's beginning or the text's end.
pub fn html_tag(text: &str, at: usize) -> Option<usize>
    requires { IsCharBoundary text.now at }
    ensures value { result ≡ option_map (λ n. at + n) (raw_html (drop at text.now)) }
    ensures end { IfSome result (λ end. IsEndAfter text.now at end) }
{
    html_at(text.as_bytes(), at)
}

/// The first place from `at` on at which `needle` stands. Where there is none, there is none from any later
/// place on (`none_later`): so who looks for the ends of many comments need not look again.
///
/// The place is a character's beginning or the text's end.
pub fn find_from(text: &str, at: usize, needle: &str) -> Option<usize>
    requires { IsCharBoundary text.now at }
    ensures { result ≡ option_map (λ n. at + n) (place_of needle.now (drop at text.now)) }
{
    match find(&text.as_bytes()[at..], needle.as_bytes()) {
        Some(place) => Some(at + place),
        None => None,
    }
}

/// A needle that stands nowhere from a place on stands nowhere from a later one on.
pub fn none_later()
    ensures { (needle text : List ℕ) (i j : ℕ) → i ≤ j → place_of needle (drop i text) ≡ None → place_of needle (drop j text) ≡ None }
{}

fn html_at(text: &[u8], at: usize) -> Option<usize>
    requires { at ≤ length text.now }
    ensures value { result ≡ option_map (λ n. at + n) (raw_html (drop at text.now)) }
    ensures end { IfSome result (λ end. EndsAfterMark text.now at end) }
{
    match front(&text[at..]) {
        Some(length) => Some(at + length),
        None => None,
    }
}

/// How long the raw HTML is that a text begins with.
#[tactic(auto, unfolding(crate::specs::RawHtml::raw_html))]
fn front(text: &[u8]) -> Option<usize>
    ensures value { result ≡ raw_html text.now }
    ensures end { IfSome result (λ end. EndsAfterMark text.now 0 end) }
{
    let tag = opening(text).or(closing(text));
    let section = closed(text, b"<![CDATA[", b"]]>");
    let processing = closed(text, b"<?", b"?>");
    tag.or(commented(text))
        .or(processing)
        .or(declared(text))
        .or(section)
}

/// The length of the comment that a text begins with.
#[tactic(auto, unfolding(crate::specs::RawHtml::comment))]
fn commented(text: &[u8]) -> Option<usize>
    ensures value { result ≡ comment text.now }
    ensures end { IfSome result (λ end. EndsAfterMark text.now 0 end) }
{
    if text.starts_with(b"<!-->") {
        Some(5)
    } else if text.starts_with(b"<!--->") {
        Some(6)
    } else {
        closed(text, b"<!--", b"-->")
    }
}

/// The length of the declaration that a text begins with.
#[tactic(auto, unfolding(crate::specs::RawHtml::declaration))]
fn declared(text: &[u8]) -> Option<usize>
    ensures value { result ≡ declaration text.now }
    ensures end { IfSome result (λ end. EndsAfterMark text.now 0 end) }
{
    match text {
        [_, _, letter, ..] if letter.is_ascii_alphabetic() => closed(text, b"<!", b">"),
        _ => None,
    }
}

/// The length of the front, anything up to the next close, and that close.
#[tactic(auto, unfolding(crate::specs::RawHtml::delimited))]
fn closed(text: &[u8], front: &[u8], close: &[u8]) -> Option<usize>
    requires some { 0 < length close.now }
    requires mark { slice_index close.now (length close.now - 1) < 128 }
    ensures value { result ≡ delimited front.now close.now text.now }
    ensures end { IfSome result (λ end. EndsAfterMark text.now 0 end) }
{
    if !text.starts_with(front) {
        return None;
    }
    match find(&text[front.len()..], close) {
        Some(place) => Some(front.len() + place + close.len()),
        None => None,
    }
}

/// The first place at which `needle` stands.
#[tactic(auto, unfolding(crate::specs::RawHtml::place_of))]
pub(crate) fn find(text: &[u8], needle: &[u8]) -> Option<usize>
    ensures value { result ≡ place_of needle.now text.now }
    ensures within { IfSome result (λ n. n + length needle.now ≤ length text.now) }
    ensures there { IfSome result (λ n. starts_with nat_eq (drop n text.now) needle.now ≡ true) }
{
    for at in 0..text.len() {
        if text[at..].starts_with(needle) {
            return Some(at);
        }
    }
    None
}
