//! What follows an inline link's text.

ghost use Rattle.std.specs.Prelude.{◌≡◌, ◌≤◌, Some, None, IfSome, length};
ghost use Rattle.std.specs.Str.{IsUtf8, IsCharBoundary};
ghost use Rattle.mdscan.specs.Spans.{IsEndAfter, IsSpanOf, EndsAfterMark};
ghost use Rattle.mdscan.specs.Spacing.{past_spacing};
ghost use Rattle.mdscan.specs.LinkTail.{AreTailSpans, inline_tail_at, tail_inside, tail_to, titled_tail};

use crate::byte_runs::begins;
use crate::link_destinations::{Dest, target};
use crate::link_titles::quoted;
use crate::spacing::spacing;
use crate::spans::Span;

/// What follows an inline link's text (CommonMark 6.3). Its parts are as written, with escapes and references.
#[derive(Clone, Copy, Debug, PartialEq, Eq)]
pub struct Tail {
    /// The destination, without `<` and `>` around it, where there is one.
    pub destination: Option<Span>,
    /// What stands between the title's marks, where there is one.
    pub title: Option<Span>,
    /// The byte of the text where it ends, after the closing parenthesis.
    pub end: usize,
}

/// The tail of an inline link that stands at a place of a text, from its `(` on (CommonMark 6.3).
///
/// The place is a character's beginning or the text's end.
pub fn inline_tail(text: &str, at: usize) -> Option<Tail>
    requires { IsCharBoundary text.now at }
    ensures value { result ≡ inline_tail_at text.now at }
    ensures end { IfSome result (λ tail. IsEndAfter text.now at tail.end) }
    ensures spans { IfSome result (λ tail. AreTailSpans text.now tail) }
{
    parentheses(text.as_bytes(), at)
}

#[tactic(auto, unfolding(crate::specs::LinkTail::inline_tail_at))]
fn parentheses(text: &[u8], at: usize) -> Option<Tail>
    requires { at ≤ length text.now }
    ensures value { result ≡ inline_tail_at text.now at }
    ensures end { IfSome result (λ tail. EndsAfterMark text.now at tail.end) }
    ensures spans { IsUtf8 text.now → IfSome result (λ tail. AreTailSpans text.now tail) }
{
    if begins(&text[at..], b'(') {
        inside(text, after_spacing(text, at + 1))
    } else {
        None
    }
}

/// The place after the spacing that stands at a place.
pub(crate) fn after_spacing(text: &[u8], at: usize) -> usize
    requires { at ≤ length text.now }
    ensures value { result ≡ past_spacing text.now at }
    ensures from { at ≤ result }
    ensures within { result ≤ length text.now }
    ensures boundary { IsUtf8 text.now → IsCharBoundary text.now at → IsCharBoundary text.now result }
{
    at + spacing(&text[at..])
}

/// The tail whose opening parenthesis, with the spacing behind it, stands before a place.
#[tactic(auto, unfolding(crate::specs::LinkTail::tail_inside))]
fn inside(text: &[u8], at: usize) -> Option<Tail>
    requires { at ≤ length text.now }
    ensures value { result ≡ tail_inside text.now at }
    ensures end { IfSome result (λ tail. EndsAfterMark text.now at tail.end) }
    ensures spans { IsUtf8 text.now → IsCharBoundary text.now at → IfSome result (λ tail. AreTailSpans text.now tail) }
{
    if begins(&text[at..], b')') {
        return close(text, at, None, None);
    }
    match target(text, at) {
        Some(dest) => with_title(text, dest).or(without_title(text, dest)),
        None => None,
    }
}

fn without_title(text: &[u8], dest: Dest) -> Option<Tail>
    requires { dest.end ≤ length text.now }
    ensures value { result ≡ tail_to text.now (past_spacing text.now dest.end) (Some dest.span) None }
    ensures end { IfSome result (λ tail. EndsAfterMark text.now dest.end tail.end) }
    ensures spans { IsSpanOf text.now dest.span → IfSome result (λ tail. AreTailSpans text.now tail) }
{
    close(text, after_spacing(text, dest.end), Some(dest.span), None)
}

/// The tail with a title, which spacing parts from the destination.
#[tactic(auto, unfolding(crate::specs::LinkTail::titled_tail))]
fn with_title(text: &[u8], dest: Dest) -> Option<Tail>
    requires { dest.end ≤ length text.now }
    ensures value { result ≡ titled_tail text.now dest }
    ensures end { IfSome result (λ tail. EndsAfterMark text.now dest.end tail.end) }
    ensures spans { IsUtf8 text.now → IsSpanOf text.now dest.span → IfSome result (λ tail. AreTailSpans text.now tail) }
{
    let next = after_spacing(text, dest.end);
    if next <= dest.end {
        return None;
    }
    match quoted(text, next) {
        Some(title) => close(
            text,
            after_spacing(text, title.end),
            Some(dest.span),
            Some(title.span),
        ),
        None => None,
    }
}

/// The tail with these parts, where the closing parenthesis stands at a place.
#[tactic(auto, unfolding(crate::specs::LinkTail::tail_to))]
fn close(text: &[u8], at: usize, destination: Option<Span>, title: Option<Span>) -> Option<Tail>
    requires { at ≤ length text.now }
    ensures value { result ≡ tail_to text.now at destination title }
    ensures end { IfSome result (λ tail. EndsAfterMark text.now at tail.end) }
    ensures spans { IfSome destination (λ span. IsSpanOf text.now span) → IfSome title (λ span. IsSpanOf text.now span)
        → IfSome result (λ tail. AreTailSpans text.now tail) }
{
    if begins(&text[at..], b')') {
        Some(Tail {
            destination,
            title,
            end: at + 1,
        })
    } else {
        None
    }
}
