//! Link reference definitions.

ghost use Rattle.std.specs.Prelude.{◌≡◌, ◌<◌, ◌≤◌, IfSome, Some, None, length};
ghost use Rattle.std.specs.Str.{IsUtf8, IsCharBoundary};
ghost use Rattle.mdscan.specs.Spans.{IsSpanOf};
ghost use Rattle.mdscan.specs.LinkDefinition.{AreDefSpans, definition_of, labelled_def, titled_def, def_to, line_end};
ghost use Rattle.mdscan.specs.LinkLabel.{label_at};

use crate::byte_runs::{begins, leading_blanks};
use crate::link_destinations::{Dest, target};
use crate::link_labels::brackets;
use crate::link_tails::after_spacing;
use crate::link_titles::quoted;
use crate::spans::Span;

/// A link reference definition (CommonMark 4.7). Its parts are as written, with escapes and references.
#[derive(Clone, Copy, Debug, PartialEq, Eq)]
pub struct Def {
    /// What stands between the label's brackets.
    pub label: Span,
    /// The destination, without `<` and `>` around it.
    pub destination: Span,
    /// What stands between the title's marks, where it has a title.
    pub title: Option<Span>,
    /// The byte of the text where it ends, after its last line's ending.
    pub end: usize,
}

/// The link reference definition that a text begins with (CommonMark 4.7).
pub fn definition(text: &str) -> Option<Def>
    ensures value { result ≡ definition_of text.now }
    ensures label { IfSome result (λ def. label_at text.now 0 ≡ Some def.label) }
    ensures later { IfSome result (λ def. 0 < def.end) }
    ensures within { IfSome result (λ def. def.end ≤ length text.now) }
    ensures spans { IfSome result (λ def. AreDefSpans text.now def) }
{
    defined(text.as_bytes())
}

#[tactic(auto, unfolding(crate::specs::LinkDefinition::definition_of))]
fn defined(text: &[u8]) -> Option<Def>
    ensures value { result ≡ definition_of text.now }
    ensures label { IfSome result (λ def. label_at text.now 0 ≡ Some def.label) }
    ensures later { IfSome result (λ def. 0 < def.end) }
    ensures within { IfSome result (λ def. def.end ≤ length text.now) }
    ensures spans { IsUtf8 text.now → IfSome result (λ def. AreDefSpans text.now def) }
{
    match brackets(text, 0) {
        Some(label) => labelled(text, label),
        None => None,
    }
}

/// The definition with this label.
#[tactic(auto, unfolding(crate::specs::LinkDefinition::labelled_def))]
fn labelled(text: &[u8], label: Span) -> Option<Def>
    requires { label.end < length text.now }
    ensures value { result ≡ labelled_def text.now label }
    ensures label { IfSome result (λ def. def.label ≡ label) }
    ensures later { IfSome result (λ def. 0 < def.end) }
    ensures within { IfSome result (λ def. def.end ≤ length text.now) }
    ensures spans { IsUtf8 text.now → IsSpanOf text.now label → IfSome result (λ def. AreDefSpans text.now def) }
{
    if !begins(&text[label.end + 1..], b':') {
        return None;
    }
    match target(text, after_spacing(text, label.end + 2)) {
        Some(dest) => with_title(text, label, dest).or(without_title(text, label, dest)),
        None => None,
    }
}

fn without_title(text: &[u8], label: Span, dest: Dest) -> Option<Def>
    requires { dest.end ≤ length text.now }
    ensures value { result ≡ def_to label dest None (line_end text.now dest.end) }
    ensures label { IfSome result (λ def. def.label ≡ label) }
    ensures later { IfSome result (λ def. dest.end ≤ def.end) }
    ensures within { IfSome result (λ def. def.end ≤ length text.now) }
    ensures spans { IsUtf8 text.now → IsSpanOf text.now label → IsSpanOf text.now dest.span → IsCharBoundary text.now dest.end
        → IfSome result (λ def. AreDefSpans text.now def) }
{
    up_to(label, dest, None, rest_of_line(text, dest.end))
}

/// The definition with a title, which spacing parts from the destination.
#[tactic(auto, unfolding(crate::specs::LinkDefinition::titled_def))]
fn with_title(text: &[u8], label: Span, dest: Dest) -> Option<Def>
    requires { dest.end ≤ length text.now }
    ensures value { result ≡ titled_def text.now label dest }
    ensures label { IfSome result (λ def. def.label ≡ label) }
    ensures later { IfSome result (λ def. 0 < def.end) }
    ensures within { IfSome result (λ def. def.end ≤ length text.now) }
    ensures spans { IsUtf8 text.now → IsSpanOf text.now label → IsSpanOf text.now dest.span → IfSome result (λ def. AreDefSpans text.now def) }
{
    let next = after_spacing(text, dest.end);
    if next <= dest.end {
        return None;
    }
    match quoted(text, next) {
        Some(title) => up_to(label, dest, Some(title.span), rest_of_line(text, title.end)),
        None => None,
    }
}

/// The definition with these parts, where it has an end.
fn up_to(label: Span, dest: Dest, title: Option<Span>, end: Option<usize>) -> Option<Def>
    ensures value { result ≡ def_to label dest title end }
    ensures end { IfSome result (λ def. Some def.end ≡ end) }
    ensures label { IfSome result (λ def. def.label ≡ label) }
    ensures destination { IfSome result (λ def. def.destination ≡ dest.span) }
    ensures title { IfSome result (λ def. def.title ≡ title) }
{
    match end {
        Some(end) => Some(Def {
            label,
            destination: dest.span,
            title,
            end,
        }),
        None => None,
    }
}

/// Where the next line begins, or the text ends, where only spaces and tabs stand before that.
#[tactic(auto, unfolding(crate::specs::LinkDefinition::line_end))]
fn rest_of_line(text: &[u8], at: usize) -> Option<usize>
    requires { at ≤ length text.now }
    ensures value { result ≡ line_end text.now at }
    ensures later { IfSome result (λ n. at ≤ n) }
    ensures within { IfSome result (λ n. n ≤ length text.now) }
    ensures boundary { IsUtf8 text.now → IsCharBoundary text.now at → IfSome result (λ n. IsCharBoundary text.now n) }
{
    let next = at + leading_blanks(&text[at..]);
    if next == text.len() {
        Some(next)
    } else if begins(&text[next..], b'\n') {
        Some(next + 1)
    } else {
        None
    }
}
