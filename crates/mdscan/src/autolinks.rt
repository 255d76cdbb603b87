//! Autolinks.

ghost use Rattle.std.specs.Prelude.{◌≡◌, ◌==◌, ◌<◌, ◌≤◌, IfSome, length};
ghost use Rattle.std.specs.List.{list_any, prefix_len};
ghost use Rattle.std.specs.Str.{IsCharBoundary};
ghost use Rattle.mdscan.specs.Spans.{IsEndAfter, EndsAfterMark};
ghost use Rattle.mdscan.specs.Repeats.{repeats};
ghost use Rattle.mdscan.specs.Autolink.{autolink_at, uri_end, mail_end, in_scheme, in_uri, in_mail_name, mail_marks, in_domain_label, scheme_length, domain_label_length, dotted_label_length};

use crate::byte_runs::{begins, holds};

/// The marks of a mail address before its `@`, beside letters and digits.
const MAIL_MARKS: [u8; 20] = *b".!#$%&'*+/=?^_`{|}~-";

/// An autolink (CommonMark 6.5).
#[derive(Clone, Copy, Debug, PartialEq, Eq)]
pub struct Auto {
    /// The byte of the text where it ends, after its `>`.
    pub end: usize,
    /// Whether it is a mail address, and no URI.
    pub mail: bool,
}

/// The autolink that stands at a place of a text (CommonMark 6.5).
///
/// The place is a character's beginning or the text's end.
pub fn autolink(text: &str, at: usize) -> Option<Auto>
    requires { IsCharBoundary text.now at }
    ensures value { result ≡ autolink_at text.now at }
    ensures end { IfSome result (λ auto. IsEndAfter text.now at auto.end) }
{
    auto_at(text.as_bytes(), at)
}

#[tactic(auto, unfolding(crate::specs::Autolink::autolink_at))]
fn auto_at(text: &[u8], at: usize) -> Option<Auto>
    requires { at ≤ length text.now }
    ensures value { result ≡ autolink_at text.now at }
    ensures end { IfSome result (λ auto. EndsAfterMark text.now at auto.end) }
{
    if !begins(&text[at..], b'<') {
        return None;
    }
    if let Some(end) = uri(text, at) {
        return Some(Auto { end, mail: false });
    }
    match mail(text, at) {
        Some(end) => Some(Auto { end, mail: true }),
        None => None,
    }
}

/// Where the autolink of a URI ends whose `<` stands at a place.
#[tactic(auto, unfolding(crate::specs::Autolink::uri_end))]
fn uri(text: &[u8], at: usize) -> Option<usize>
    requires { at < length text.now }
    ensures value { result ≡ uri_end text.now at }
    ensures end { IfSome result (λ end. EndsAfterMark text.now at end) }
{
    let scheme = scheme(&text[at + 1..]);
    let colon = at + 1 + scheme;
    if scheme == 0 || !begins(&text[colon..], b':') {
        return None;
    }
    let end = colon + 1 + uri_run(&text[colon + 1..]);
    if begins(&text[end..], b'>') {
        Some(end + 1)
    } else {
        None
    }
}

/// A scheme: a letter, and then letters, digits, `+`, `.` and `-`, 2 to 32 in all.
#[tactic(auto, unfolding(crate::specs::Autolink::scheme_length))]
fn scheme(text: &[u8]) -> usize
    ensures value { result ≡ scheme_length text.now }
    ensures within { result ≤ length text.now }
{
    let run = scheme_run(text);
    match text {
        [first, ..] if first.is_ascii_alphabetic() && run >= 2 && run <= 32 => run,
        _ => 0,
    }
}

fn scheme_run(text: &[u8]) -> usize
    ensures value { result ≡ prefix_len in_scheme text.now }
    ensures within { result ≤ length text.now }
{
    text.iter()
        .take_while(|byte| scheme_goes_on(**byte))
        .count()
}

fn scheme_goes_on(byte: u8) -> bool
    ensures { result ≡ in_scheme byte }
{
    byte.is_ascii_alphanumeric() || matches!(byte, b'+' | b'.' | b'-')
}

fn uri_run(text: &[u8]) -> usize
    ensures value { result ≡ prefix_len in_uri text.now }
    ensures within { result ≤ length text.now }
{
    text.iter().take_while(|byte| uri_goes_on(**byte)).count()
}

fn uri_goes_on(byte: u8) -> bool
    ensures { result ≡ in_uri byte }
{
    !(byte.is_ascii_control() || byte == b' ' || byte == b'<' || byte == b'>')
}

/// Where the autolink of a mail address ends whose `<` stands at a place.
#[tactic(auto, unfolding(crate::specs::Autolink::mail_end))]
fn mail(text: &[u8], at: usize) -> Option<usize>
    requires { at < length text.now }
    ensures value { result ≡ mail_end text.now at }
    ensures end { IfSome result (λ end. EndsAfterMark text.now at end) }
{
    let name = mail_name(&text[at + 1..]);
    let sign = at + 1 + name;
    if name == 0 || !begins(&text[sign..], b'@') {
        return None;
    }
    let label = domain_label(&text[sign + 1..]);
    let labels = dotted_labels(&text[sign + 1 + label..]);
    let end = sign + 1 + label + labels;
    if label > 0 && begins(&text[end..], b'>') {
        Some(end + 1)
    } else {
        None
    }
}

fn mail_name(text: &[u8]) -> usize
    ensures value { result ≡ prefix_len in_mail_name text.now }
    ensures within { result ≤ length text.now }
{
    text.iter()
        .take_while(|byte| mail_name_goes_on(**byte))
        .count()
}

fn mail_name_goes_on(byte: u8) -> bool
    ensures { result ≡ in_mail_name byte }
{
    byte.is_ascii_alphanumeric() || mail_mark(byte)
}

#[tactic(auto, unfolding(crate::specs::Autolink::mail_marks))]
fn mail_mark(byte: u8) -> bool
    ensures { result ≡ list_any (λ mark. mark == byte) mail_marks }
{
    let marks: [u8; 20] = MAIL_MARKS;
    holds(&marks, byte)
}

/// A label: 1 to 63 letters, digits and hyphens, with a letter or digit at both ends.
#[tactic(auto, unfolding(crate::specs::Autolink::domain_label_length))]
fn domain_label(text: &[u8]) -> usize
    ensures value { result ≡ domain_label_length text.now }
    ensures within { result ≤ length text.now }
{
    let run = domain_label_run(text);
    match text {
        [first, ..]
            if first.is_ascii_alphanumeric()
                && run > 0
                && run <= 63
                && text[run - 1].is_ascii_alphanumeric() => run,
        _ => 0,
    }
}

fn domain_label_run(text: &[u8]) -> usize
    ensures value { result ≡ prefix_len in_domain_label text.now }
    ensures within { result ≤ length text.now }
{
    text.iter()
        .take_while(|byte| byte.is_ascii_alphanumeric() || **byte == b'-')
        .count()
}

/// Labels with a dot before each, one after the other.
fn dotted_labels(text: &[u8]) -> usize
    ensures value { result ≡ repeats dotted_label_length text.now }
    ensures within { result ≤ length text.now }
{
    let mut at = 0;
    let mut length = dotted_label(text);
    while length > 0 {
        at += length;
        length = dotted_label(&text[at..]);
    }
    at
}

#[tactic(auto, unfolding(crate::specs::Autolink::dotted_label_length))]
fn dotted_label(text: &[u8]) -> usize
    ensures value { result ≡ dotted_label_length text.now }
    ensures within { result ≤ length text.now }
{
    if !begins(text, b'.') {
        return 0;
    }
    let label = domain_label(&text[1..]);
    if label > 0 { 1 + label } else { 0 }
}
