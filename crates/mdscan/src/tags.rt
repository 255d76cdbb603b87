//! Open and closing tags. Lengths are of the longest element of a kind that a text begins with, and 0 where
//! there is none.

ghost use Rattle.std.specs.Prelude.{◌≡◌, ◌<◌, ◌≤◌, ◌==◌, ◌-◌, not, IfSome, length, slice_index};
ghost use Rattle.std.specs.List.{prefix_len};
ghost use Rattle.mdscan.specs.Spans.{EndsAfterMark};
ghost use Rattle.mdscan.specs.Tag.{in_tag_name, in_attribute_name, in_unquoted_value, begins_attribute_name, tag_name_length, attribute_name_length};
ghost use Rattle.mdscan.specs.Tag.{quoted_length, value_length, equals_length, value_part_length, attribute_length, attributes_length};
ghost use Rattle.mdscan.specs.Tag.{open_end_length, open_tag, closing_tag};

use crate::byte_runs::begins;
use crate::spacing::spacing;

/// The length of the open tag that a text begins with (CommonMark 6.6).
#[tactic(auto, unfolding(crate::specs::Tag::open_tag))]
pub(crate) fn opening(text: &[u8]) -> Option<usize>
    ensures value { result ≡ open_tag text.now }
    ensures end { IfSome result (λ end. EndsAfterMark text.now 0 end) }
{
    if !begins(text, b'<') {
        return None;
    }
    let name = tag_name(&text[1..]);
    let attributes = attributes(&text[1 + name..]);
    let end = open_end(&text[1 + name + attributes..]);
    if name > 0 && end > 0 {
        Some(1 + name + attributes + end)
    } else {
        None
    }
}

/// The length of the closing tag that a text begins with (CommonMark 6.6).
#[tactic(auto, unfolding(crate::specs::Tag::closing_tag))]
pub(crate) fn closing(text: &[u8]) -> Option<usize>
    ensures value { result ≡ closing_tag text.now }
    ensures end { IfSome result (λ end. EndsAfterMark text.now 0 end) }
{
    if !text.starts_with(b"</") {
        return None;
    }
    let name = tag_name(&text[2..]);
    let spacing = spacing(&text[2 + name..]);
    if name > 0 && begins(&text[2 + name + spacing..], b'>') {
        Some(2 + name + spacing + 1)
    } else {
        None
    }
}

/// A tag's name: a letter, and then letters, digits and hyphens.
#[tactic(auto, unfolding(crate::specs::Tag::tag_name_length))]
pub(crate) fn tag_name(text: &[u8]) -> usize
    ensures value { result ≡ tag_name_length text.now }
    ensures within { result ≤ length text.now }
{
    match text {
        [first, ..] if first.is_ascii_alphabetic() => tag_name_run(text),
        _ => 0,
    }
}

fn tag_name_run(text: &[u8]) -> usize
    ensures value { result ≡ prefix_len in_tag_name text.now }
    ensures within { result ≤ length text.now }
{
    text.iter()
        .take_while(|byte| byte.is_ascii_alphanumeric() || **byte == b'-')
        .count()
}

/// The attributes that stand one after the other.
fn attributes(text: &[u8]) -> usize
    ensures value { result ≡ attributes_length text.now }
    ensures within { result ≤ length text.now }
{
    let mut at = 0;
    let mut length = attribute(text);
    while length > 0 {
        at += length;
        length = attribute(&text[at..]);
    }
    at
}

/// An attribute: spacing, a name, and perhaps a value.
#[tactic(auto, unfolding(crate::specs::Tag::attribute_length))]
fn attribute(text: &[u8]) -> usize
    ensures value { result ≡ attribute_length text.now }
    ensures within { result ≤ length text.now }
{
    let spacing = spacing(text);
    let name = attribute_name(&text[spacing..]);
    if spacing > 0 && name > 0 {
        spacing + name + value_part(&text[spacing + name..])
    } else {
        0
    }
}

/// An attribute's name: a letter, `_` or `:`, and then letters, digits, `_`, `.`, `:` and `-`.
#[tactic(auto, unfolding(crate::specs::Tag::attribute_name_length))]
fn attribute_name(text: &[u8]) -> usize
    ensures value { result ≡ attribute_name_length text.now }
    ensures within { result ≤ length text.now }
{
    match text {
        [first, ..] if name_begins(*first) => attribute_name_run(text),
        _ => 0,
    }
}

fn name_begins(byte: u8) -> bool
    ensures { result ≡ begins_attribute_name byte }
{
    byte.is_ascii_alphabetic() || byte == b'_' || byte == b':'
}

fn attribute_name_run(text: &[u8]) -> usize
    ensures value { result ≡ prefix_len in_attribute_name text.now }
    ensures within { result ≤ length text.now }
{
    text.iter().take_while(|byte| name_goes_on(**byte)).count()
}

fn name_goes_on(byte: u8) -> bool
    ensures { result ≡ in_attribute_name byte }
{
    byte.is_ascii_alphanumeric() || matches!(byte, b'_' | b'.' | b':' | b'-')
}

/// An attribute's value, with the `=` and the spacing before it.
#[tactic(auto, unfolding(crate::specs::Tag::value_part_length))]
fn value_part(text: &[u8]) -> usize
    ensures value { result ≡ value_part_length text.now }
    ensures within { result ≤ length text.now }
{
    let before = equals(text);
    let value = value(&text[before..]);
    if before > 0 && value > 0 {
        before + value
    } else {
        0
    }
}

/// Spacing or none, `=`, and spacing or none.
#[tactic(auto, unfolding(crate::specs::Tag::equals_length))]
fn equals(text: &[u8]) -> usize
    ensures value { result ≡ equals_length text.now }
    ensures within { result ≤ length text.now }
{
    let before = spacing(text);
    if begins(&text[before..], b'=') {
        before + 1 + spacing(&text[before + 1..])
    } else {
        0
    }
}

/// An attribute's value: in one of two quotation marks, or unquoted.
#[tactic(auto, unfolding(crate::specs::Tag::value_length))]
fn value(text: &[u8]) -> usize
    ensures value { result ≡ value_length text.now }
    ensures within { result ≤ length text.now }
{
    if begins(text, b'"') {
        quoted(text, b'"')
    } else if begins(text, b'\'') {
        quoted(text, b'\'')
    } else {
        unquoted(text)
    }
}

/// A quoted value, where the first mark is known to stand there.
#[tactic(auto, unfolding(crate::specs::Tag::quoted_length))]
fn quoted(text: &[u8], mark: u8) -> usize
    requires { 0 < length text.now }
    ensures value { result ≡ quoted_length mark text.now }
    ensures within { result ≤ length text.now }
{
    let inside = run_without(&text[1..], mark);
    if inside + 1 < text.len() {
        inside + 2
    } else {
        0
    }
}

fn run_without(text: &[u8], mark: u8) -> usize
    ensures value { result ≡ prefix_len (λ b. not (b == mark)) text.now }
    ensures within { result ≤ length text.now }
{
    text.iter().take_while(|byte| **byte != mark).count()
}

/// An unquoted value.
fn unquoted(text: &[u8]) -> usize
    ensures value { result ≡ prefix_len in_unquoted_value text.now }
    ensures within { result ≤ length text.now }
{
    text.iter().take_while(|byte| value_goes_on(**byte)).count()
}

fn value_goes_on(byte: u8) -> bool
    ensures { result ≡ in_unquoted_value byte }
{
    !matches!(
        byte,
        b' ' | b'\t' | b'\n' | b'"' | b'\'' | b'=' | b'<' | b'>' | b'`'
    )
}

/// The end of an open tag: spacing or none, `/` or none, and `>`.
#[tactic(auto, unfolding(crate::specs::Tag::open_end_length))]
fn open_end(text: &[u8]) -> usize
    ensures value { result ≡ open_end_length text.now }
    ensures within { result ≤ length text.now }
    ensures mark { 0 < result → slice_index text.now (result - 1) ≡ 62 }
{
    let spacing = spacing(text);
    let rest = &text[spacing..];
    if begins(rest, b'>') {
        spacing + 1
    } else if rest.starts_with(b"/>") {
        spacing + 2
    } else {
        0
    }
}
