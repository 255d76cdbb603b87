//! Entity and numeric character references.
ghost use Rattle.std.specs.Prelude.{◌≡◌, ◌+◌, ◌-◌, ◌<◌, ◌≤◌, ◌==◌, ◌||◌, IfSome, length, option_map, slice_index};
ghost use Rattle.std.specs.Char.{is_ascii_alphanumeric, is_digit};
ghost use Rattle.std.specs.List.{prefix_len};
ghost use Rattle.std.specs.Str.Parse.{IsNumeral, digits_value};
ghost use Rattle.mdtext.specs.CharacterReferences.{character_at, is_closed, named, numeric, reference};
ghost use Rattle.mdtext.specs.Referents.{meaning_of};

use crate::entity_table::Entities;

/// What a reference stands for.
#[derive(Debug, Clone, Copy)]
pub enum Referent<'a> {
    /// The character of a numeric reference.
    Character(char),
    /// The text of an entity.
    Text(&'a str),
}

/// An entity reference or a numeric character reference (CommonMark 2.5).
#[derive(Debug, Clone, Copy)]
pub struct Reference<'a> {
    /// How many bytes it has, from `&` to `;`.
    pub len: usize,
    /// What it stands for.
    pub referent: Referent<'a>,
}

/// The reference that stands at a `&`, by the text after that. It takes no memory.
pub fn read_reference<'a>(after: &str, entities: &'a Entities) -> Option<Reference<'a>>
    ensures meaning { option_map meaning_of result ≡ reference entities.now after.now }
    ensures end { IfSome result (λ r. (2 ≤ r.len) × (slice_index after.now (r.len - 2) ≡ 59)) }
{
    if byte_at(after, 0) != b'#' {
        return read_name(after, entities);
    }
    if is_x(byte_at(after, 1)) {
        return read_number(&after[2..], 3, 16, 6);
    }
    read_number(&after[1..], 2, 10, 7)
}

fn is_x(byte: u8) -> bool
    ensures { result ≡ (byte == 120 || byte == 88) }
{
    byte == b'x' || byte == b'X'
}

fn read_name<'a>(text: &str, entities: &'a Entities) -> Option<Reference<'a>>
    ensures meaning { option_map meaning_of result ≡ named entities.now text.now }
    ensures end { IfSome result (λ r. (2 ≤ r.len) × (slice_index text.now (r.len - 2) ≡ 59)) }
{
    let name = name_len(text);
    if byte_at(text, name) != b';' {
        return None;
    }
    match entities.get(&text[..name]) {
        Some(referent) => Some(Reference {
            len: name + 2,
            referent: Referent::Text(referent),
        }),
        None => None,
    }
}

fn read_number(text: &str, front: usize, base: u32, most: usize) -> Option<Reference<'static>>
    requires least { 2 ≤ base }
    requires greatest { base ≤ 16 }
    requires few { most ≤ 7 }
    requires short { front ≤ 3 }
    ensures meaning { option_map meaning_of result ≡ numeric front base most text.now }
    ensures end { IfSome result (λ r. (front < r.len) × (slice_index text.now (r.len - front - 1) ≡ 59)) }
{
    let digits = digit_count(text, base);
    if !is_closed(text, digits, most) {
        return None;
    }
    let number = number(&text[..digits], base);
    Some(Reference {
        len: front + digits + 1,
        referent: Referent::Character(character_at(number)),
    })
}

fn is_closed(text: &str, digits: usize, most: usize) -> bool
    ensures { result ≡ is_closed digits most text.now }
{
    0 < digits && digits <= most && byte_at(text, digits) == b';'
}

fn number(digits: &str, base: u32) -> u32
    requires least { 2 ≤ base }
    requires greatest { base ≤ 16 }
    requires numeral { IsNumeral base digits.now }
    requires few { length digits.now ≤ 7 }
    ensures { result ≡ digits_value base digits.now }
{
    match u32::from_str_radix(digits, base) {
        Ok(number) => number,
        Err(_) => unreachable!(),
    }
}

// The character with a code point, or U+FFFD.
fn character_at(code: u32) -> char
    ensures { result ≡ character_at code }
{
    if code == 0 {
        return '\u{FFFD}';
    }
    char::from_u32(code).unwrap_or('\u{FFFD}')
}

// How many digits of a base stand at the front.
pub fn digit_count(text: &str, base: u32) -> usize
    requires least { 2 ≤ base }
    requires greatest { base ≤ 16 }
    ensures { result ≡ prefix_len (λ b. is_digit b base) text.now }
{
    for (i, byte) in text.as_bytes().iter().enumerate() {
        if !char::from(*byte).is_digit(base) {
            return i;
        }
    }
    text.len()
}

// How many letters and digits stand at the front.
pub fn name_len(text: &str) -> usize
    ensures { result ≡ prefix_len is_ascii_alphanumeric text.now }
{
    for (i, byte) in text.as_bytes().iter().enumerate() {
        if !byte.is_ascii_alphanumeric() {
            return i;
        }
    }
    text.len()
}

// The byte at a position, and 0 past the end.
pub fn byte_at(text: &str, at: usize) -> u8
    ensures { result ≡ slice_index text.now at }
{
    let bytes = text.as_bytes();
    if at < bytes.len() { bytes[at] } else { 0 }
}
