//! Classes of characters, the first special one of a text, and the counter.

ghost use Rattle.std.specs.Prelude.{◌<◌, ◌≡◌, length};

use mdtext::{Class, Count, Tally, first_special, is_punct, is_white};
use std::process::Abort;

static WHITE: [char; 9] = [
    '\t', '\n', '\u{C}', '\r', ' ', '\u{A0}', '\u{1680}', '\u{2003}', '\u{3000}',
];

static NOT_WHITE: [char; 9] = [
    'a', '\u{B}', '\0', '\u{85}', '\u{200B}', '\u{2028}', '\u{2029}', '\u{FEFF}', '.',
];

#[test]
fn whitespace_is_zs_and_four_controls(rt: HostRuntime) {
    for &c in &WHITE {
        assert!(rt; is_white(c), "{c:?}");
    }
    for &c in &NOT_WHITE {
        assert!(rt; !is_white(c), "{c:?}");
    }
}

static PUNCTUATION: [char; 15] = [
    '!',
    '"',
    '$',
    '+',
    '<',
    '^',
    '`',
    '|',
    '~',
    '_',
    '\u{A3}',
    '\u{20AC}',
    '\u{2014}',
    '\u{3001}',
    '\u{1F600}',
];

static NO_PUNCTUATION: [char; 9] = [
    'a', '0', ' ', '\n', '\u{E4}', '\u{4E2D}', '\u{301}', '\u{200B}', '\0',
];

#[test]
fn punctuation_is_p_and_s(rt: HostRuntime) {
    for &c in &PUNCTUATION {
        assert!(rt; is_punct(c), "{c:?}");
    }
    for &c in &NO_PUNCTUATION {
        assert!(rt; !is_punct(c), "{c:?}");
    }
}

/// The place of the first of these bytes in a text, if a class can have so many.
fn first_of(text: &[u8], members: &[u8]) -> Option<usize> {
    if members.len() > 16 {
        return None;
    }
    Some(first_special(text, &Class::of(members)))
}

static FIRST_PLACES: [(&str, &str, usize); 5] = [
    ("", "&<", 0),
    ("abc", "&<", 3),
    ("a<&", "&<", 1),
    ("a<&", "", 3),
    ("xyz0", "0123456789abcdef", 3),
];

#[test]
fn first_special_byte(rt: HostRuntime) {
    for &(text, members, want) in &FIRST_PLACES {
        let place = first_of(text.as_bytes(), members.as_bytes());
        assert!(rt; place == Some(want), "{text:?}");
    }
}

/// Where the one special byte of a text of letters is found.
fn found_in(text: &mut [u8], place: usize, class: &Class) -> usize
    requires { place < length text.old }
    ensures { length text.new ≡ length text.old }
{
    text[place] = b'<';
    let found = first_special(text, class);
    text[place] = b'a';
    found
}

/// A special byte at each place of a text of letters.
fn check_places(rt: &impl Abort, text: &mut [u8], class: &Class) {
    assert_eq!(rt; first_special(text, class), text.len());
    for place in 0..text.len() {
        assert_eq!(rt; found_in(text, place, class), place);
    }
}

#[test]
fn first_special_at_each_place(rt: HostRuntime) {
    let class = Class::of(b"&<>\"");
    let mut bytes = [b'a'; 100];
    for len in 0..101 {
        check_places(&rt, &mut bytes[..len], &class);
    }
}

#[test]
fn tally_counts_each_by_itself(rt: HostRuntime) {
    let mut tally = Tally::new();
    tally.line();
    tally.line();
    tally.inline();
    assert_eq!(rt; tally.lines(), 2);
    assert_eq!(rt; tally.inlines(), 1);
}
