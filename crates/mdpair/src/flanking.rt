//! The delimiter run at a place of a text, and what it can do there (CommonMark 6.2).

ghost use Rattle.std.specs.Prelude.{◌≡◌, ◌+◌, ◌-◌, ◌<◌, ◌≤◌, IfSome, Some, length, drop, slice_get};
ghost use Rattle.std.specs.Str.{chars, IsCharBoundary};
ghost use Rattle.std.specs.Option.{option_and_then};
ghost use Rattle.mdpair.specs.Flanks.{bounds, flanks, is_ascii_white, neighbour_at};
ghost use Rattle.mdpair.specs.Neighbours.{run_between, char_before, char_after, delimiter_of, byte_of, run_length, run_at};

use crate::delimiter_runs::{DelimiterChar, DelimiterRun};
use mdtext::{is_punct, is_white};

/// The delimiter run that begins at the byte `at` of an inline text, or none where no delimiter character stands there.
///
/// Its neighbours are the characters as they are written, before escapes and references; the beginning and the end of the text count as
/// whitespace. Three or more tildes can neither open nor close. Takes no memory. It is inlined, so that the run is not handed back in memory.
#[inline(always)]
#[tactic(auto, unfolding(crate::specs::Neighbours::run_at))]
pub fn delimiter_run(text: &str, at: usize) -> Option<DelimiterRun>
    ensures value { result ≡ run_at text.now at }
    ensures some { IfSome result (λ run. 0 < run.length) }
    ensures within { IfSome result (λ run. at + run.length ≤ length text.now) }
    ensures boundary { IfSome result (λ run. IsCharBoundary text.now (at + run.length)) }
{
    let bytes = text.as_bytes();
    let delimiter = delimiter_at(bytes, at)?;
    let length = length_of(delimiter, &bytes[at..]);
    let before = last_char(&text[..at]);
    let after = first_char(&text[at + length..]);
    Some(run_between(delimiter, length, before, after))
}

/// A run of `length` such characters between its neighbours.
#[tactic(auto, using(crate::proofs::Flanks::opens_as, crate::proofs::Flanks::closes_as))]
fn run_between(
    delimiter: DelimiterChar,
    length: usize,
    before: Option<char>,
    after: Option<char>,
) -> DelimiterRun
    ensures value { result ≡ run_between delimiter length before after }
    ensures length { result.length ≡ length }
{
    let before = neighbour_of(before);
    let after = neighbour_of(after);
    DelimiterRun {
        delimiter,
        length,
        can_open: can_bound(delimiter, length, before, after),
        can_close: can_bound(delimiter, length, after, before),
    }
}

/// The delimiter character that stands at a byte.
fn delimiter_at(bytes: &[u8], at: usize) -> Option<DelimiterChar>
    ensures { result ≡ option_and_then delimiter_of (slice_get bytes.now at) }
{
    match *bytes.get(at)? {
        b'*' => Some(DelimiterChar::Asterisk),
        b'_' => Some(DelimiterChar::Underscore),
        b'~' => Some(DelimiterChar::Tilde),
        _ => None,
    }
}

/// How many of these delimiter characters stand in a row.
fn length_of(delimiter: DelimiterChar, rest: &[u8]) -> usize
    ensures value { result ≡ run_length delimiter rest.now }
    ensures bound { result ≤ length rest.now }
{
    let mark = byte_of(delimiter);
    rest.iter().take_while(|b| **b == mark).count()
}

fn byte_of(delimiter: DelimiterChar) -> u8
    ensures { result ≡ byte_of delimiter }
{
    match delimiter {
        DelimiterChar::Asterisk => b'*',
        DelimiterChar::Underscore => b'_',
        DelimiterChar::Tilde => b'~',
    }
}

fn first_char(rest: &str) -> Option<char>
    ensures { result ≡ slice_get (chars rest.now) 0 }
{
    rest.chars().next()
}

fn last_char(front: &str) -> Option<char>
    ensures { result ≡ slice_get (chars front.now) (length (chars front.now) - 1) }
{
    front.chars().next_back()
}

/// What the neighbour of a run is, as far as it matters there.
#[derive(Clone, Copy, Drop)]
pub(crate) struct Neighbour {
    /// Whether it is Unicode whitespace; one beyond the text's ends is.
    pub is_white: bool,
    /// Whether it is Unicode punctuation.
    pub is_punct: bool,
}

/// A neighbour is asked once for what it is; most are ASCII, of which no table is read.
fn neighbour_of(character: Option<char>) -> Neighbour
    ensures { result ≡ neighbour_at character }
{
    match character {
        Some(c) if c.is_ascii() => ascii_neighbour(c),
        Some(c) => Neighbour {
            is_white: is_white(c),
            is_punct: is_punct(c),
        },
        None => Neighbour {
            is_white: true,
            is_punct: false,
        },
    }
}

#[tactic(auto, using(crate::proofs::AsciiNeighbours::ascii_white, crate::proofs::AsciiNeighbours::ascii_punct))]
fn ascii_neighbour(c: char) -> Neighbour
    requires { c < 128 }
    ensures { result ≡ neighbour_at (Some c) }
{
    Neighbour {
        is_white: is_ascii_white(c),
        is_punct: c.is_ascii_punctuation(),
    }
}

fn is_ascii_white(c: char) -> bool
    ensures { result ≡ is_ascii_white c }
{
    c == ' ' || c == '\t' || c == '\n' || c == '\u{C}' || c == '\r'
}

/// Whether a run of `length` such characters can bound emphasis, with these neighbours outside of it and inside. An opener's inside follows it (rules 1, 2,
/// 5 and 6); a closer's stands before it (rules 3, 4, 7 and 8, which are the same read from the right).
fn can_bound(delimiter: DelimiterChar, length: usize, outside: Neighbour, inside: Neighbour) -> bool
    ensures { result ≡ bounds delimiter length outside inside }
{
    let flanks = is_flanking(outside, inside);
    match delimiter {
        DelimiterChar::Asterisk => flanks,
        DelimiterChar::Underscore => flanks && (!is_flanking(inside, outside) || outside.is_punct),
        DelimiterChar::Tilde => flanks && length < 3,
    }
}

/// Whether a run is flanking on its inside: an opener left-flanking, a closer right-flanking.
fn is_flanking(outside: Neighbour, inside: Neighbour) -> bool
    ensures { result ≡ flanks outside inside }
{
    !inside.is_white && (!inside.is_punct || outside.is_white || outside.is_punct)
}
