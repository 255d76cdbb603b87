//! Markers of list items.

ghost use Rattle.std.specs.Prelude.{◌≡◌, ◌<◌, ◌≤◌, ◌^◌, IfSome, length};
ghost use Rattle.std.specs.Str.Parse.{AllDigits, digits_value};
ghost use Rattle.mdscan.specs.ListMarker.{marker, ordered_marker};

use crate::byte_runs::{begins, blank_follows, leading_digits};

/// A list marker (CommonMark 5.2).
#[derive(Clone, Copy, Debug, PartialEq, Eq)]
pub struct Marker {
    /// The bullet, `-`, `+` or `*`, or the delimiter after the number, `.` or `)`.
    pub mark: u8,
    /// The number of an ordered one, of 1 to 9 digits.
    pub start: Option<u32>,
    /// How many bytes it has, without the spaces behind it.
    pub width: usize,
}

/// The list marker that the rest of a line begins with (CommonMark 5.2).
#[tactic(auto, unfolding(crate::specs::ListMarker::marker))]
pub fn list_marker(rest: &str) -> Option<Marker>
    ensures marker { result ≡ marker rest.now }
    ensures width { IfSome result (λ marker. marker.width ≤ length rest.now) }
{
    let line = rest.as_bytes();
    let bullet = begins(line, b'-') || begins(line, b'+') || begins(line, b'*');
    if bullet && blank_follows(&line[1..]) {
        Some(Marker {
            mark: line[0],
            start: None,
            width: 1,
        })
    } else {
        ordered(line)
    }
}

/// The ordered list marker that a line begins with.
#[tactic(auto, unfolding(crate::specs::ListMarker::ordered_marker))]
fn ordered(line: &[u8]) -> Option<Marker>
    ensures marker { result ≡ ordered_marker line.now }
    ensures width { IfSome result (λ marker. marker.width ≤ length line.now) }
{
    let digits = leading_digits(line);
    if digits == 0 || digits > 9 {
        return None;
    }
    let after = &line[digits..];
    if (begins(after, b'.') || begins(after, b')')) && blank_follows(&line[digits + 1..]) {
        Some(Marker {
            mark: line[digits],
            start: Some(number(&line[..digits])),
            width: digits + 1,
        })
    } else {
        None
    }
}

/// The number that at most nine digits stand for.
fn number(digits: &[u8]) -> u32
    requires digits { AllDigits 10 digits.now }
    requires few { length digits.now ≤ 9 }
    ensures { result ≡ digits_value 10 digits.now }
{
    let mut value = 0;
    for digit in digits {
        value = value * 10 + u32::from(*digit - b'0');
    }
    value
}
