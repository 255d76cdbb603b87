//! Backslash escapes, and the bytes up to a stop.

ghost use Rattle.std.specs.Prelude.{◌≡◌, ◌≤◌, ◌&&◌, not, length};
ghost use Rattle.mdscan.specs.BackslashEscapes.{begins_escape, is_one_of, run_before};

use crate::byte_runs::holds;

/// Whether a text begins with a backslash before ASCII punctuation.
pub(crate) fn escape(text: &[u8]) -> bool
    ensures { result ≡ begins_escape text.now }
{
    match text {
        [b'\\', next, ..] => next.is_ascii_punctuation(),
        _ => false,
    }
}

/// Whether a byte is one of the stops, and not escaped.
fn stops_here(escaped: bool, stops: &[u8], byte: u8) -> bool
    ensures { result ≡ (not escaped && is_one_of stops.now byte) }
{
    !escaped && holds(stops, byte)
}

/// Whether the first byte of a text escapes the next; an escaped one does not.
fn escapes_next(escaped: bool, text: &[u8]) -> bool
    ensures { result ≡ (not escaped && begins_escape text.now) }
{
    !escaped && escape(text)
}

/// How many bytes stand before the first of the stops that is not escaped, or in all.
#[tactic(auto, unfolding(crate::specs::BackslashEscapes::run_before))]
pub(crate) fn before(text: &[u8], stops: &[u8]) -> usize
    ensures value { result ≡ run_before stops.now text.now }
    ensures within { result ≤ length text.now }
{
    let mut escaped = false;
    for at in 0..text.len() {
        if stops_here(escaped, stops, text[at]) {
            return at;
        }
        escaped = escapes_next(escaped, &text[at..]);
    }
    text.len()
}
