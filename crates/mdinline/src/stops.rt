//! Where plain text ends.

ghost use Rattle.std.specs.Prelude.{◌≡◌, ◌+◌, ◌<◌, ◌≤◌, true, length, map, slice_index, slice_range};
ghost use Rattle.std.specs.List.{position_or_len};
ghost use Rattle.std.specs.Simd.Lanes.{mask_l};
ghost use Rattle.mdinline.specs.held.PlainText.{is_stop};
ghost use Rattle.mdinline.specs.held.StopTables.{high_of, low_of};

use std::simd::prelude::*;

/// The rows of sixteen characters that hold a stop, a bit each, by the upper four bits of a byte: 1 is the row of LF, 2 that of the space to `/`,
/// 4 of `0` to `?`, 8 of `P` to `_`, 16 of the backtick to `o`, 32 of `p` to DEL.
const ROWS: [u8; 16] = [1, 0, 2, 4, 0, 8, 16, 32, 0, 0, 0, 0, 0, 0, 0, 0];

/// The rows in which a byte with these lower four bits is a stop. In this order: the backtick; `!`; `"`; `&`; LF and `*`; `[`; `<` and the backslash; `]`;
/// `>` and `~`; `_`.
const STOPS: [u8; 16] = [16, 2, 2, 0, 0, 0, 2, 0, 0, 0, 3, 8, 12, 8, 36, 8];

/// The first place of a byte that may be no plain text, or the length. Blocks of 16 bytes are looked up at once, and the rest byte by byte.
pub(crate) fn first_stop(text: &[u8]) -> usize
    ensures within { result ≤ length text.now }
    ensures mark { result < length text.now → slice_index text.now result < 128 }
    ensures value { result ≡ position_or_len is_stop text.now }
{
    let len = text.len();
    let mut at = 0;
    while len - at >= 16 {
        let stop = first_in_block(text, at);
        if stop < 16 {
            return at + stop;
        }
        at += 16;
    }
    at + stop_by_bytes(&text[at..])
}

/// The first stop among the 16 bytes from a place on, or 16. It is inlined, as all that it calls, so that the 16 bytes stay in a register.
#[inline(always)]
fn first_in_block(text: &[u8], at: usize) -> usize
    requires { at + 16 ≤ length text.now }
    ensures { result ≡ position_or_len is_stop (slice_range text.now at (at + 16)) }
{
    let stops = stops_in(u8x16::from_slice(&text[at..]));
    if stops == 0 {
        16
    } else {
        stops.trailing_zeros() as usize
    }
}

/// Bit k is set where byte k is a stop: where its row is among those in which its lower bits make a stop. Inlined, as `first_in_block`.
#[inline(always)]
fn stops_in(block: u8x16) -> u64
    ensures { result ≡ mask_l (map is_stop block) }
{
    let found = by_low(block) & by_high(block);
    found.simd_ne(u8x16::splat(0)).to_bitmask()
}

/// The rows in which each byte is a stop by its lower four bits. Inlined, as `first_in_block`.
#[inline(always)]
fn by_low(block: u8x16) -> u8x16
    ensures { result ≡ map low_of block }
{
    u8x16::from_array(STOPS).swizzle_dyn_within::<16>(block & u8x16::splat(15))
}

/// The row of each byte, by its upper four bits. Inlined, as `first_in_block`.
#[inline(always)]
fn by_high(block: u8x16) -> u8x16
    ensures { result ≡ map high_of block }
{
    u8x16::from_array(ROWS).swizzle_dyn_within::<16>(block >> u8x16::splat(4))
}

fn stop_by_bytes(text: &[u8]) -> usize
    ensures within { result ≤ length text.now }
    ensures mark { result < length text.now → slice_index text.now result < 128 }
    ensures value { result ≡ position_or_len is_stop text.now }
{
    for (i, byte) in text.iter().enumerate() {
        if is_stop(*byte) {
            return i;
        }
    }
    text.len()
}

/// Whether something may begin at a byte that is not plain text; most bytes are small letters, which one test leaves.
pub(crate) fn is_stop(byte: u8) -> bool
    ensures ascii { result ≡ true → byte < 128 }
    ensures value { result ≡ is_stop byte }
{
    !byte.is_ascii_lowercase()
        && matches!(
            byte,
            b'\n'
                | b'!'
                | b'"'
                | b'&'
                | b'*'
                | b'<'
                | b'>'
                | b'['
                | b'\\'
                | b']'
                | b'_'
                | b'`'
                | b'~'
        )
}
