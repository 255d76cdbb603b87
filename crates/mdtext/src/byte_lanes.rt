//! The first place of one of many bytes: 32 places at a time, 16 where there are fewer, and one by one where there are fewer than 16.

ghost use Rattle.std.specs.Prelude.{◌≡◌, ◌≤◌, ◌+◌, ◌==◌, length, map, slice_range};
ghost use Rattle.std.specs.List.{position_or_len};
ghost use Rattle.std.specs.Simd.Lanes.{mask_l};
ghost use Rattle.mdtext.specs.ByteClass.{in_class};

use std::simd::prelude::*;

/// The first position of one of these bytes, or the length.
#[inline(always)]
pub(crate) fn first_of_many(bytes: &[u8], class: &[u8]) -> usize
    ensures { result ≡ position_or_len (in_class class.now) bytes.now }
{
    let len = bytes.len();
    let mut at = 0;
    while len - at >= 32 {
        let stop = first_in_block(bytes, at, class);
        if stop < 32 {
            return at + stop;
        }
        at += 32;
    }
    if len < 32 {
        return first_of_few(bytes, class);
    }
    // The last block begins among bytes that were looked at, none of which is in the class.
    len - 32 + first_in_block(bytes, len - 32, class)
}

#[inline(always)]
fn first_in_block(bytes: &[u8], at: usize, class: &[u8]) -> usize
    requires { at + 32 ≤ length bytes.now }
    ensures { result ≡ position_or_len (in_class class.now) (slice_range bytes.now at (at + 32)) }
{
    let marks = marks(u8x32::from_slice(&bytes[at..]), class);
    if marks == 0 {
        32
    } else {
        marks.trailing_zeros() as usize
    }
}

/// Bit k is set where byte k is in the class.
#[inline(always)]
fn marks(block: u8x32, class: &[u8]) -> u64
    requires { length block ≡ 32 }
    ensures { result ≡ mask_l (map (in_class class.now) block) }
{
    let mut marks = 0;
    for byte in class {
        marks |= equal(block, *byte);
    }
    marks
}

#[inline(always)]
fn equal(block: u8x32, byte: u8) -> u64
    requires { length block ≡ 32 }
    ensures { result ≡ mask_l (map (λ x. x == byte) block) }
{
    block.simd_eq(u8x32::splat(byte)).to_bitmask()
}

/// The first position of a byte of the class among at most 32, or their number. The first 16 are looked at together, then the last 16; where there are fewer than 16,
/// one after the other.
#[inline(always)]
fn first_of_few(bytes: &[u8], class: &[u8]) -> usize
    requires { length bytes.now ≤ 32 }
    ensures { result ≡ position_or_len (in_class class.now) bytes.now }
{
    let len = bytes.len();
    if len < 16 {
        return first_by_bytes(bytes, class);
    }
    let stop = first_in_half(bytes, 0, class);
    if stop < 16 {
        return stop;
    }
    len - 16 + first_in_half(bytes, len - 16, class)
}

#[inline(always)]
fn first_in_half(bytes: &[u8], at: usize, class: &[u8]) -> usize
    requires { at + 16 ≤ length bytes.now }
    ensures { result ≡ position_or_len (in_class class.now) (slice_range bytes.now at (at + 16)) }
{
    let marks = half_marks(u8x16::from_slice(&bytes[at..]), class);
    if marks == 0 {
        16
    } else {
        marks.trailing_zeros() as usize
    }
}

#[inline(always)]
fn half_marks(block: u8x16, class: &[u8]) -> u64
    requires { length block ≡ 16 }
    ensures { result ≡ mask_l (map (in_class class.now) block) }
{
    let mut marks = 0;
    for byte in class {
        marks |= half_equal(block, *byte);
    }
    marks
}

#[inline(always)]
fn half_equal(block: u8x16, byte: u8) -> u64
    requires { length block ≡ 16 }
    ensures { result ≡ mask_l (map (λ x. x == byte) block) }
{
    block.simd_eq(u8x16::splat(byte)).to_bitmask()
}

#[inline(always)]
fn first_by_bytes(bytes: &[u8], class: &[u8]) -> usize
    ensures { result ≡ position_or_len (in_class class.now) bytes.now }
{
    for (i, byte) in bytes.iter().enumerate() {
        if is_in(class, *byte) {
            return i;
        }
    }
    bytes.len()
}

#[inline(always)]
fn is_in(class: &[u8], byte: u8) -> bool
    ensures { result ≡ in_class class.now byte }
{
    class.iter().any(|one| byte == *one)
}
