//! What the limits of a text are tested on; none of it takes memory.
ghost use Rattle.std.specs.Prelude.{◌≡◌, ◌-◌, ◌^◌, ◌≤◌, ◌+◌, false, length, map, min, nat_le, sum_by, string_bytes, true};
ghost use Rattle.std.specs.List.{list_any};
ghost use Rattle.mdtext.specs.Lines.{without_nul};
ghost use Rattle.mdsource.specs.SourceLimits.{first_with_ending, has_line_ending, has_special, size_of};

use mdtext::{Class, clean_len, first_special};

/// How many lines a text or a prelude may have.
pub const MAX_LINES: usize = 1_000_000;

/// How many bytes a text or a prelude may have, with one counted for each line's end.
pub const MAX_SIZE: usize = 16_777_216;

/// Whether no line ending and no U+0000 stands in any of the lines.
pub(crate) fn are_plain(lines: &[&str]) -> bool
    ensures { result ≡ true → list_any has_special (map (λ line. line.now) lines.now) ≡ false }
{
    for line in lines {
        if has_special(line) {
            return false;
        }
    }
    true
}

fn has_special(line: &str) -> bool
    ensures { result ≡ has_special line.now }
{
    let bytes = line.as_bytes();
    if !has_low_byte(bytes) {
        return false;
    }
    first_special(bytes, &Class::of(b"\0\n\r")) < bytes.len()
}

/// Whether one of the bytes is no greater than that of a carriage return. In most lines none is, and this compares many bytes at once.
fn has_low_byte(bytes: &[u8]) -> bool
    ensures { result ≡ list_any (λ byte. nat_le byte 13) bytes.now }
{
    let mut is_low = false;
    for byte in bytes {
        is_low |= *byte <= b'\r';
    }
    is_low
}

/// Whether a line ending stands in the line.
fn has_line_break(line: &str) -> bool
    ensures { result ≡ has_line_ending line.now }
{
    let bytes = line.as_bytes();
    first_special(bytes, &Class::of(b"\n\r")) < bytes.len()
}

/// The first line that holds a line ending.
pub(crate) fn first_line_break(lines: &[&str]) -> Option<usize>
    ensures { result ≡ first_with_ending 0 (map (λ line. line.now) lines.now) }
{
    for i in 0..lines.len() {
        if has_line_break(lines[i]) {
            return Some(i);
        }
    }
    None
}

/// The size of lines after NUL is replaced, up to the greatest number.
pub(crate) fn clean_size(lines: &[&str]) -> usize
    ensures { result ≡ min (size_of (map without_nul (map (λ line. line.now) lines.now))) (2 ^ 64 - 1) }
{
    let mut size: usize = 0;
    for line in lines {
        size = size.saturating_add(clean_len(line)).saturating_add(1);
    }
    size
}

/// The size of lines as they are, up to the greatest number.
pub(crate) fn plain_size(lines: &[&str]) -> usize
    ensures { result ≡ min (size_of (map (λ line. line.now) lines.now)) (2 ^ 64 - 1) }
{
    let mut size: usize = 0;
    for line in lines {
        size = size.saturating_add(line.len()).saturating_add(1);
    }
    size
}
