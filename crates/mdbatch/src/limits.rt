//! The limits on the lines and bytes of a whole text.
ghost use Rattle.std.specs.Prelude.{◌≡◌, ◌+◌, ◌*◌, ◌≤◌, IfErr, IsTrue, OnOk, Some, None, map};
ghost use Rattle.mdtext.specs.Lines.{split_lines, without_nul};
ghost use Rattle.mdsource.specs.SourceLimits.{refusal};

use mdsource::{EditFault, MAX_LINES, MAX_SIZE};
use mdtext::{clean_len, split_line};

/// Refuses a text of more than 1,000,000 lines, or else of more than 16,777,216 bytes, with one counted for each line's end, and U+FFFD standing for each U+0000.
/// Takes no memory.
pub(crate) fn within_limits(text: &str) -> Result<(), EditFault>
    ensures within { OnOk result (refusal (map without_nul (split_lines text.now)) ≡ None) }
    ensures beyond { IfErr result (λ fault. refusal (map without_nul (split_lines text.now)) ≡ Some fault) }
{
    let mut lines: usize = 0;
    let mut size: usize = 0;
    let mut rest = text;
    while !rest.is_empty() {
        if stays_within(lines, size, rest.len()) {
            return Ok(());
        }
        let (line, after) = split_line(rest);
        lines = lines.saturating_add(1);
        size = size.saturating_add(clean_len(line)).saturating_add(1);
        rest = after;
    }
    if lines > MAX_LINES {
        return Err(EditFault::TooManyLines);
    }
    if size > MAX_SIZE {
        return Err(EditFault::TooLarge);
    }
    Ok(())
}

/// Whether no rest of so many bytes brings the lines and bytes before it beyond the limits: it has no more lines than bytes, and a byte stands for at
/// most three.
fn stays_within(lines: usize, size: usize, left: usize) -> bool
    ensures lines { IsTrue result → lines + left ≤ 1000000 }
    ensures bytes { IsTrue result → size + 3 * left + 1 ≤ 16777216 }
{
    left < MAX_LINES && lines <= MAX_LINES - left && size < MAX_SIZE - 3 * left
}
