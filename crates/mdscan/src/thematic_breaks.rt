//! Thematic breaks.

ghost use Rattle.std.specs.Prelude.{◌≡◌};
ghost use Rattle.mdscan.specs.ThematicBreak.{is_break_of, is_thematic_break};

use crate::byte_runs::{begins, blank};

/// Whether the rest of a line is a thematic break (CommonMark 4.1).
#[tactic(auto, unfolding(crate::specs::ThematicBreak::is_thematic_break))]
pub fn thematic(rest: &str) -> bool
    ensures { result ≡ is_thematic_break rest.now }
{
    let line = rest.as_bytes();
    is_break(line, b'*') || is_break(line, b'-') || is_break(line, b'_')
}

/// Whether a line begins with `mark`, has three of it, and beside it only spaces and tabs.
#[tactic(auto, unfolding(crate::specs::ThematicBreak::is_break_of))]
fn is_break(line: &[u8], mark: u8) -> bool
    ensures { result ≡ is_break_of mark line.now }
{
    if !begins(line, mark) {
        return false;
    }
    let mut marks: usize = 0;
    for byte in line {
        if *byte == mark {
            marks += 1;
        } else if !blank(*byte) {
            return false;
        }
    }
    marks >= 3
}
