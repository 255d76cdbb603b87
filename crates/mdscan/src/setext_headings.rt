//! Underlines of setext headings.

ghost use Rattle.std.specs.Prelude.{◌≡◌};
ghost use Rattle.mdscan.specs.SetextHeading.{is_run_of, underline_level};

use crate::byte_runs::{all_blank, leading};

/// The level of the heading that the rest of a line underlines, 1 or 2 (CommonMark 4.3).
#[tactic(auto, unfolding(crate::specs::SetextHeading::underline_level))]
pub fn setext(rest: &str) -> Option<u8>
    ensures { result ≡ underline_level rest.now }
{
    let line = rest.as_bytes();
    if is_run(line, b'=') {
        Some(1)
    } else if is_run(line, b'-') {
        Some(2)
    } else {
        None
    }
}

/// Whether a line is a run of `mark`, and then only spaces and tabs.
#[tactic(auto, unfolding(crate::specs::SetextHeading::is_run_of))]
fn is_run(line: &[u8], mark: u8) -> bool
    ensures { result ≡ is_run_of mark line.now }
{
    let run = leading(line, mark);
    run > 0 && all_blank(&line[run..])
}
