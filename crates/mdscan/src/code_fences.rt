//! Fences of code blocks.

ghost use Rattle.std.specs.Prelude.{◌≡◌, IfSome};
ghost use Rattle.std.specs.Str.{IsCharBoundary};
ghost use Rattle.mdscan.specs.CodeFence.{fence_length, fence_of, opening_backticks, opening_fence, is_closing_fence};
ghost use Rattle.mdscan.specs.Spans.{IsSpanOf};

use crate::byte_runs::{all_blank, holds, leading};
use crate::spans::{Span, trimmed};

/// A line that opens fenced code (CommonMark 4.5).
#[derive(Clone, Copy, Debug, PartialEq, Eq)]
pub struct FenceLine {
    /// The byte that the fence is made of: a backtick or `~`.
    pub mark: u8,
    /// How many of them it has: 3 or more.
    pub length: usize,
    /// The info string, without spaces and tabs around it; empty where there is none.
    pub info: Span,
}

/// The opening fence that the rest of a line is (CommonMark 4.5).
#[tactic(auto, unfolding(crate::specs::CodeFence::opening_fence))]
pub fn fence(rest: &str) -> Option<FenceLine>
    ensures line { result ≡ opening_fence rest.now }
    ensures info { IfSome result (λ line. IsSpanOf rest.now line.info) }
{
    let tildes = leading(rest.as_bytes(), b'~');
    if tildes >= 3 {
        Some(fence_line(rest, b'~', tildes))
    } else {
        backtick_fence(rest)
    }
}

/// The fence of backticks that a line is.
#[tactic(auto, unfolding(crate::specs::CodeFence::opening_backticks))]
fn backtick_fence(line: &str) -> Option<FenceLine>
    ensures line { result ≡ opening_backticks line.now }
    ensures info { IfSome result (λ fence. IsSpanOf line.now fence.info) }
{
    let bytes = line.as_bytes();
    let backticks = leading(bytes, b'`');
    if backticks >= 3 && !holds(&bytes[backticks..], b'`') {
        Some(fence_line(line, b'`', backticks))
    } else {
        None
    }
}

/// The parts of a line that begins with a fence of `run` marks.
fn fence_line(line: &str, mark: u8, run: usize) -> FenceLine
    requires run { run ≡ fence_length mark line.now }
    requires boundary { IsCharBoundary line.now run }
    ensures value { result ≡ fence_of mark line.now }
    ensures info { IsSpanOf line.now result.info }
{
    FenceLine {
        mark,
        length: run,
        info: trimmed(line, run),
    }
}

/// Whether the rest of a line closes fenced code that `length` of `mark` opened (CommonMark 4.5).
#[tactic(auto, unfolding(crate::specs::CodeFence::is_closing_fence))]
pub fn fence_end(rest: &str, mark: u8, length: usize) -> bool
    ensures { result ≡ is_closing_fence mark length rest.now }
{
    let line = rest.as_bytes();
    let run = leading(line, mark);
    run >= length && all_blank(&line[run..])
}
