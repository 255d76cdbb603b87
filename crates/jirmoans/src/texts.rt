//! Bytes from C as texts and lines.
ghost use Rattle.std.specs.Prelude.{◌≡◌, IfOk, MatchResult, map};
ghost use Rattle.std.specs.Str.{IsUtf8};
ghost use Rattle.mdtext.specs.Lines.{split_lines};
ghost use Rattle.jirmoans.specs.Refusals.{IsCut};

use crate::faults::Refusal;
use mdtext::{NoMemory, split_line};
use std::alloc::Global;
use std::str::from_utf8;

/// The bytes as a text.
pub fn text_of(bytes: &[u8]) -> Result<&str, Refusal>
    ensures { MatchResult result (λ text. (text.now ≡ bytes.now) × IsUtf8 bytes.now) (IsCut bytes.now) }
{
    match from_utf8(bytes) {
        Ok(text) => Ok(text),
        Err(error) => Err(Refusal::NotUtf8 {
            valid: error.valid_up_to(),
        }),
    }
}

/// The lines of a text, each lent where it lies (CommonMark 2.1).
pub fn lines_in(alloc: Global, text: &str) -> Result<Vec<&str>, NoMemory>
    ensures { IfOk result (λ lines. map (λ line. line.now) lines.items ≡ split_lines text.now) }
{
    let mut lines = Vec::new(alloc);
    let mut rest = text;
    while !rest.is_empty() {
        let (line, after) = split_line(rest);
        lines.push(line)?;
        rest = after;
    }
    Ok(lines)
}
