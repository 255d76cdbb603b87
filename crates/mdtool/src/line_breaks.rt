//! Where the lines of a script end.

ghost use Rattle.std.specs.Prelude.{◌≡◌, ◌+◌, ◌<◌, ◌≤◌, false, get_or, length, take, IfNone, IfOk, IfSome};
ghost use Rattle.std.specs.List.{list_any};
ghost use Rattle.mdtool.specs.Commands.{has_break};
ghost use Rattle.mdtool.specs.LineLengths.{AreLengths, cut};

use memchr::memchr;
use std::alloc::{AllocError, Global};

/// Where the first LF stands.
#[tactic(auto, using(crate::proofs::Searches::first_found, crate::proofs::Searches::none_found))]
#[inline(always)]
pub fn first_break(bytes: &[u8]) -> Option<usize>
    ensures some { IfSome result (λ at. (at < length bytes.now) × (get_or bytes.now at 0 ≡ 10) × (has_break (take at bytes.now) ≡ false)) }
    ensures none { IfNone result (has_break bytes.now ≡ false) }
{
    memchr(b'\n', bytes)
}

/// The lengths of the whole lines at the front of these bytes, of so many at most, and how many bytes they have with their LFs.
pub fn whole_lines(
    alloc: Global,
    bytes: &[u8],
    most: usize,
) -> Result<(Vec<usize>, usize), AllocError>
    ensures few { IfOk result (λ lines. length lines.0.items ≤ most) }
    ensures within { IfOk result (λ lines. lines.1 ≤ length bytes.now) }
    ensures lengths { IfOk result (λ lines. AreLengths lines.0.items (take lines.1 bytes.now)) }
    ensures unbroken { IfOk result (λ lines. list_any has_break (cut lines.0.items (take lines.1 bytes.now)) ≡ false) }
{
    let mut lens = Vec::new(alloc);
    let mut end = 0;
    while lens.len() < most {
        let Some(len) = first_break(&bytes[end..]) else {
            break;
        };
        lens.push(len)?;
        end += len + 1;
    }
    Ok((lens, end))
}
