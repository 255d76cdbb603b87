//! Reads a file of definitions.
ghost use Rattle.std.specs.Prelude.{◌≡◌, ◌-◌, ◌^◌, ◌<◌, map, string_bytes};
ghost use Rattle.mdtool.specs.Convert.{LinesRead};
ghost use Rattle.mdtool.specs.Drained.{TakesSome};
ghost use Rattle.mdtool.specs.Steps.{Steps, failures_after};

use crate::converting::read_text;
use crate::device::Feed;
use crate::fault::ToolFault;
use mdtext::lines_of;
use std::alloc::Global;

/// The lines of all bytes that the feed has left, for a prelude. Bytes that are no UTF-8 are read as U+FFFD, and lines end as
/// CommonMark 2.1 says. Whether they are definitions is not looked at.
///
/// `Read` where the feed failed, `NoMemory` where a growth was refused; then some of its bytes may be gone.
pub fn prelude_from<R: Feed>(alloc: Global, feed: &mut R) -> Result<Vec<String>, ToolFault>
    requires { R.failures feed.old < 2 ^ 64 - 1 }
    ensures steps { Steps result
        (λ lines. LinesRead (R.left feed.old) (map string_bytes lines.items) (R.left feed.new))
        (TakesSome (R.left feed.old) (R.left feed.new))
        (TakesSome (R.left feed.old) (R.left feed.new)) }
    ensures failures { R.failures feed.new ≡ failures_after result (R.failures feed.old) }
{
    let text = read_text(alloc, feed)?;
    Ok(lines_of(alloc, &text)?)
}
