//! Reads a feed to its end.
ghost use Rattle.std.specs.Prelude.{◌≡◌, ◌-◌, ◌^◌, ◌<◌};
ghost use Rattle.mdtool.specs.Drained.{TakesAll, TakesSome};
ghost use Rattle.mdtool.specs.Steps.{Steps, failures_after};

use crate::device::Feed;
use crate::fault::ToolFault;
use std::alloc::Global;

const CHUNK: usize = 16384;

/// All bytes that the feed has left.
pub fn read_all<R: Feed>(alloc: Global, feed: &mut R) -> Result<Vec<u8>, ToolFault>
    requires { R.failures feed.old < 2 ^ 64 - 1 }
    ensures steps { Steps result
        (λ bytes. TakesAll (R.left feed.old) bytes.items (R.left feed.new))
        (TakesSome (R.left feed.old) (R.left feed.new))
        (TakesSome (R.left feed.old) (R.left feed.new)) }
    ensures failures { R.failures feed.new ≡ failures_after result (R.failures feed.old) }
{
    let mut bytes = Vec::new(alloc);
    let mut chunk = [0; CHUNK];
    loop {
        let Ok(count) = feed.get(&mut chunk) else {
            return Err(ToolFault::Read);
        };
        if count == 0 {
            return Ok(bytes);
        }
        if bytes.extend_from_slice(&chunk[..count]).is_err() {
            return Err(ToolFault::NoMemory);
        }
    }
}
