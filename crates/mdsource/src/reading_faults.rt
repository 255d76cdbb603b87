//! Why a text is refused that can't be read.

ghost use Rattle.std.specs.Prelude.{◌≡◌};
ghost use Rattle.mdsource.specs.BlockFaults.{OfBlocks, block_fault_in};
ghost use Rattle.mdsource.specs.TextFaults.{text_fault_in};

use crate::fault::EditFault;
use mdblock::BlockFault;
use mdinline::InlineFault;

/// Why a text is refused whose reading of blocks ends so in the line of this number. No line is fed after a fault, so none is answered `Failed`.
pub fn fault_in_line(fault: BlockFault, line: usize) -> EditFault
    ensures reading { OfBlocks result }
    ensures value { result ≡ block_fault_in fault line }
{
    match fault {
        BlockFault::NestedTooDeep => EditFault::NestedTooDeep { line },
        BlockFault::NoMemory | BlockFault::Failed => EditFault::NoMemory,
    }
}

/// Why a text is refused where the reading of an inline text ends so, of the unit that begins in this line.
pub fn fault_in_unit(fault: InlineFault, begin: usize) -> EditFault
    ensures { result ≡ text_fault_in fault begin }
{
    match fault {
        InlineFault::TooDeep => EditFault::InlineTooDeep { line: begin },
        InlineFault::NoMemory => EditFault::NoMemory,
    }
}
