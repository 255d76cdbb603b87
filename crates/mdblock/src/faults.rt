//! Why a line is not read.

ghost use Rattle.std.specs.Prelude.{◌≡◌};

use std::alloc::{AllocError, AllocFailed};
use thiserror::Error;

/// Why a line is not read.
#[derive(Clone, Copy, Debug, Drop, Error, PartialEq, Eq)]
pub enum BlockFault {
    /// A container begins that lies in more others than the limit allows.
    #[error("a container of the line lies in too many others")]
    NestedTooDeep,
    /// A growth was refused.
    #[error("no memory")]
    NoMemory,
    /// An earlier line had a fault.
    #[error("an earlier line was not read")]
    Failed,
}

/// Why a line is not read where no earlier one had a fault.
#[derive(Clone, Copy, Drop)]
pub(crate) enum LineFault {
    /// A container begins that lies in more others than the limit allows.
    TooDeep,
    /// A growth was refused.
    NoMemory,
}

impl LineFault {
    /// The fault as a reader tells it.
    pub(crate) fn told(self) -> BlockFault
        ensures deep { result ≡ BlockFault.NestedTooDeep → self ≡ LineFault.TooDeep }
        ensures too_deep { self ≡ LineFault.TooDeep → result ≡ BlockFault.NestedTooDeep }
        ensures going { result ≡ BlockFault.Failed → ⊥ }
    {
        match self {
            LineFault::TooDeep => BlockFault::NestedTooDeep,
            LineFault::NoMemory => BlockFault::NoMemory,
        }
    }
}

impl From<AllocError> for LineFault {
    ghost use Rattle.mdblock.specs.declared.faults.LineFault.TheVariants.{NoMemory};

    ghost from_gives = { λ _ fault. fault ≡ NoMemory };

    fn from(_fault: AllocError) -> LineFault {
        LineFault::NoMemory
    }
}

impl<T: Drop> From<AllocFailed<T>> for LineFault {
    ghost use Rattle.mdblock.specs.declared.faults.LineFault.TheVariants.{NoMemory};

    ghost from_gives = { λ _ fault. fault ≡ NoMemory };

    fn from(_fault: AllocFailed<T>) -> LineFault {
        LineFault::NoMemory
    }
}

impl From<AllocError> for BlockFault {
    ghost use Rattle.mdblock.specs.declared.faults.BlockFault.TheVariants.{NoMemory};

    ghost from_gives = { λ _ fault. fault ≡ NoMemory };

    fn from(_fault: AllocError) -> BlockFault {
        BlockFault::NoMemory
    }
}

impl<T: Drop> From<AllocFailed<T>> for BlockFault {
    ghost use Rattle.mdblock.specs.declared.faults.BlockFault.TheVariants.{NoMemory};

    ghost from_gives = { λ _ fault. fault ≡ NoMemory };

    fn from(_fault: AllocFailed<T>) -> BlockFault {
        BlockFault::NoMemory
    }
}
