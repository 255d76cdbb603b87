//! Why a text is not read.

ghost use Rattle.std.specs.Prelude.{◌≡◌};
ghost use Rattle.mdinline.specs.declared.faults.InlineFault.TheVariants.{NoMemory};

use std::alloc::{AllocError, AllocFailed};
use thiserror::Error;

/// Why a text is not read.
#[derive(Clone, Copy, Debug, Drop, Error, PartialEq, Eq)]
pub enum InlineFault {
    /// More spans lie in one another than the limit allows.
    #[error("a span of the text lies in too many others")]
    TooDeep,
    /// A growth was refused.
    #[error("no memory")]
    NoMemory,
}

impl From<AllocError> for InlineFault {
    ghost from_gives = { λ _ fault. fault ≡ NoMemory };

    fn from(_fault: AllocError) -> InlineFault {
        InlineFault::NoMemory
    }
}

impl<T: Drop> From<AllocFailed<T>> for InlineFault {
    ghost from_gives = { λ _ fault. fault ≡ NoMemory };

    fn from(_fault: AllocFailed<T>) -> InlineFault {
        InlineFault::NoMemory
    }
}
