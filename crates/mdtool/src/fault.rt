//! Why an engine stopped, why a program stops.

ghost use Rattle.std.specs.Prelude.{◌≡◌};
ghost use Rattle.mdtool.specs.declared.fault.ToolFault.TheVariants.{NoMemory};

use mdtext::TableFault;
use mdview::EditFault;
use mdwords::WordFault;
use std::alloc::{AllocError, AllocFailed};
use thiserror::Error;

/// Why an engine stopped.
#[derive(Debug, Drop, Error)]
pub enum ToolFault {
    /// The feed failed.
    #[error("read failed")]
    Read,
    /// The out failed.
    #[error("write failed")]
    Write,
    /// The whole text was refused, or the prelude.
    #[error("{0}")]
    Refused(EditFault),
    /// The line of the script, counted from 1, is no command.
    #[error("bad command in line {0}")]
    BadCommand(u64),
    /// The script ends inside the edit or the prelude that begins in this line, counted from 1.
    #[error("script ends inside the edit of line {0}")]
    Truncated(u64),
    /// The entity file was refused.
    #[error("entity file refused")]
    Table(TableFault),
    /// A growth was refused.
    #[error("no memory")]
    NoMemory,
}

impl From<AllocError> for ToolFault {
    ghost from_gives = { λ _ e. e ≡ NoMemory };

    fn from(_error: AllocError) -> ToolFault {
        ToolFault::NoMemory
    }
}

impl<T: Drop> From<AllocFailed<T>> for ToolFault {
    ghost from_gives = { λ _ e. e ≡ NoMemory };

    fn from(_error: AllocFailed<T>) -> ToolFault {
        ToolFault::NoMemory
    }
}

/// Why a program stopped before its end.
#[derive(Debug, Drop, Error)]
pub enum Stop {
    /// By its words.
    #[error("{0}")]
    Words(WordFault),
    /// The file of this name could not be opened.
    #[error("cannot open {0}")]
    NotOpened(String),
    /// By an engine.
    #[error("{0}")]
    Tool(ToolFault),
}
