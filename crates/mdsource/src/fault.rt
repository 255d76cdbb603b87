//! Why an edit, a new prelude or a whole text is refused.

ghost use Rattle.std.specs.Prelude.{◌≡◌};
ghost use Rattle.mdsource.specs.declared.fault.EditFault.TheVariants.{NoMemory};
ghost use Rattle.mdsource.specs.FaultNames.{name_of, number_of};
ghost use Rattle.mdsource.specs.FaultReasons.{reason_of};

use std::alloc::{AllocError, AllocFailed};
use thiserror::Error;

/// Why an edit, a new prelude or a whole text was refused. Nothing has changed then.
#[derive(Clone, Copy, Debug, PartialEq, Eq, Error)]
pub enum EditFault {
    /// The edit reaches past the text, which has this many lines.
    #[error("the edit reaches past the text, which has {lines} lines")]
    OutOfRange { lines: usize },
    /// The added line of this index, counted from 0, holds LF or CR; it is the first such.
    #[error("the added line {index} holds a line ending")]
    BreakInLine { index: usize },
    /// The text would have more than 1,000,000 lines.
    #[error("the text is refused: it has more than 1,000,000 lines")]
    TooManyLines,
    /// The text would have more than 16,777,216 bytes, with one counted for each line's end.
    #[error("the text is refused: it has more than 16,777,216 bytes")]
    TooLarge,
    /// The line of this number, counted from 0 in the text that the edit would leave, begins a container that lies in as
    /// many others as the options allow; it is the first such.
    #[error("the text is refused: a container in line {line} lies in too many others")]
    NestedTooDeep { line: usize },
    /// A text of the unit that begins in this line has a span that lies in as many others as the
    /// options allow; it is the first such unit.
    #[error("the text is refused: a span of the block in line {line} lies in too many others")]
    InlineTooDeep { line: usize },
    /// A growth was refused.
    #[error("no memory")]
    NoMemory,
    /// The prelude is more than definitions: its line of this number, counted from 0, is the first that begins a container
    /// which lies in as many others as the options allow, or, where none does, the first line of the first unit with a block
    /// that is no definition; definitions right above a paragraph are of its unit.
    #[error("the prelude is refused: what begins in its line {line} is more than definitions")]
    NotDefinitions { line: usize },
}

impl EditFault {
    /// The name that a reply or an error line gives it.
    pub fn name(&self) -> &'static str
        ensures { result.now ≡ name_of (reason_of self.now) }
    {
        match self {
            EditFault::OutOfRange { .. } => "OutOfRange",
            EditFault::BreakInLine { .. } => "BreakInLine",
            EditFault::TooManyLines => "TooManyLines",
            EditFault::TooLarge => "TooLarge",
            EditFault::NestedTooDeep { .. } => "NestedTooDeep",
            EditFault::InlineTooDeep { .. } => "InlineTooDeep",
            EditFault::NoMemory => "NoMemory",
            EditFault::NotDefinitions { .. } => "NotDefinitions",
        }
    }

    /// Its number: of lines, of an added line, or of a line of the text or the prelude; 0 where it has none.
    pub fn number(&self) -> usize
        ensures { result ≡ number_of (reason_of self.now) }
    {
        match self {
            EditFault::OutOfRange { lines } => *lines,
            EditFault::BreakInLine { index } => *index,
            EditFault::NestedTooDeep { line } | EditFault::InlineTooDeep { line } => *line,
            EditFault::NotDefinitions { line } => *line,
            EditFault::TooManyLines | EditFault::TooLarge | EditFault::NoMemory => 0,
        }
    }
}

impl From<AllocError> for EditFault {
    ghost from_gives = { λ _ e. e ≡ NoMemory };

    fn from(_error: AllocError) -> EditFault {
        EditFault::NoMemory
    }
}

impl<T: Drop> From<AllocFailed<T>> for EditFault {
    ghost from_gives = { λ _ e. e ≡ NoMemory };

    fn from(_error: AllocFailed<T>) -> EditFault {
        EditFault::NoMemory
    }
}
