//! Why words are refused.

use std::alloc::AllocError;
use thiserror::Error;

/// Why a program's words were not followed.
#[derive(Debug, Drop, Error)]
pub enum WordFault {
    /// The help was asked for; this is its text.
    #[error("{0}")]
    Help(String),
    /// The version was asked for.
    #[error("the version was asked for")]
    Version,
    /// They are not understood, or not UTF-8.
    #[error("words not understood")]
    NotUnderstood,
    /// A growth was refused.
    #[error("no memory")]
    NoMemory,
}

impl From<AllocError> for WordFault {
    ghost use Rattle.mdwords.specs.declared.word_faults.WordFault.TheVariants.{NoMemory};
    ghost use Rattle.std.specs.Prelude.{◌≡◌};

    ghost from_gives = { λ _ e. e ≡ NoMemory };

    fn from(_error: AllocError) -> WordFault {
        WordFault::NoMemory
    }
}
