//! The members of an entity file.
ghost use Rattle.std.specs.Prelude.{◌≡◌, true, option_map};
ghost use Rattle.mdtext.specs.EntityFile.{counts, is_name, name_of};

use crate::NoMemory;
use crate::character_references::{byte_at, name_len};
use std::alloc::{AllocFailed, Global};
use std::error::Error;
use std::fmt;

/// Why an entity file is refused.
#[derive(Clone, Copy, Debug, PartialEq, Eq)]
pub enum TableFault {
    /// The bytes are no JSON, or their value is no object.
    NotJson,
    /// A member whose name ends with `;` is not named `&`, letters or digits, `;`, or has no text `characters`.
    BadEntry,
    /// A growth was refused.
    NoMemory,
}

impl fmt::Display for TableFault {
    fn fmt<W: fmt::Write>(&self, f: &mut fmt::Formatter<W>) -> fmt::Result {
        match self {
            TableFault::NotJson => write!(f, "the entity file is not a JSON object"),
            TableFault::BadEntry => {
                write!(
                    f,
                    "an entry of the entity file has a bad name or no characters"
                )
            }
            TableFault::NoMemory => write!(f, "no memory"),
        }
    }
}

impl Error for TableFault {}

impl From<NoMemory> for TableFault {
    ghost use Rattle.mdtext.specs.declared.entity_file.TableFault.TheVariants.{NoMemory};
    ghost use Rattle.std.specs.Prelude.{◌≡◌};

    ghost from_gives = { λ _ fault. fault ≡ NoMemory };

    fn from(_refused: NoMemory) -> TableFault {
        TableFault::NoMemory
    }
}

impl<T: Drop> From<AllocFailed<T>> for TableFault {
    ghost use Rattle.mdtext.specs.declared.entity_file.TableFault.TheVariants.{NoMemory};
    ghost use Rattle.std.specs.Prelude.{◌≡◌};

    ghost from_gives = { λ _ fault. fault ≡ NoMemory };

    fn from(_refused: AllocFailed<T>) -> TableFault {
        TableFault::NoMemory
    }
}

/// Whether the member's name ends with `;`.
pub fn counts(key: &str) -> bool
    ensures { result ≡ counts key.now }
{
    byte_at(key, key.len().saturating_sub(1)) == b';'
}

/// The name in `&name;`.
pub fn name_of(key: &str) -> Option<&str>
    requires { counts key.now ≡ true }
    ensures { option_map (λ name. name.now) result ≡ name_of key.now }
{
    if byte_at(key, 0) != b'&' {
        return None;
    }
    let name = &key[1..key.len() - 1];
    if is_name(name) { Some(name) } else { None }
}

fn is_name(name: &str) -> bool
    ensures { result ≡ is_name name.now }
{
    !name.is_empty() && name_len(name) == name.len()
}
