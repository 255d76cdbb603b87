//! Why a call is refused, and what C is told of it.
ghost use Rattle.std.specs.Prelude.{◌≡◌};
ghost use Rattle.jirmoans.specs.Refusals.{code_of, code_of_edit, done, fault_after, fault_of, number_of, told};

use mdtext::TableFault;
use mdview::EditFault;

/// Why a call from C is refused.
#[derive(Clone, Copy, Debug, Drop, PartialEq, Eq)]
pub enum Refusal {
    /// The library refuses the edit, the prelude or the text.
    Edit(EditFault),
    /// The bytes are no file of entities.
    Table(TableFault),
    /// The bytes are no UTF-8 behind the first `valid` ones.
    NotUtf8 { valid: usize },
    /// No unit has this number: the text has so many units.
    NoSuchUnit { units: usize },
    /// No preview was opened.
    NotOpen,
    /// A preview is open already.
    AlreadyOpen,
    /// The number names no way to write line breaks.
    UnknownBreaks,
    /// A limit is greater than 256.
    LimitTooLarge,
}

/// What C is told of a call: a fault by its number, and a number beside it. Both are 0 where all went well.
#[repr(C)]
#[derive(Clone, Copy, Debug, Drop, PartialEq, Eq)]
pub struct Fault {
    /// Which fault it is.
    pub code: u32,
    /// What the fault counts or where it lies; 0 where it has no number.
    pub number: usize,
}

impl Fault {
    /// All went well.
    pub fn none() -> Fault
        ensures { result ≡ done }
    {
        Fault { code: 0, number: 0 }
    }
}

impl Refusal {
    /// What C is told of it.
    pub fn fault(&self) -> Fault
        ensures { result ≡ fault_of self.now }
    {
        Fault {
            code: self.code(),
            number: self.number(),
        }
    }

    fn code(&self) -> u32
        ensures { result ≡ code_of self.now }
    {
        match self {
            Refusal::Edit(fault) => code_of_edit(fault),
            Refusal::Table(TableFault::NoMemory) => 7,
            Refusal::NotUtf8 { .. } => 9,
            Refusal::NoSuchUnit { .. } => 10,
            Refusal::NotOpen => 11,
            Refusal::AlreadyOpen => 12,
            Refusal::UnknownBreaks => 13,
            Refusal::LimitTooLarge => 14,
            Refusal::Table(TableFault::NotJson) => 15,
            Refusal::Table(TableFault::BadEntry) => 16,
        }
    }

    fn number(&self) -> usize
        ensures { result ≡ number_of self.now }
    {
        match self {
            Refusal::Edit(fault) => fault.number(),
            Refusal::NotUtf8 { valid } => *valid,
            Refusal::NoSuchUnit { units } => *units,
            Refusal::Table(_)
            | Refusal::NotOpen
            | Refusal::AlreadyOpen
            | Refusal::UnknownBreaks
            | Refusal::LimitTooLarge => 0,
        }
    }
}

fn code_of_edit(fault: &EditFault) -> u32
    ensures { result ≡ code_of_edit fault.now }
{
    match fault {
        EditFault::OutOfRange { .. } => 1,
        EditFault::BreakInLine { .. } => 2,
        EditFault::TooManyLines => 3,
        EditFault::TooLarge => 4,
        EditFault::NestedTooDeep { .. } => 5,
        EditFault::InlineTooDeep { .. } => 6,
        EditFault::NoMemory => 7,
        EditFault::NotDefinitions { .. } => 8,
    }
}

/// Puts an answer where C looks for it, which is left alone by a refusal, and says how the call went.
pub fn answer<T: Drop>(ended: Result<T, Refusal>, out: &mut T) -> Fault
    ensures fault { result ≡ fault_after ended }
    ensures told { out.new ≡ told ended out.old }
{
    match ended {
        Ok(value) => {
            *out = value;
            Fault::none()
        }
        Err(refusal) => refusal.fault(),
    }
}
