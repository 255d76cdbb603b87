//! Why a program stopped, with what it was reading, so that it can be told in plain words.
ghost use Rattle.std.specs.Prelude.{◌≡◌, ◌↔◌};

use crate::fault::Stop;
use std::io::ErrorKind;

/// What a program was reading.
#[derive(Clone, Copy, Debug, PartialEq, Eq)]
pub enum Source {
    /// The entity file.
    Entities,
    /// The file of definitions.
    Prelude,
    /// The text or the script.
    Text,
}

/// Why the system refused a file.
#[derive(Clone, Copy, Debug, PartialEq, Eq)]
pub enum Cause {
    /// There is no such file.
    Missing,
    /// The user may not read it.
    Locked,
    /// It is a folder.
    Folder,
    /// Its path leads through what is no folder.
    NoFolder,
    /// Its links lead in a circle.
    Circle,
    /// It has nothing yet, and does not wait.
    Waits,
    /// Another one.
    Other,
}

/// Why a program stopped before its end, and what it was reading.
#[derive(Debug, Drop)]
pub struct Halt {
    /// Why it stopped.
    pub stop: Stop,
    /// What it was reading.
    pub source: Source,
    /// Why the system refused the file, where a file could not be opened or read.
    pub cause: Cause,
}

/// What the system's word for it means for a file; any other word is another cause.
pub(crate) fn cause_of(kind: ErrorKind) -> Cause
    ensures missing { (kind ≡ ErrorKind.NotFound) ↔ (result ≡ Cause.Missing) }
    ensures locked { (kind ≡ ErrorKind.PermissionDenied) ↔ (result ≡ Cause.Locked) }
    ensures folder { (kind ≡ ErrorKind.IsADirectory) ↔ (result ≡ Cause.Folder) }
    ensures no_folder { (kind ≡ ErrorKind.NotADirectory) ↔ (result ≡ Cause.NoFolder) }
    ensures circle { (kind ≡ ErrorKind.FilesystemLoop) ↔ (result ≡ Cause.Circle) }
    ensures waits { (kind ≡ ErrorKind.WouldBlock) ↔ (result ≡ Cause.Waits) }
{
    match kind {
        ErrorKind::NotFound => Cause::Missing,
        ErrorKind::PermissionDenied => Cause::Locked,
        ErrorKind::IsADirectory => Cause::Folder,
        ErrorKind::NotADirectory => Cause::NoFolder,
        ErrorKind::FilesystemLoop => Cause::Circle,
        ErrorKind::WouldBlock => Cause::Waits,
        _ => Cause::Other,
    }
}
