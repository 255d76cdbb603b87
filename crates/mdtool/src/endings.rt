//! What a program says when it stops, and its status.
ghost use Rattle.std.specs.Prelude.{◌≡◌, ◌-◌, ◌^◌, ◌<◌, ◌++◌, [], ◌∷◌, codes, decimal, string_bytes};
ghost use Rattle.std.specs.Result.{is_ok};
ghost use Rattle.mdtool.specs.Bytes.{Gains, GainsFront, Puts};
ghost use Rattle.mdtool.specs.Endings.{text_of, line_of, reason_of, tool_reason_of, refusal_reason_of, version_line, words_reason_of, status_of};
ghost use Rattle.mdtool.specs.RefusalText.{fault_text};

use crate::device::{DeviceFault, Out, put_all};
use crate::fault::{Stop, ToolFault};
use itoa::Buffer;
use mdtext::TableFault;
use mdview::EditFault;
use mdwords::{VERSION, WordFault};

/// Writes why the program of this name stopped, as one line, or the help or the version that was asked for, and answers the
/// exit status. A fault of `err` ends the writing alone. Takes no memory.
pub fn ending<W: Out>(program: &str, stop: &Stop, err: &mut W) -> u8
    requires { W.failures err.old < 2 ^ 64 - 1 }
    ensures status { result ≡ status_of stop.now }
    ensures front { GainsFront (W.written err.old) (text_of program.now stop.now) (W.written err.new) }
    ensures whole { W.failures err.new ≡ W.failures err.old → Gains (W.written err.old) (text_of program.now stop.now) (W.written err.new) }
{
    let _ = put_text(program, stop, err);
    status(stop)
}

/// Writes the help or the version that was asked for, or the line of the program.
pub(crate) fn put_text<W: Out>(program: &str, stop: &Stop, err: &mut W) -> Result<(), DeviceFault>
    requires { W.failures err.old < 2 ^ 64 - 1 }
    ensures { Puts (W.written err.old) (W.failures err.old) (text_of program.now stop.now) (is_ok result) (W.written err.new) (W.failures err.new) }
{
    match stop {
        Stop::Words(WordFault::Help(text)) => put_all(err, text.as_bytes()),
        Stop::Words(WordFault::Version) => put_version(program, err),
        _ => put_line(program, stop, err),
    }
}

/// Writes the program's name and its version.
fn put_version<W: Out>(program: &str, err: &mut W) -> Result<(), DeviceFault>
    requires { W.failures err.old < 2 ^ 64 - 1 }
    ensures { Puts (W.written err.old) (W.failures err.old) (version_line program.now) (is_ok result) (W.written err.new) (W.failures err.new) }
{
    put_all(err, program.as_bytes())?;
    put_all(err, b" ")?;
    put_all(err, VERSION.as_bytes())?;
    put_all(err, b"\n")
}

/// Writes the program's name, the reason and LF.
fn put_line<W: Out>(program: &str, stop: &Stop, err: &mut W) -> Result<(), DeviceFault>
    requires { W.failures err.old < 2 ^ 64 - 1 }
    ensures { Puts (W.written err.old) (W.failures err.old) (line_of program.now stop.now) (is_ok result) (W.written err.new) (W.failures err.new) }
{
    put_all(err, program.as_bytes())?;
    put_all(err, b": ")?;
    put_reason(stop, err)?;
    put_all(err, b"\n")
}

/// Writes why the program stops.
fn put_reason<W: Out>(stop: &Stop, err: &mut W) -> Result<(), DeviceFault>
    requires { W.failures err.old < 2 ^ 64 - 1 }
    ensures { Puts (W.written err.old) (W.failures err.old) (reason_of stop.now) (is_ok result) (W.written err.new) (W.failures err.new) }
{
    match stop {
        Stop::Words(fault) => put_all(err, words_reason(fault).as_bytes()),
        Stop::NotOpened(name) => {
            put_all(err, b"cannot open ")?;
            put_all(err, name.as_bytes())
        }
        Stop::Tool(fault) => put_tool_reason(fault, err),
    }
}

fn words_reason(fault: &WordFault) -> &str
    ensures { result.now ≡ words_reason_of fault.entry.now }
{
    match fault {
        WordFault::Help(text) => text.as_str(),
        WordFault::Version => VERSION,
        WordFault::NotUnderstood => "words not understood",
        WordFault::NoMemory => NO_MEMORY,
    }
}

fn put_tool_reason<W: Out>(fault: &ToolFault, err: &mut W) -> Result<(), DeviceFault>
    requires { W.failures err.old < 2 ^ 64 - 1 }
    ensures { Puts (W.written err.old) (W.failures err.old) (tool_reason_of fault.now) (is_ok result) (W.written err.new) (W.failures err.new) }
{
    match fault {
        ToolFault::Read => put_all(err, b"read failed"),
        ToolFault::Write => put_all(err, b"write failed"),
        ToolFault::Refused(fault) => put_refusal(fault, err),
        ToolFault::BadCommand(line) => put_numbered(err, b"bad command in line ", *line),
        ToolFault::Truncated(line) => {
            put_numbered(err, b"script ends inside the edit of line ", *line)
        }
        ToolFault::Table(TableFault::NotJson) => put_all(err, b"entity file is not JSON"),
        ToolFault::Table(TableFault::BadEntry) => put_all(err, b"bad entry in entity file"),
        ToolFault::Table(TableFault::NoMemory) => put_all(err, NO_MEMORY.as_bytes()),
        ToolFault::NoMemory => put_all(err, NO_MEMORY.as_bytes()),
    }
}

/// Writes a refusal; want of memory is no refusal of the text.
fn put_refusal<W: Out>(fault: &EditFault, err: &mut W) -> Result<(), DeviceFault>
    requires { W.failures err.old < 2 ^ 64 - 1 }
    ensures { Puts (W.written err.old) (W.failures err.old) (refusal_reason_of fault.now) (is_ok result) (W.written err.new) (W.failures err.new) }
{
    match fault {
        EditFault::NoMemory => put_all(err, NO_MEMORY.as_bytes()),
        _ => put_refused(fault, err),
    }
}

/// Writes a refusal with its name and number.
fn put_refused<W: Out>(fault: &EditFault, err: &mut W) -> Result<(), DeviceFault>
    requires { W.failures err.old < 2 ^ 64 - 1 }
    ensures { Puts (W.written err.old) (W.failures err.old) (fault_text fault.now) (is_ok result) (W.written err.new) (W.failures err.new) }
{
    put_all(err, b"refused ")?;
    put_all(err, fault.name().as_bytes())?;
    put_numbered(err, b" ", fault.number() as u64)
}

const NO_MEMORY: &str = "no memory";

/// Writes a text and a number behind it.
fn put_numbered<W: Out>(err: &mut W, text: &[u8], number: u64) -> Result<(), DeviceFault>
    requires { W.failures err.old < 2 ^ 64 - 1 }
    ensures { Puts (W.written err.old) (W.failures err.old) (text.now ++ decimal number) (is_ok result) (W.written err.new) (W.failures err.new) }
{
    put_all(err, text)?;
    let mut buffer = Buffer::new();
    put_all(err, buffer.format(number).as_bytes())
}

/// The exit status of a program that stops: 2 where its words or its script are wrong, 1 where it could not go on.
pub(crate) fn status(stop: &Stop) -> u8
    ensures { result ≡ status_of stop.now }
{
    match stop {
        Stop::Words(WordFault::Help(_)) => 0,
        Stop::Words(WordFault::Version) => 0,
        Stop::Words(WordFault::NotUnderstood) => 2,
        Stop::Words(WordFault::NoMemory) => 1,
        Stop::NotOpened(_) => 1,
        Stop::Tool(ToolFault::BadCommand(_)) => 2,
        Stop::Tool(ToolFault::Truncated(_)) => 2,
        Stop::Tool(_) => 1,
    }
}
