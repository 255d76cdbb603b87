//! Tells in plain words why a program stopped: the second line that `--explain` asks for.
ghost use Rattle.std.specs.Prelude.{◌≡◌, ◌⊎◌, ◌-◌, ◌^◌, ◌<◌, ◌++◌, IfOk, string_bytes};
ghost use Rattle.mdtool.specs.Bytes.{Gains, GainsFront};
ghost use Rattle.mdtool.specs.Endings.{status_of, text_of};
ghost use Rattle.mdtool.specs.Explanations.{asked_explanation, cause_text, explanation, fault_told, in_line, place_of, refusal_told, source_name, table_told, told};

use crate::device::{Out, put_all};
use crate::endings::{put_text, status};
use crate::fault::{Stop, ToolFault};
use crate::halt::{Cause, Halt, Source};
use htmlspec::Options;
use mdtext::TableFault;
use mdview::EditFault;
use mdwords::Words;
use std::alloc::{AllocError, Global};

/// Writes why the program of this name stopped, as `ending` does, and behind it, where the words ask for it, an explanation
/// in plain words; where there is no memory for that, the line alone. Answers the exit status.
pub fn explained_ending<W: Out>(
    alloc: Global,
    program: &str,
    words: &Words,
    halt: &Halt,
    err: &mut W,
) -> u8
    requires { W.failures err.old < 2 ^ 64 - 1 }
    ensures status { result ≡ status_of halt.now.stop }
    ensures front { GainsFront (W.written err.old) (text_of program.now halt.now.stop ++ asked_explanation words.now halt.now) (W.written err.new) }
    // Where nothing failed the line was written, and the explanation behind it or, for want of memory, none.
    ensures whole { W.failures err.new ≡ W.failures err.old → Gains (W.written err.old) (text_of program.now halt.now.stop) (W.written err.new)
        ⊎ Gains (W.written err.old) (text_of program.now halt.now.stop ++ asked_explanation words.now halt.now) (W.written err.new) }
{
    put_both(alloc, program, words, halt, err);
    status(&halt.stop)
}

/// Writes the line, and the explanation where it is asked for.
fn put_both<W: Out>(alloc: Global, program: &str, words: &Words, halt: &Halt, err: &mut W)
    requires { W.failures err.old < 2 ^ 64 - 1 }
    ensures front { GainsFront (W.written err.old) (text_of program.now halt.now.stop ++ asked_explanation words.now halt.now) (W.written err.new) }
    ensures whole { W.failures err.new ≡ W.failures err.old → Gains (W.written err.old) (text_of program.now halt.now.stop) (W.written err.new)
        ⊎ Gains (W.written err.old) (text_of program.now halt.now.stop ++ asked_explanation words.now halt.now) (W.written err.new) }
{
    if put_text(program, &halt.stop, err).is_err() {
        return;
    }
    if !words.explains {
        return;
    }
    put_explanation(alloc, words, halt, err);
}

/// Writes the explanation, or nothing where there is no memory for it.
fn put_explanation<W: Out>(alloc: Global, words: &Words, halt: &Halt, err: &mut W)
    requires { W.failures err.old < 2 ^ 64 - 1 }
    ensures front { GainsFront (W.written err.old) (explanation words.now halt.now) (W.written err.new) }
    ensures whole { W.failures err.new ≡ W.failures err.old → (W.written err.new ≡ W.written err.old) ⊎ Gains (W.written err.old) (explanation words.now halt.now) (W.written err.new) }
{
    if let Ok(text) = explanation(alloc, words, halt) {
        let _ = put_all(err, text.as_bytes());
    }
}

/// The explanation of a stop, as one line: the file, the line counted from 1, what is wrong, and what to do. Refused for want of memory alone.
pub fn explanation(alloc: Global, words: &Words, halt: &Halt) -> Result<String, AllocError>
    ensures { IfOk result (λ text. string_bytes text ≡ explanation words.now halt.now) }
{
    let place = place_of(words, halt);
    let told = told(alloc, &words.options, halt)?;
    format!(in alloc; "{place}: {told}\n")
}

/// Where the stop is: what was being read, or what was being written.
fn place_of<'a>(words: &'a Words, halt: &Halt) -> &'a str
    ensures { result.now ≡ place_of words.entry.now halt.now.source halt.now.stop }
{
    match &halt.stop {
        Stop::Tool(ToolFault::Write) => "standard output",
        _ => source_name(words, halt.source),
    }
}

/// The name of what was being read.
fn source_name<'a>(words: &'a Words, source: Source) -> &'a str
    ensures { result.now ≡ source_name words.entry.now source }
{
    let named = match source {
        Source::Entities => &words.entities,
        Source::Prelude => &words.prelude,
        Source::Text => &words.file,
    };
    match (named, &words.file) {
        (Some(name), _) => name.as_str(),
        (None, Some(name)) => name.as_str(),
        (None, None) => "standard input",
    }
}

/// What is wrong, and what to do.
fn told(alloc: Global, options: &Options, halt: &Halt) -> Result<String, AllocError>
    ensures { IfOk result (λ text. string_bytes text ≡ told options.now halt.now.cause halt.now.stop) }
{
    match &halt.stop {
        Stop::Tool(fault) => fault_told(alloc, options, halt.cause, fault),
        Stop::NotOpened(_) => {
            let cause = cause_text(halt.cause);
            format!(in alloc; "it can't be opened: {cause}")
        }
        Stop::Words(_) => String::from_str(alloc, "see --help"),
    }
}

fn fault_told(
    alloc: Global,
    options: &Options,
    cause: Cause,
    fault: &ToolFault,
) -> Result<String, AllocError>
    ensures { IfOk result (λ text. string_bytes text ≡ fault_told options.now cause fault.now) }
{
    match fault {
        ToolFault::Read => {
            let cause = cause_text(cause);
            format!(in alloc; "it can't be read: {cause}")
        }
        ToolFault::Write => {
            String::from_str(alloc, "it takes no more, and what was written is not whole")
        }
        ToolFault::Refused(fault) => refusal_told(alloc, options, fault),
        ToolFault::BadCommand(line) => {
            format!(in alloc;
                "line {line}: this is no command; a command is html, edit AT DEL ADD or prelude ADD"
            )
        }
        ToolFault::Truncated(line) => {
            format!(in alloc;
                "line {line}: fewer lines follow than this command asks for; its last number counts them"
            )
        }
        ToolFault::Table(fault) => String::from_str(alloc, table_told(fault)),
        ToolFault::NoMemory => String::from_str(alloc, NO_MORE_MEMORY),
    }
}

const NO_MORE_MEMORY: &str = "the system gives no more memory; cut it into several texts";

fn refusal_told(alloc: Global, options: &Options, fault: &EditFault) -> Result<String, AllocError>
    ensures { IfOk result (λ text. string_bytes text ≡ refusal_told options.now fault.now) }
{
    match fault {
        EditFault::NestedTooDeep { line } => {
            let limit = options.max_containers;
            let told = format!(in alloc;
                "more than {limit} block quotes and list items in one another; see --max-containers"
            )?;
            in_line(alloc, *line, told.as_str())
        }
        EditFault::InlineTooDeep { line } => {
            let limit = options.max_spans;
            let told = format!(in alloc;
                "the block that begins here has more than {limit} spans in one another; see --max-spans"
            )?;
            in_line(alloc, *line, told.as_str())
        }
        EditFault::NotDefinitions { line } => {
            let told =
                "the block that begins here is more than link reference definitions; leave nothing else in the file";
            in_line(alloc, *line, told)
        }
        EditFault::TooManyLines => {
            String::from_str(alloc, "more than 1000000 lines; cut it into several texts")
        }
        EditFault::TooLarge => {
            String::from_str(alloc, "more than 16777216 bytes; cut it into several texts")
        }
        EditFault::OutOfRange { .. } | EditFault::BreakInLine { .. } => {
            String::from_str(alloc, "it is refused")
        }
        EditFault::NoMemory => String::from_str(alloc, NO_MORE_MEMORY),
    }
}

/// What is wrong with a line that is counted from 0.
fn in_line(alloc: Global, line: usize, told: &str) -> Result<String, AllocError>
    ensures { IfOk result (λ text. string_bytes text ≡ in_line line told.now) }
{
    let number = line.saturating_add(1);
    format!(in alloc; "line {number}: {told}")
}

fn table_told(fault: &TableFault) -> &'static str
    ensures { result.now ≡ table_told fault.now }
{
    match fault {
        TableFault::NotJson => {
            "it is no JSON text, or no object; HTML's entities.json has the form"
        }
        TableFault::BadEntry => {
            "a name that ends with ; is not letters and digits behind &, or it has no text characters"
        }
        TableFault::NoMemory => NO_MORE_MEMORY,
    }
}

fn cause_text(cause: Cause) -> &'static str
    ensures { result.now ≡ cause_text cause }
{
    match cause {
        Cause::Missing => "there is no such file",
        Cause::Locked => "you may not read it",
        Cause::Folder => "it is a folder, and not a file",
        Cause::NoFolder => "its path leads through a file that is no folder",
        Cause::Circle => "its links lead in a circle",
        Cause::Waits => "it has nothing yet, and does not wait",
        Cause::Other => "the system says no more",
    }
}
