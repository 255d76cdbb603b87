//! What the programs do around their engines: words, files, endings.
ghost use Rattle.std.specs.Prelude.{◌≡◌, ◌-◌, ◌^◌, ◌==◌, IfErr, IfOk, if◌then◌else◌};
ghost use Rattle.std.specs.Process.{exit_status};
ghost use Rattle.htmlspec.specs.Limits.{HasLimits};
ghost use Rattle.mdtool.specs.Endings.{EndsBy, IsNotOpened, end_status, status_of};
ghost use Rattle.mdtool.specs.NamedFiles.{EntitiesOf, IsNotOpenedOf, NamesOf, PreludeOf};

use crate::built_in_entities::built_in_entities;
use crate::device::Feed;
use crate::endings::ending;
use crate::entity_tables::entities_from;
use crate::explaining::explained_ending;
use crate::fault::{Stop, ToolFault};
use crate::halt::{Cause, Halt, Source, cause_of};
use crate::io_devices::{ReadFeed, WriteOut};
use crate::preludes::prelude_from;
use crate::text_input::TextInput;
use mdtext::Entities;
use mdwords::{WordFault, Words, read_words};
use std::alloc::{AllocError, Global};
use std::env::{self, Args};
use std::fs::File;
use std::io::{ErrorKind, Read};
use std::process::ExitCode;

/// The words that the process was started with, read as those of the program of this name. Refused as `read_words` refuses them; words that are no UTF-8 are not
/// understood.
pub fn words_of(rt: &HostRuntime, program: &str) -> Result<Words, Stop>
    ensures { IfOk result (λ words. HasLimits words.options) }
{
    let given = match env::args(rt) {
        Ok(words) => collected(rt.alloc(), words),
        Err(error) if error.kind() == ErrorKind::OutOfMemory => Err(AllocError),
        Err(_) => return Err(Stop::Words(WordFault::NotUnderstood)),
    };
    match given {
        Ok(given) => match named_words(rt.alloc(), program, &given) {
            Ok(words) => Ok(words),
            Err(fault) => Err(Stop::Words(fault)),
        },
        Err(_) => Err(Stop::Words(WordFault::NoMemory)),
    }
}

fn collected(alloc: Global, given: Args) -> Result<Vec<String>, AllocError> {
    let mut words = Vec::new(alloc);
    for word in given {
        words.push(word)?;
    }
    Ok(words)
}

/// The words read, with the program's name in place of what it was started as.
fn named_words(alloc: Global, program: &str, given: &[String]) -> Result<Words, WordFault>
    ensures { IfOk result (λ words. HasLimits words.options) }
{
    let words = renamed(alloc, program, given)?;
    read_words(alloc, &words)
}

fn renamed<'a>(
    alloc: Global,
    program: &'a str,
    given: &'a [String],
) -> Result<Vec<&'a str>, AllocError> {
    let mut words = Vec::new(alloc);
    words.push(program)?;
    for i in 1..given.len() {
        words.push(given[i].as_str())?;
    }
    Ok(words)
}

/// The entities of the file that the words name, or those that are built in, with tildes read as the words say. It stops where the file can't be opened or read,
/// is no file of entities, or a growth was refused.
pub fn entities_of(rt: &HostRuntime, words: &Words) -> Result<Entities, Halt>
    ensures read { EntitiesOf words.now result }
    ensures source { IfErr result (λ halt. halt.source ≡ Source.Entities) }
{
    match names_of(rt, words) {
        Ok(entities) => Ok(entities.with_double_tilde(words.double_tilde)),
        Err(halt) => Err(halt),
    }
}

fn names_of(rt: &HostRuntime, words: &Words) -> Result<Entities, Halt>
    ensures read { NamesOf words.now.html_entities words.now.entities result }
    ensures source { IfErr result (λ halt. halt.source ≡ Source.Entities) }
{
    let source = Source::Entities;
    match &words.entities {
        Some(name) => {
            let mut feed = opened(rt, name, source)?;
            match entities_from(rt.alloc(), &mut feed) {
                Ok(entities) => Ok(entities),
                Err(fault) => Err(halted(fault, source, feed.cause())),
            }
        }
        None => match built_in_entities(rt.alloc(), words.html_entities) {
            Ok(entities) => Ok(entities),
            Err(fault) => Err(halted(fault, source, Cause::Other)),
        },
    }
}

/// The lines of the prelude's file that the words name, or none. It stops where the file can't be opened or read, or a growth was refused.
pub fn prelude_of(rt: &HostRuntime, words: &Words) -> Result<Vec<String>, Halt>
    ensures read { PreludeOf words.now.prelude result }
    ensures source { IfErr result (λ halt. halt.source ≡ Source.Prelude) }
{
    let source = Source::Prelude;
    match &words.prelude {
        Some(name) => {
            let mut feed = opened(rt, name, source)?;
            match prelude_from(rt.alloc(), &mut feed) {
                Ok(lines) => Ok(lines),
                Err(fault) => Err(halted(fault, source, feed.cause())),
            }
        }
        None => Ok(Vec::new(rt.alloc())),
    }
}

/// A stop by an engine.
fn halted(fault: ToolFault, source: Source, cause: Cause) -> Halt
    ensures { result ≡ record { stop = Stop.Tool fault; source = source; cause = cause } }
{
    Halt {
        stop: Stop::Tool(fault),
        source,
        cause,
    }
}

/// The file of this name, as a feed. It stops where the file can't be opened.
pub fn opened(rt: &HostRuntime, name: &str, source: Source) -> Result<ReadFeed<File>, Halt>
    ensures feed { IfOk result (λ feed. ⟦<ReadFeed<File> as Feed>⟧.failures feed ≡ 0) }
    ensures stop { IfErr result (λ halt. IsNotOpened name.now halt.stop) }
    ensures source { IfErr result (λ halt. halt.source ≡ source) }
{
    Ok(ReadFeed::new(opened_file(rt, name, source)?))
}

/// What the words name as the text or the script, or standard input where they name no file, as a feed. It stops where the file can't be opened.
pub fn text_of(rt: &HostRuntime, words: &Words) -> Result<ReadFeed<TextInput>, Halt>
    ensures feed { IfOk result (λ feed. ⟦<ReadFeed<TextInput> as Feed>⟧.failures feed ≡ 0) }
    ensures stop { IfErr result (λ halt. IsNotOpenedOf words.now.file halt.stop) }
    ensures source { IfErr result (λ halt. halt.source ≡ Source.Text) }
{
    match &words.file {
        Some(name) => {
            let file = opened_file(rt, name, Source::Text)?;
            Ok(ReadFeed::new(TextInput::Named(file)))
        }
        None => Ok(ReadFeed::new(TextInput::Standard(rt.stdin()))),
    }
}

fn opened_file(rt: &HostRuntime, name: &str, source: Source) -> Result<File, Halt>
    ensures stop { IfErr result (λ halt. IsNotOpened name.now halt.stop) }
    ensures source { IfErr result (λ halt. halt.source ≡ source) }
{
    match File::open(rt, name) {
        Ok(file) => Ok(file),
        Err(error) => Err(Halt {
            stop: not_opened(rt, name),
            source,
            cause: cause_of(error.kind()),
        }),
    }
}

fn not_opened(rt: &HostRuntime, name: &str) -> Stop
    ensures { IsNotOpened name.now result }
{
    match String::from_str(rt.alloc(), name) {
        Ok(name) => Stop::NotOpened(name),
        Err(_) => Stop::Tool(ToolFault::NoMemory),
    }
}

/// The end of an engine that reads a text or a script, with what it was reading: the prelude, where nothing of the feed was read, and else the text.
pub fn text_end<R: Read>(end: Result<(), ToolFault>, feed: &ReadFeed<R>) -> Result<(), Halt>
    ensures end { EndsBy end result }
    ensures source { IfErr result (λ halt. halt.source ≡ (if feed.now.calls_left == 2 ^ 64 - 1 then Source.Prelude else Source.Text)) }
    ensures cause { IfErr result (λ halt. halt.cause ≡ feed.now.cause) }
{
    match end {
        Ok(()) => Ok(()),
        Err(fault) => {
            let source = if feed.is_unread() {
                Source::Prelude
            } else {
                Source::Text
            };
            Err(halted(fault, source, feed.cause()))
        }
    }
}

/// Writes on standard error why the program of this name stopped, if it did not come to its end, explained where the words
/// ask for it, and answers its status.
pub fn ended(rt: &HostRuntime, program: &str, words: &Words, end: Result<(), Halt>) -> ExitCode
    ensures { exit_status result ≡ end_status end }
{
    match end {
        Ok(()) => ExitCode::from(0),
        Err(halt) => {
            let mut err = WriteOut::new(rt.stderr());
            ExitCode::from(explained_ending(rt.alloc(), program, words, &halt, &mut err))
        }
    }
}

/// Writes why the words were not followed, and answers the status. The help and the version go to standard output, all else
/// to standard error.
pub fn words_refused(rt: &HostRuntime, program: &str, stop: &Stop) -> ExitCode
    ensures { exit_status result ≡ status_of stop.now }
{
    let status = match stop {
        Stop::Words(WordFault::Help(_)) | Stop::Words(WordFault::Version) => {
            ending(program, stop, &mut WriteOut::new(rt.stdout()))
        }
        _ => ending(program, stop, &mut WriteOut::new(rt.stderr())),
    };
    ExitCode::from(status)
}
