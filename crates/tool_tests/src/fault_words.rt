//! What is said of faults: as the pages of the endings and of the protocol have it, and where they have none as the fault's own line says.

use mdtool::{DeviceFault, EditFault, Stop, TableFault, ToolFault, WordFault};
use std::alloc::{AllocError, Global};
use std::error::Error;
use std::test::Fail;

fn words_of<E: Error>(alloc: Global, fault: &E) -> Result<String, AllocError> {
    format!(in alloc; "{fault}")
}

/// A fault of an engine, as a row can have it.
#[derive(Clone, Copy)]
enum OfTool {
    Read,
    Write,
    Refused(EditFault),
    BadCommand(u64),
    Truncated(u64),
    Table(TableFault),
    NoMemory,
}

fn tool_fault(fault: OfTool) -> ToolFault {
    match fault {
        OfTool::Read => ToolFault::Read,
        OfTool::Write => ToolFault::Write,
        OfTool::Refused(fault) => ToolFault::Refused(fault),
        OfTool::BadCommand(line) => ToolFault::BadCommand(line),
        OfTool::Truncated(line) => ToolFault::Truncated(line),
        OfTool::Table(fault) => ToolFault::Table(fault),
        OfTool::NoMemory => ToolFault::NoMemory,
    }
}

static OF_TOOLS: [(OfTool, &str); 8] = [
    (OfTool::Read, "read failed"),
    (OfTool::Write, "write failed"),
    (
        OfTool::Refused(EditFault::TooLarge),
        "the text is refused: it has more than 16,777,216 bytes",
    ),
    (OfTool::BadCommand(4), "bad command in line 4"),
    (
        OfTool::Truncated(2),
        "script ends inside the edit of line 2",
    ),
    (OfTool::Table(TableFault::NotJson), "entity file refused"),
    (OfTool::Table(TableFault::BadEntry), "entity file refused"),
    (OfTool::NoMemory, "no memory"),
];

fn words_of_tool(alloc: Global, fault: OfTool) -> Result<String, AllocError> {
    words_of(alloc, &tool_fault(fault))
}

fn words_of_tool_stop(alloc: Global, fault: OfTool) -> Result<String, AllocError> {
    words_of(alloc, &Stop::Tool(tool_fault(fault)))
}

/// A program that an engine stops says what the engine does.
#[test]
fn a_fault_of_an_engine_says_why(rt: HostRuntime) -> Result<(), Fail> {
    let alloc = rt.alloc();
    for &(fault, want) in &OF_TOOLS {
        assert_eq!(rt; words_of_tool(alloc, fault)?.as_str(), want);
        assert_eq!(rt; words_of_tool_stop(alloc, fault)?.as_str(), want);
    }
    Ok(())
}

/// A fault of words, as a row can have it.
#[derive(Clone, Copy)]
enum OfWords {
    Help(&'static str),
    Version,
    NotUnderstood,
    NoMemory,
}

fn word_fault(alloc: Global, fault: OfWords) -> Result<WordFault, AllocError> {
    match fault {
        OfWords::Help(text) => Ok(WordFault::Help(String::from_str(alloc, text)?)),
        OfWords::Version => Ok(WordFault::Version),
        OfWords::NotUnderstood => Ok(WordFault::NotUnderstood),
        OfWords::NoMemory => Ok(WordFault::NoMemory),
    }
}

fn words_of_words(alloc: Global, fault: OfWords) -> Result<String, AllocError> {
    words_of(alloc, &word_fault(alloc, fault)?)
}

fn words_of_words_stop(alloc: Global, fault: OfWords) -> Result<String, AllocError> {
    words_of(alloc, &Stop::Words(word_fault(alloc, fault)?))
}

static OF_WORDS: [(OfWords, &str); 4] = [
    (OfWords::Help("how to\n"), "how to\n"),
    (OfWords::Version, "the version was asked for"),
    (OfWords::NotUnderstood, "words not understood"),
    (OfWords::NoMemory, "no memory"),
];

/// A program that its words stop says what they do.
#[test]
fn a_fault_of_words_says_why(rt: HostRuntime) -> Result<(), Fail> {
    let alloc = rt.alloc();
    for &(fault, want) in &OF_WORDS {
        assert_eq!(rt; words_of_words(alloc, fault)?.as_str(), want);
        assert_eq!(rt; words_of_words_stop(alloc, fault)?.as_str(), want);
    }
    Ok(())
}

fn words_of_not_opened(alloc: Global, name: &str) -> Result<String, AllocError> {
    words_of(alloc, &Stop::NotOpened(String::from_str(alloc, name)?))
}

#[test]
fn a_file_and_a_device_say_why(rt: HostRuntime) -> Result<(), Fail> {
    let alloc = rt.alloc();
    let missing = words_of_not_opened(alloc, "./folder/../no such.md")?;
    assert_eq!(rt; missing.as_str(), "cannot open ./folder/../no such.md");
    assert_eq!(rt; words_of(alloc, &DeviceFault)?.as_str(), "a device failed");
    Ok(())
}
