//! What no clause says: that calls succeed with ample memory, the worked scripts, and that replies are flushed one by one.

mod kept_units;
mod limits;
mod preludes;
mod tildes;
mod tools;
mod worked_texts;

ghost use Rattle.htmlspec.specs.Limits.{HasLimits};

use crate::options::SOFT;
use crate::runs::{Devices, Engine, SOUND, run_of};
use mdtool::{
    Breaks, EditFault, MemoryOut, Options, Stop, TableFault, ToolFault, WordFault, ending,
};
use std::alloc::{AllocError, Global};
use std::process::Abort;
use std::test::Fail;

fn options(breaks: Breaks) -> Options
    ensures { HasLimits result }
{
    Options { breaks, ..SOFT }
}

/// Runs a script, which must be answered so, and end so.
fn check(
    rt: &impl Abort,
    alloc: Global,
    script: &str,
    want: &str,
    want_end: &str,
) -> Result<(), AllocError> {
    let run = run_of(alloc, Engine::Serve, script.as_bytes(), SOUND, SOFT)?;
    assert!(rt; run.wrote(want), "{script}");
    assert!(rt; run.ended(want_end), "{script}");
    Ok(())
}

/// Runs scripts, each with what it must be answered and how it must end.
fn check_all(
    rt: &impl Abort,
    alloc: Global,
    rows: &[(&'static str, &'static str, &'static str)],
) -> Result<(), AllocError> {
    for (script, want, want_end) in rows {
        check(rt, alloc, script, want, want_end)?;
    }
    Ok(())
}

const EDITS: &str = "edit 0 0 3\n# a\nb  \nc\nedit 0 1 0\nhtml\n";

const REPLIES: &str =
    "ok 0 0 2 0\npiece 0 11\n<h1>a</h1>\npiece 1 17\n<p>b<br />\nc</p>\nok 0 1 0 0\nhtml 17\n<p>b<br />\nc</p>\n";

static ANSWERED: [(&str, &str, &str); 4] = [
    (EDITS, REPLIES, "Ok(())"),
    ("", "", "Ok(())"),
    // The script goes on after a refusal, and the text is as before.
    (
        "edit 0 0 5\na\n\nb\n\nc\nedit 9 1 0\nhtml\n",
        "ok 0 0 3 0\npiece 0 9\n<p>a</p>\npiece 1 9\n<p>b</p>\npiece 2 9\n<p>c</p>\nrefused OutOfRange 5\nhtml 27\n<p>a</p>\n<p>b</p>\n<p>c</p>\n",
        "Ok(())",
    ),
    (
        "edit 0 0 1\na\rb\nhtml\n",
        "refused BreakInLine 0\nhtml 0\n",
        "Ok(())",
    ),
];

#[test]
fn answers_edits(rt: HostRuntime) -> Result<(), Fail> {
    check_all(&rt, rt.alloc(), &ANSWERED)?;
    Ok(())
}

static NO_COMMANDS: [&str; 7] = [
    "\n",
    "edit 0 0\n",
    "edit  0 0 0\n",
    "html \n",
    "edit 0 0 1000000000\n",
    "edit +1 0 0\n",
    "\u{FEFF}html\n",
];

static ENDED: [(&str, &str, &str); 4] = [
    ("edit 0 0 2\na\n", "", "Err(Truncated(1))"),
    ("edit 0 0 999999999\na\n", "", "Err(Truncated(1))"),
    (
        "edit 0 0 1\na\nfoo\nhtml\n",
        "ok 0 0 1 0\npiece 0 9\n<p>a</p>\n",
        "Err(BadCommand(3))",
    ),
    // The last line counts without LF.
    ("edit 00 0 0\nhtml", "ok 0 0 0 0\nhtml 0\n", "Ok(())"),
];

#[test]
fn ends_at_what_is_no_command(rt: HostRuntime) -> Result<(), Fail> {
    let alloc = rt.alloc();
    for &script in &NO_COMMANDS {
        check(&rt, alloc, script, "", "Err(BadCommand(1))")?;
    }
    check_all(&rt, alloc, &ENDED)?;
    Ok(())
}

/// Adds a line, and compares its piece.
fn check_line(rt: &impl Abort, alloc: Global, line: &str, piece: &str) -> Result<(), AllocError> {
    let script = format!(in alloc; "edit 0 0 1\n{line}\n")?;
    let want = format!(in alloc; "ok 0 0 1 0\npiece 0 {}\n{piece}", piece.len())?;
    check(rt, alloc, &script, &want, "Ok(())")
}

static LINES: [(&str, &str); 10] = [
    ("   ###   a b  ## \t", "<h3>a b</h3>\n"),
    ("# a#", "<h1>a#</h1>\n"),
    ("#", "<h1></h1>\n"),
    ("###### ######", "<h6></h6>\n"),
    ("#\tx", "<h1>x</h1>\n"),
    ("####### a", "<p>####### a</p>\n"),
    ("    # a", "<pre><code># a\n</code></pre>\n"),
    ("#a", "<p>#a</p>\n"),
    (
        " a < b & \"c\" \\",
        "<p>a &lt; b &amp; &quot;c&quot; \\</p>\n",
    ),
    ("\0", "<p>\u{FFFD}</p>\n"),
];

#[test]
fn reads_lines(rt: HostRuntime) -> Result<(), Fail> {
    let alloc = rt.alloc();
    for &(line, piece) in &LINES {
        check_line(&rt, alloc, line, piece)?;
    }
    // Bytes that are no UTF-8 are read as U+FFFD.
    let run = run_of(alloc, Engine::Serve, b"edit 0 0 1\na\xFF\n", SOUND, SOFT)?;
    assert!(rt; run.wrote("ok 0 0 1 0\npiece 0 12\n<p>a\u{FFFD}</p>\n"));
    Ok(())
}

static BREAKS: [(Breaks, &str); 3] = [
    (Breaks::Soft, "html 19\n<p>a\nb<br />\nc</p>\n"),
    (Breaks::Hard, "html 25\n<p>a<br />\nb<br />\nc</p>\n"),
    (Breaks::Space, "html 19\n<p>a b<br />\nc</p>\n"),
];

#[test]
fn writes_breaks_as_the_options_say(rt: HostRuntime) -> Result<(), Fail> {
    let alloc = rt.alloc();
    for &(breaks, want) in &BREAKS {
        let script = b"edit 0 0 3\na \nb\\\nc\nhtml\n";
        let run = run_of(alloc, Engine::Serve, script, SOUND, options(breaks))?;
        assert!(rt; run.ends_with(want), "{want}");
    }
    Ok(())
}

#[test]
fn flushes_each_reply(rt: HostRuntime) -> Result<(), Fail> {
    let devices = Devices { step: 1, ..SOUND };
    let run = run_of(rt.alloc(), Engine::Serve, EDITS.as_bytes(), devices, SOFT)?;
    assert!(rt; run.wrote(REPLIES));
    assert_eq!(rt; run.flushes, 3);
    Ok(())
}

/// What an ending writes, and its status.
fn ended(rt: &impl Abort, alloc: Global, stop: &Stop, want: &str, status: u8) {
    let mut err = MemoryOut::new(alloc, 4, None);
    assert_eq!(rt; ending("mdpreview", stop, &mut err), status);
    assert_eq!(rt; err.bytes(), want.as_bytes());
}

fn stopped(rt: &impl Abort, alloc: Global, fault: ToolFault, want: &str, status: u8) {
    ended(rt, alloc, &Stop::Tool(fault), want, status);
}

static REFUSALS: [(EditFault, &str); 6] = [
    (
        EditFault::OutOfRange { lines: 5 },
        "mdpreview: refused OutOfRange 5\n",
    ),
    (
        EditFault::BreakInLine { index: 12 },
        "mdpreview: refused BreakInLine 12\n",
    ),
    (
        EditFault::TooManyLines,
        "mdpreview: refused TooManyLines 0\n",
    ),
    (EditFault::TooLarge, "mdpreview: refused TooLarge 0\n"),
    (EditFault::NoMemory, "mdpreview: no memory\n"),
    (
        EditFault::NotDefinitions { line: 3 },
        "mdpreview: refused NotDefinitions 3\n",
    ),
];

static TABLES: [(TableFault, &str); 3] = [
    (TableFault::NotJson, "mdpreview: entity file is not JSON\n"),
    (
        TableFault::BadEntry,
        "mdpreview: bad entry in entity file\n",
    ),
    (TableFault::NoMemory, "mdpreview: no memory\n"),
];

fn check_tool_stops(rt: &impl Abort, alloc: Global) {
    for &(fault, want) in &REFUSALS {
        stopped(rt, alloc, ToolFault::Refused(fault), want, 1);
    }
    for &(fault, want) in &TABLES {
        stopped(rt, alloc, ToolFault::Table(fault), want, 1);
    }
    stopped(rt, alloc, ToolFault::Read, "mdpreview: read failed\n", 1);
    stopped(rt, alloc, ToolFault::Write, "mdpreview: write failed\n", 1);
    let bad = "mdpreview: bad command in line 7\n";
    stopped(rt, alloc, ToolFault::BadCommand(7), bad, 2);
    let truncated = "mdpreview: script ends inside the edit of line 1\n";
    stopped(rt, alloc, ToolFault::Truncated(1), truncated, 2);
    stopped(rt, alloc, ToolFault::NoMemory, "mdpreview: no memory\n", 1);
}

fn check_word_stop(rt: &impl Abort, alloc: Global, fault: WordFault, want: &str, status: u8) {
    ended(rt, alloc, &Stop::Words(fault), want, status);
}

#[test]
fn gives_each_stop_its_line_and_status(rt: HostRuntime) -> Result<(), Fail> {
    let alloc = rt.alloc();
    let help = WordFault::Help(String::from_str(alloc, "how to\n")?);
    check_word_stop(&rt, alloc, help, "how to\n", 0);
    let not_understood = "mdpreview: words not understood\n";
    check_word_stop(&rt, alloc, WordFault::NotUnderstood, not_understood, 2);
    check_word_stop(&rt, alloc, WordFault::NoMemory, "mdpreview: no memory\n", 1);
    let name = Stop::NotOpened(String::from_str(alloc, "a b.md")?);
    ended(&rt, alloc, &name, "mdpreview: cannot open a b.md\n", 1);
    check_tool_stops(&rt, alloc);
    Ok(())
}

/// The call that fails, and how many bytes are written: there are a put and a flush for each of the three replies.
static CALLS: [(u64, usize); 6] = [(0, 0), (1, 61), (2, 61), (3, 72), (4, 72), (5, 97)];

#[test]
fn ends_at_each_device_fault(rt: HostRuntime) -> Result<(), Fail> {
    let alloc = rt.alloc();
    for call in 0..8 {
        let devices = Devices {
            step: 6,
            feed_fails: Some(call),
            out_fails: None,
        };
        let run = run_of(alloc, Engine::Serve, EDITS.as_bytes(), devices, SOFT)?;
        assert!(rt; run.ended("Err(Read)"), "read {call}");
        assert!(rt; run.began(REPLIES), "read {call}");
    }
    for &(call, len) in &CALLS {
        let devices = Devices {
            step: 1000,
            feed_fails: None,
            out_fails: Some(call),
        };
        let run = run_of(alloc, Engine::Serve, EDITS.as_bytes(), devices, SOFT)?;
        assert!(rt; run.ended("Err(Write)"), "write {call}");
        assert!(rt; run.began(REPLIES), "write {call}");
        assert_eq!(rt; run.written.len(), len, "write {call}");
    }
    Ok(())
}
