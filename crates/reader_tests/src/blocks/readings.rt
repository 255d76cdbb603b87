//! Readings as tables of steps: the lines that a reader is given, and what it answers. Such a table costs no proof; what goes through it is proved once.

use super::calls::{LIMIT, fault_of, finish, hands_nothing, new_reader, read_line};
use mdblock::{BlockFault, Found, Reader};
use mdtext::{Entities, Tally};
use std::alloc::{AllocError, Global};
use std::process::Abort;
use std::test::Fail;

/// A line with what is answered to it, or a look at what the reader tells.
pub(crate) enum Step {
    /// A line is read, and no unit is handed out.
    Read {
        line: &'static str,
    },
    /// A line is read, and a unit that begins in line `begin` and has `lines` lines is handed out.
    Hand {
        line: &'static str,
        begin: usize,
        lines: usize,
    },
    /// A line is refused.
    Refuse {
        line: &'static str,
        fault: BlockFault,
    },
    /// A line of so many markers of block quotes is refused.
    RefuseQuotes {
        quotes: usize,
        fault: BlockFault,
    },
    /// So many lines were read, and the unit that is open began in line `open_at`.
    State {
        fed: usize,
        open_at: Option<usize>,
    },
    /// Whether the last line begins a later item of a top-level list.
    Joined {
        joined: bool,
    },
    /// So many lines were counted.
    Counted {
        lines: u64,
    },
}

/// What is answered at the end of the lines.
#[derive(Drop)]
pub(crate) enum End {
    /// It is not asked for.
    Open,
    /// The last unit, which begins in line `begin` and has `lines` lines.
    Unit { begin: usize, lines: usize },
    Fault(BlockFault),
}

/// A line of so many markers of block quotes.
pub(crate) fn quoted(alloc: Global, quotes: usize) -> Result<String, AllocError> {
    let mut line = ">".repeat(alloc, quotes)?;
    line.push_str("x")?;
    Ok(line)
}

fn is_at(found: &Found, begin: usize, lines: usize) -> bool {
    found.begin() == begin && found.lines() == lines
}

/// Whether a unit is handed out that begins in this line and has so many.
fn is_unit(outcome: Result<Option<Found>, BlockFault>, begin: usize, lines: usize) -> bool {
    match outcome {
        Ok(Some(found)) => is_at(&found, begin, lines),
        _ => false,
    }
}

fn refuses_quotes(
    alloc: Global,
    reader: &mut Reader<'_>,
    quotes: usize,
    fault: BlockFault,
    count: &mut Tally,
) -> Result<bool, AllocError> {
    let line = quoted(alloc, quotes)?;
    Ok(fault_of(reader, &line, count) == Some(fault))
}

fn is_in_state(reader: &Reader<'_>, fed: usize, open_at: Option<usize>) -> bool {
    reader.fed() == fed && reader.open_at() == open_at
}

/// Does what a step says, and answers whether all is as it says.
fn is_so(
    alloc: Global,
    reader: &mut Reader<'_>,
    count: &mut Tally,
    step: &Step,
) -> Result<bool, AllocError> {
    match *step {
        Step::Read { line } => Ok(hands_nothing(reader, line, count)),
        Step::Hand { line, begin, lines } => {
            Ok(is_unit(read_line(reader, line, count), begin, lines))
        }
        Step::Refuse { line, fault } => Ok(fault_of(reader, line, count) == Some(fault)),
        Step::RefuseQuotes { quotes, fault } => refuses_quotes(alloc, reader, quotes, fault, count),
        Step::State { fed, open_at } => Ok(is_in_state(reader, fed, open_at)),
        Step::Joined { joined } => Ok(reader.joined() == joined),
        Step::Counted { lines } => Ok(count.lines() == lines),
    }
}

fn check_step(rt: &impl Abort, is_so: bool, number: usize) {
    assert!(rt; is_so, "step {number}");
}

fn take(
    rt: &impl Abort,
    alloc: Global,
    reader: &mut Reader<'_>,
    steps: &[Step],
) -> Result<(), AllocError> {
    let mut count = Tally::new();
    for (number, step) in steps.iter().enumerate() {
        check_step(rt, is_so(alloc, reader, &mut count, step)?, number);
    }
    Ok(())
}

fn ends(reader: Reader<'_>, end: End) -> bool {
    match end {
        End::Open => true,
        End::Unit { begin, lines } => is_unit(finish(reader), begin, lines),
        End::Fault(fault) => finish(reader).err() == Some(fault),
    }
}

/// Takes steps one by one, with a reader that has read nothing, and ends it.
pub(crate) fn run(rt: &impl Abort, alloc: Global, steps: &[Step], end: End) -> Result<(), Fail> {
    let entities = Entities::builtin(alloc)?;
    let mut reader = new_reader(alloc, &entities, LIMIT);
    take(rt, alloc, &mut reader, steps)?;
    assert!(rt; ends(reader, end));
    Ok(())
}

/// Whether each of these lines is read, by a reader that has read nothing, and no unit is handed out.
fn hand_nothing(reader: &mut Reader<'_>, lines: &[&str]) -> bool {
    let mut count = Tally::new();
    let is_new = reader.fed() == 0;
    for line in lines {
        if !hands_nothing(reader, line, &mut count) {
            return false;
        }
    }
    is_new
}

/// The unit of these lines, where they are one and no line hands it out before their end.
pub(crate) fn found_in(alloc: Global, lines: &[&str]) -> Result<Option<Found>, AllocError> {
    let entities = Entities::builtin(alloc)?;
    let mut reader = new_reader(alloc, &entities, LIMIT);
    if hand_nothing(&mut reader, lines) {
        Ok(finish(reader).unwrap_or(None))
    } else {
        Ok(None)
    }
}
