//! Lists in two parts, beside the same lines read from their front.

use super::calls::{
    LIMIT, finish, finish_inside, inside, new_reader, read_line, read_line_inside, spliced,
};
use mdblock::{BlockFault, Found, ItemReader, Reader};
use mdtext::{Entities, Tally};
use std::alloc::{AllocError, Global};
use std::process::Abort;
use std::test::Fail;

/// Lines that lists are put together of.
const LINES: [&str; 22] = [
    "- a",
    "- a",
    "- b",
    "-",
    "- # h",
    "- [x] t",
    "- [l]: /u",
    "- > q",
    "- - n",
    "- | c | d |",
    "  | - | - |",
    "  | 1 | 2 |",
    "- ```",
    "  ```",
    "  m",
    "  - i",
    "  > z",
    "",
    "",
    "lazy",
    "3. o",
    "* s",
];

/// The next number of a row that looks as if by chance.
fn next(seed: &mut u64) -> usize {
    *seed = seed
        .wrapping_mul(6364136223846793005)
        .wrapping_add(1442695040888963407);
    (*seed >> 33) as usize
}

/// Fewer than eight lines more.
fn push_lines(lines: &mut Vec<&'static str>, seed: &mut u64) -> Result<(), AllocError> {
    for _ in 0..next(seed) % 8 {
        lines.push(LINES[next(seed) % 22])?;
    }
    Ok(())
}

fn some_lines(alloc: Global, seed: &mut u64) -> Result<Vec<&'static str>, AllocError> {
    let mut lines: Vec<&'static str> = Vec::new(alloc);
    push_lines(&mut lines, seed)?;
    Ok(lines)
}

fn read_on(reader: &mut Reader<'_>, lines: &[&'static str]) {
    let mut count = Tally::new();
    for line in lines {
        let _ = read_line(reader, line, &mut count);
    }
}

/// What has read these lines.
fn read<'e>(alloc: Global, entities: &'e Entities, lines: &[&'static str]) -> Reader<'e> {
    let mut reader = new_reader(alloc, entities, LIMIT);
    read_on(&mut reader, lines);
    reader
}

/// The last unit where these lines are read too.
fn finished(mut reader: Reader<'_>, lines: &[&'static str]) -> Result<Option<Found>, BlockFault> {
    read_on(&mut reader, lines);
    finish(reader)
}

/// All that is held of what was found, private fields too.
fn told(alloc: Global, outcome: Result<Option<Found>, BlockFault>) -> Result<String, AllocError> {
    match outcome {
        Ok(found) => format!(in alloc; "{found:?}"),
        Err(_) => String::from_str(alloc, "fault"),
    }
}

/// What is held of the last unit of these lines and others behind them.
fn whole(
    alloc: Global,
    entities: &Entities,
    front: &[&'static str],
    later: &[&'static str],
) -> Result<String, AllocError> {
    told(alloc, finished(read(alloc, entities, front), later))
}

/// The last unit of these lines.
fn last_unit(alloc: Global, entities: &Entities, lines: &[&'static str]) -> Option<Found> {
    finish(read(alloc, entities, lines)).unwrap_or(None)
}

/// The line of a join.
fn line_of(found: &Found, k: usize) -> usize {
    match found.joins().get(k) {
        Some(join) => join.line,
        None => 0,
    }
}

/// Whether what two parts were joined to is held as when all lines are read.
fn is_whole(
    alloc: Global,
    entities: &Entities,
    joined: Found,
    front: &[&'static str],
    later: &[&'static str],
) -> Result<bool, AllocError> {
    let joined = told(alloc, Ok(Some(joined)))?;
    Ok(joined == whole(alloc, entities, front, later)?)
}

/// Whether the lines up to one that is a list's join, joined with that list, are held as when all are read; nothing where they can't be joined.
fn joins_right(
    alloc: Global,
    entities: &Entities,
    lines: &[&'static str],
    found: &Found,
    k: usize,
    later: &[&'static str],
) -> Result<Option<bool>, AllocError> {
    let front = lines.get(..lines.len().saturating_sub(1)).unwrap_or(&[]);
    match spliced(read(alloc, entities, lines), found, k)? {
        Some(joined) => Ok(Some(is_whole(alloc, entities, joined, front, later)?)),
        None => Ok(None),
    }
}

fn check_same(rt: &impl Abort, same: bool, lines: &[&'static str], later: &[&'static str]) {
    assert!(rt; same, "{lines:?} with {later:?}");
}

/// Joins lines with those of an old list at one of its joins, if they may be, and answers how often they were.
fn join_at(
    rt: &impl Abort,
    alloc: Global,
    entities: &Entities,
    lines: &[&'static str],
    old: &[&'static str],
    found: &Found,
    k: usize,
) -> Result<usize, AllocError> {
    let at = found.begin().saturating_add(line_of(found, k));
    if lines.last() != old.get(at) {
        return Ok(0);
    }
    let later = old.get(at..).unwrap_or(&[]);
    match joins_right(alloc, entities, lines, found, k, later)? {
        Some(same) => {
            check_same(rt, same, lines, later);
            Ok(1)
        }
        None => Ok(0),
    }
}

/// Joins the lines up to each with those of an old list at one of its joins.
fn join_each(
    rt: &impl Abort,
    alloc: Global,
    entities: &Entities,
    front: &[&'static str],
    old: &[&'static str],
    found: &Found,
    k: usize,
) -> Result<usize, AllocError> {
    let mut count: usize = 0;
    for end in 1..=front.len() {
        let lines = front.get(..end).unwrap_or(&[]);
        count = count.saturating_add(join_at(rt, alloc, entities, lines, old, found, k)?);
    }
    Ok(count)
}

/// Joins lines with those of an old list at each of its joins.
fn join_all(
    rt: &impl Abort,
    alloc: Global,
    entities: &Entities,
    front: &[&'static str],
    old: &[&'static str],
) -> Result<usize, AllocError> {
    let Some(found) = last_unit(alloc, entities, old) else {
        return Ok(0);
    };
    let mut count: usize = 0;
    for k in 0..found.joins().len() {
        count = count.saturating_add(join_each(rt, alloc, entities, front, old, &found, k)?);
    }
    Ok(count)
}

/// Whether each line up to this one, which begins a later item, was counted.
fn is_inside(reader: &ItemReader<'_, '_>, count: &Tally, at: usize) -> bool {
    u64::try_from(reader.fed()) == Ok(count.lines())
        && count.inlines() == 0
        && reader.fed() == at.saturating_add(1)
}

fn read_on_inside(reader: &mut ItemReader<'_, '_>, lines: &[&'static str]) {
    let mut count = Tally::new();
    for line in lines {
        let _ = read_line_inside(reader, line, &mut count);
    }
}

/// What is held of a list behind these lines.
fn told_inside(
    alloc: Global,
    mut reader: ItemReader<'_, '_>,
    lines: &[&'static str],
) -> Result<String, AllocError> {
    read_on_inside(&mut reader, lines);
    told(alloc, finish_inside(reader))
}

/// Two lines that end each list: the second begins a paragraph.
static ENDS: [&str; 2] = ["", "p"];

/// What is held of a list behind these lines where it ends, and of the paragraph behind it.
fn told_ended(
    alloc: Global,
    mut reader: ItemReader<'_, '_>,
    lines: &[&'static str],
) -> Result<String, AllocError> {
    read_on_inside(&mut reader, lines);
    read_on_inside(&mut reader, &ENDS[..1]);
    let list = told(
        alloc,
        read_line_inside(&mut reader, ENDS[1], &mut Tally::new()),
    )?;
    let behind = told(alloc, finish_inside(reader))?;
    format!(in alloc; "{list}, {behind}")
}

/// What is held where a list is gone on in from its join `k`, by a reader of its own lines, to its end or behind it. Each line that stays or is read is counted.
fn inside_told(
    rt: &impl Abort,
    alloc: Global,
    entities: &Entities,
    found: &Found,
    k: usize,
    own: &[&'static str],
    ends: bool,
) -> Result<String, AllocError> {
    let at = line_of(found, k);
    let text = own.get(at).unwrap_or(&"");
    let mut count = Tally::new();
    match inside(alloc, entities, found, k, text, &mut count)? {
        Some(reader) => {
            assert!(rt; is_inside(&reader, &count, at));
            let later = own.get(at.saturating_add(1)..).unwrap_or(&[]);
            if ends {
                told_ended(alloc, reader, later)
            } else {
                told_inside(alloc, reader, later)
            }
        }
        None => String::from_str(alloc, "nothing"),
    }
}

/// The same where all lines are read.
fn wanted(
    alloc: Global,
    entities: &Entities,
    own: &[&'static str],
    ends: bool,
) -> Result<String, AllocError> {
    if !ends {
        return whole(alloc, entities, own, &[]);
    }
    let list = whole(alloc, entities, own, &ENDS[..1])?;
    let behind = whole(alloc, entities, own, &ENDS)?;
    format!(in alloc; "{list}, {behind}")
}

fn check_inside(
    rt: &impl Abort,
    alloc: Global,
    entities: &Entities,
    found: &Found,
    k: usize,
    own: &[&'static str],
    ends: bool,
) -> Result<(), AllocError> {
    let read = inside_told(rt, alloc, entities, found, k, own, ends)?;
    let want = wanted(alloc, entities, own, ends)?;
    assert_eq!(rt; read.as_str(), want.as_str());
    Ok(())
}

/// Goes on inside a list from each of its later items, and answers how many it has.
fn go_on_all(
    rt: &impl Abort,
    alloc: Global,
    entities: &Entities,
    lines: &[&'static str],
) -> Result<usize, AllocError> {
    let Some(found) = last_unit(alloc, entities, lines) else {
        return Ok(0);
    };
    let own = lines.get(found.begin()..).unwrap_or(&[]);
    for k in 0..found.joins().len() {
        check_inside(rt, alloc, entities, &found, k, own, false)?;
        check_inside(rt, alloc, entities, &found, k, own, true)?;
    }
    Ok(found.joins().len())
}

/// Fewer than fifteen lines.
fn more_lines(alloc: Global, seed: &mut u64) -> Result<Vec<&'static str>, AllocError> {
    let mut lines = some_lines(alloc, seed)?;
    push_lines(&mut lines, seed)?;
    Ok(lines)
}

fn go_on_some(
    rt: &impl Abort,
    alloc: Global,
    entities: &Entities,
    seed: &mut u64,
) -> Result<usize, AllocError> {
    let lines = more_lines(alloc, seed)?;
    go_on_all(rt, alloc, entities, &lines)
}

/// A join that is not there is answered by nothing, and nothing is counted.
fn check_nothing(rt: &impl Abort, alloc: Global, entities: &Entities) -> Result<(), Fail> {
    let found = last_unit(alloc, entities, &["- a", "- b"]).ok_or("no unit")?;
    let mut count = Tally::new();
    assert!(rt; inside(alloc, entities, &found, 1, "- b", &mut count)?.is_none());
    assert_eq!(rt; count.lines(), 0);
    Ok(())
}

#[test]
fn lists_are_read_on_from_each_item(rt: HostRuntime) -> Result<(), Fail> {
    let entities = Entities::builtin(rt.alloc())?;
    let mut seed = 5;
    let mut count: usize = 0;
    for _ in 0..2000 {
        count = count.saturating_add(go_on_some(&rt, rt.alloc(), &entities, &mut seed)?);
    }
    check_nothing(&rt, rt.alloc(), &entities)?;
    assert!(rt; count > 500);
    Ok(())
}

/// Lines with those of an old list behind them, some of which are left out, joined with that list as they grow.
fn join_growing(
    rt: &impl Abort,
    alloc: Global,
    entities: &Entities,
    seed: &mut u64,
) -> Result<usize, AllocError> {
    let old = some_lines(alloc, seed)?;
    let mut front = some_lines(alloc, seed)?;
    let mut count: usize = 0;
    for line in &old {
        front.push(*line)?;
        count = count.saturating_add(join_all(rt, alloc, entities, &front, &old)?);
        if next(seed) % 2 == 0 {
            front.pop();
        }
    }
    Ok(count)
}

#[test]
fn joined_lists_are_as_those_read_whole(rt: HostRuntime) -> Result<(), Fail> {
    let entities = Entities::builtin(rt.alloc())?;
    let mut seed = 11;
    let mut count: usize = 0;
    for _ in 0..2000 {
        count = count.saturating_add(join_growing(&rt, rt.alloc(), &entities, &mut seed)?);
    }
    assert!(rt; count > 500);
    Ok(())
}
