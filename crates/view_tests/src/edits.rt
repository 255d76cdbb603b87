//! Edits by chance, beside a preview of the whole text made anew, by all that a preview tells.

use crate::calls::{edit, preview_of, set_prelude};
use mdtext::Tally;
use mdview::{Lines, Preview};
use std::alloc::{AllocError, Global};
use std::process::Abort;
use std::test::Fail;

/// Lines of which each kind of block can begin, go on and end, and that change where labels lead.
const LINES: [&str; 24] = [
    "",
    "",
    "",
    "a",
    "b *c* [k]",
    "[m][k] d",
    "# t [m]",
    "---",
    "===",
    "- x [k]",
    "  y",
    "2. z",
    "> q [k]",
    ">",
    "[k]: /u",
    "[m]: /v \"t\"",
    "[k]: /w",
    "```",
    "    i",
    "| a |",
    "| - |",
    "<div>",
    "<!-- x",
    "-->",
];

/// Lines of one bullet list with quotes, definitions, tasks, nests and fences in its items, tight and loose.
const BULLETS: [&str; 16] = [
    "- x [k]",
    "- > q [m]",
    "  > r",
    "  > [k]: /w",
    "  y *c*",
    "",
    "- [k]: /u",
    "  [m]: /v \"t\"",
    "- [ ] s",
    "- - n",
    "  - > p",
    "  ```",
    "  # h [k]",
    "z",
    "-",
    "- x [k]",
];

/// Lines of one ordered list, in whose items stand other blocks, definitions and labels.
const NUMBERS: [&str; 16] = [
    "1. x [k]",
    "7. > q [m]",
    "   > r",
    "   > [k]: /w",
    "   y *c*",
    "",
    "2. [k]: /u",
    "   [m]: /v \"t\"",
    "3. [ ] s",
    "4. 1. n",
    "   2. > p",
    "   ```",
    "   # h [k]",
    "z",
    "5.",
    "12. x [k]",
];

/// Definitions of the labels that the lines ask for.
const DEFINITIONS: [&str; 6] = [
    "",
    "[k]: /p",
    "[m]: /q \"t\"",
    "[k]: /r",
    "[x]: /s",
    "[m]: /v \"t\"",
];

/// The next number of a sequence that looks random.
fn next(seed: &mut u64) -> usize {
    *seed = seed
        .wrapping_mul(6_364_136_223_846_793_005)
        .wrapping_add(1_442_695_040_888_963_407);
    (*seed >> 33) as usize
}

fn one_of(lines: &[&'static str], seed: &mut u64) -> &'static str {
    match lines.len() {
        0 => "",
        count => lines.get(next(seed) % count).copied().unwrap_or(""),
    }
}

/// Fewer than four lines.
fn some_of(
    alloc: Global,
    lines: &[&'static str],
    seed: &mut u64,
) -> Result<Vec<&'static str>, AllocError> {
    let mut some = Vec::new(alloc);
    for _ in 0..next(seed) % 4 {
        some.push(one_of(lines, seed))?;
    }
    Ok(some)
}

/// The lines with some replaced.
fn replaced(
    alloc: Global,
    lines: &[&'static str],
    at: usize,
    del: usize,
    add: &[&'static str],
) -> Result<Vec<&'static str>, AllocError> {
    let mut new = Vec::new(alloc);
    new.extend_from_slice(lines.get(..at).unwrap_or(&[]))?;
    new.extend_from_slice(add)?;
    new.extend_from_slice(lines.get(at.saturating_add(del)..).unwrap_or(&[]))?;
    Ok(new)
}

fn tell_unit(preview: &Preview, i: usize, out: &mut String) -> Result<(), AllocError> {
    let (begin, piece) = (preview.first_line(i), preview.piece(i));
    let (unit, inlines) = (preview.unit(i), preview.inlines(i));
    write!(out, "{begin:?} {piece:?} {unit:?} {inlines:?}\n")
}

fn tell_all(lines: Lines<'_>, out: &mut String) -> Result<(), AllocError> {
    for line in lines {
        write!(out, "({line})")?;
    }
    Ok(())
}

fn tell_lines(preview: &Preview, out: &mut String) -> Result<(), AllocError> {
    for i in 0..preview.len() {
        write!(out, "{:?}", preview.line(i))?;
    }
    Ok(())
}

fn tell_pieces(preview: &Preview, out: &mut String) -> Result<(), AllocError> {
    for piece in preview.pieces() {
        out.push_str(piece)?;
    }
    Ok(())
}

fn tell_units(preview: &Preview, out: &mut String) -> Result<(), AllocError> {
    for i in 0..preview.units() {
        tell_unit(preview, i, out)?;
    }
    Ok(())
}

fn tell(preview: &Preview, out: &mut String) -> Result<(), AllocError> {
    let (lines, units) = (preview.len(), preview.units());
    write!(out, "{lines} {units}\n")?;
    tell_all(preview.prelude(), out)?;
    out.push_str("\n")?;
    tell_all(preview.lines(), out)?;
    tell_lines(preview, out)?;
    tell_pieces(preview, out)?;
    tell_units(preview, out)
}

/// All that a preview tells of what it holds.
fn told(alloc: Global, preview: &Preview) -> Result<String, AllocError> {
    let mut out = String::new(alloc);
    tell(preview, &mut out)?;
    Ok(out)
}

/// A preview, and what it was given.
#[derive(Drop)]
struct Held {
    preview: Preview,
    lines: Vec<&'static str>,
    prelude: Vec<&'static str>,
}

/// A preview of these lines, beside them.
fn begun(alloc: Global, lines: Vec<&'static str>) -> Result<Held, Fail> {
    Ok(Held {
        preview: preview_of(alloc, &lines)?,
        lines,
        prelude: Vec::new(alloc),
    })
}

/// Sets a prelude of some definitions.
fn set_some(alloc: Global, held: &mut Held, seed: &mut u64) -> Result<(), Fail> {
    held.prelude = some_of(alloc, &DEFINITIONS, seed)?;
    set_prelude(&mut held.preview, &held.prelude, &mut Tally::new())?;
    Ok(())
}

/// Replaces some lines by some of these. Answers whether no more lines were read than the text has.
fn edit_some(
    alloc: Global,
    held: &mut Held,
    of: &[&'static str],
    seed: &mut u64,
) -> Result<bool, Fail> {
    let len = held.lines.len();
    let at = next(seed) % len.saturating_add(1);
    let del = (next(seed) % 4).min(len.saturating_sub(at));
    let add = some_of(alloc, of, seed)?;
    let mut count = Tally::new();
    edit(&mut held.preview, at, del, &add, &mut count)?;
    held.lines = replaced(alloc, &held.lines, at, del, &add)?;
    Ok(count.lines() <= held.lines.len() as u64)
}

/// Compares all that both tell.
fn compare(
    rt: &impl Abort,
    alloc: Global,
    one: &Preview,
    other: &Preview,
) -> Result<(), AllocError> {
    let told_of_one = told(alloc, one)?;
    let told_of_other = told(alloc, other)?;
    assert_eq!(rt; told_of_one.as_str(), told_of_other.as_str());
    Ok(())
}

/// A preview of what was given, made anew.
fn made_anew(alloc: Global, held: &Held) -> Result<Preview, Fail> {
    let mut anew = preview_of(alloc, &held.lines)?;
    set_prelude(&mut anew, &held.prelude, &mut Tally::new())?;
    Ok(anew)
}

/// Compares a preview with one of the same lines that is made anew.
fn compare_anew(rt: &impl Abort, alloc: Global, held: &Held) -> Result<(), Fail> {
    let anew = made_anew(alloc, held)?;
    compare(rt, alloc, &held.preview, &anew)?;
    Ok(())
}

/// An edit, with another prelude before each eighth.
fn try_edit(
    rt: &impl Abort,
    alloc: Global,
    held: &mut Held,
    of: &[&'static str],
    step: usize,
    seed: &mut u64,
) -> Result<(), Fail> {
    if step % 8 == 0 {
        set_some(alloc, held, seed)?;
    }
    assert!(rt; edit_some(alloc, held, of, seed)?);
    Ok(())
}

/// A thousand edits, with a comparison behind each.
fn try_edits(
    rt: &impl Abort,
    alloc: Global,
    mut held: Held,
    of: &[&'static str],
    mut seed: u64,
) -> Result<(), Fail> {
    for step in 0..1000 {
        try_edit(rt, alloc, &mut held, of, step, &mut seed)?;
        compare_anew(rt, alloc, &held)?;
    }
    Ok(())
}

/// Lines that are read alone, with a paragraph behind two of three.
fn push_parted(lines: &mut Vec<&'static str>, i: usize, seed: &mut u64) -> Result<(), AllocError> {
    lines.push("")?;
    lines.push(one_of(&LINES, seed))?;
    lines.push(if i % 3 == 0 {
        one_of(&LINES, seed)
    } else {
        "z"
    })?;
    Ok(())
}

fn parted(alloc: Global, seed: &mut u64) -> Result<Held, Fail> {
    let mut lines: Vec<&'static str> = Vec::new(alloc);
    for i in 0..300 {
        push_parted(&mut lines, i, seed)?;
    }
    begun(alloc, lines)
}

#[test]
fn edits_leave_what_the_whole_text_gives(rt: HostRuntime) -> Result<(), Fail> {
    let mut seed = 41;
    let held = parted(rt.alloc(), &mut seed)?;
    try_edits(&rt, rt.alloc(), held, &LINES, seed)
}

/// Forty lines of these.
fn forty(alloc: Global, of: &[&'static str], seed: &mut u64) -> Result<Held, Fail> {
    let mut lines = Vec::new(alloc);
    for _ in 0..40 {
        lines.push(one_of(of, seed))?;
    }
    begun(alloc, lines)
}

#[test]
fn edits_of_one_bullet_list_leave_what_the_whole_text_gives(rt: HostRuntime) -> Result<(), Fail> {
    let mut seed = 43;
    let held = forty(rt.alloc(), &BULLETS, &mut seed)?;
    try_edits(&rt, rt.alloc(), held, &BULLETS, seed)
}

#[test]
fn edits_of_one_ordered_list_leave_what_the_whole_text_gives(rt: HostRuntime) -> Result<(), Fail> {
    let mut seed = 47;
    let held = forty(rt.alloc(), &NUMBERS, &mut seed)?;
    try_edits(&rt, rt.alloc(), held, &NUMBERS, seed)
}
