//! A writer who rearranges: lines put in, taken out, indented, split, moved, pasted and undone, in a text and in long blocks.

use crate::digest::Digest;
use crate::editing::Editor;
use crate::maker::Maker;
use anyhow::Result;
use std::alloc::Global;

/// How many bytes the text has, and how many lines a long block: the same whatever the seed.
const BYTES: usize = 200_000;

const LINES: usize = 3_000;

/// So many texts, of five kinds by turns, each opened once and then changed so often that opening is a small part.
pub fn rework(alloc: Global, count: u64, maker: &mut Maker<'_>, digest: &mut Digest) -> Result<()> {
    for i in 0..count {
        let mut text = String::new(alloc);
        shape(i % 5, maker, &mut text)?;
        let mut editor = Editor::open(alloc, &text, digest)?;
        let changes: u64 = if i % 5 == 0 { 450 } else { 63 };
        for kind in 0..changes {
            change(kind % 9, alloc, &mut editor, maker, digest)?;
        }
    }
    Ok(())
}

/// A text with definitions, or a long block: tasks, a list whose items have paragraphs and items, a table, a numbered list.
fn shape(kind: u64, maker: &mut Maker<'_>, out: &mut String) -> Result<()> {
    let lines = maker.share_of(LINES);
    match kind {
        0 => {
            maker.guides(40, out)?;
            out.push('\n')?;
            let size = maker.share_of(BYTES);
            maker.sections(size, out)
        }
        1 => {
            for _ in 0..lines {
                let mark = maker.chance.pick(&["- [ ] ", "- [x] "]);
                maker.line(mark, out)?;
            }
            Ok(())
        }
        2 => maker.list_of(lines / 4, true, out),
        3 => maker.table(lines, out),
        _ => maker.numbered(lines, out),
    }
}

/// A change of this kind at a place by chance.
fn change(
    kind: u64,
    alloc: Global,
    editor: &mut Editor,
    maker: &mut Maker<'_>,
    digest: &mut Digest,
) -> Result<()> {
    let at = maker.chance.between(0, editor.len());
    let line = editor.line(at)?;
    match kind {
        0 => editor.edit(at, 0, &[&line], digest),
        1 => editor.edit(at, 1, &[], digest),
        2 => {
            let mut deeper = String::from_str(alloc, "  ")?;
            deeper.push_str(&line)?;
            editor.edit(at, 1, &[&deeper], digest)
        }
        3 => {
            let higher = line.strip_prefix("  ").unwrap_or(&line);
            editor.edit(at, 1, &[higher], digest)
        }
        4 => {
            let (front, rest) = line.rsplit_once(' ').unwrap_or((&line, ""));
            editor.edit(at, 1, &[front, rest], digest)
        }
        5 => {
            let (front, rest) = line.split_once(' ').unwrap_or((&line, ""));
            let word = maker.title();
            let changed = format!(in alloc; "{front} *{word}* {rest}")?;
            editor.edit(at, 1, &[&changed], digest)
        }
        // The line goes up.
        6 => {
            let to = maker.chance.between(0, at);
            editor.move_line(at, to, digest)
        }
        7 => {
            editor.edit(at, 0, &[""], digest)?;
            editor.edit(at, 1, &[], digest)
        }
        _ => pasted(alloc, editor, at, maker, digest),
    }
}

/// Five to sixty lines of the text come once more at another place, and go again.
fn pasted(
    alloc: Global,
    editor: &mut Editor,
    at: usize,
    maker: &mut Maker<'_>,
    digest: &mut Digest,
) -> Result<()> {
    let from = maker.chance.between(0, editor.len());
    let count = maker.chance.between(5, 61);
    let mut text = String::new(alloc);
    for i in 0..count {
        let line = editor.line(from.saturating_add(i))?;
        text.push_str(&line)?;
        text.push('\n')?;
    }
    editor.paste(at, &text, digest)
}
