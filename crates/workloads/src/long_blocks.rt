//! A writer at work in one long block, and on labels that many blocks name.

use crate::digest::Digest;
use crate::editing::Editor;
use crate::maker::Maker;
use anyhow::Result;
use std::alloc::Global;

/// How many lines the long block of this number has: the same whatever the seed.
fn lines_of(i: u64) -> usize {
    match i % 5 {
        0 => 2_000,
        1 => 12_000,
        2 => 5_000,
        3 => 18_000,
        _ => 8_000,
    }
}

/// How many blocks name the labels: the same whatever the seed.
fn named_of(i: u64) -> usize {
    if i % 12 == 5 { 18_000 } else { 1_200 }
}

/// So many texts, of six kinds by turns, each opened and then edited at places all over it.
pub fn long_blocks(
    alloc: Global,
    count: u64,
    maker: &mut Maker<'_>,
    digest: &mut Digest,
) -> Result<()> {
    for i in 0..count {
        let mut text = String::new(alloc);
        if i % 6 == 5 {
            let blocks = maker.share_of(named_of(i));
            named(blocks, maker, &mut text)?;
            let mut editor = Editor::open(alloc, &text, digest)?;
            relabel(&mut editor, digest)?;
        } else {
            let lines = maker.share_of(lines_of(i));
            block(i % 6, lines, i % 12 == 1, maker, &mut text)?;
            let mut editor = Editor::open(alloc, &text, digest)?;
            for _ in 0..4 {
                let at = maker.chance.between(0, editor.len());
                editor.type_letters(at, 3, digest)?;
            }
        }
    }
    Ok(())
}

/// One block of so many lines, more or less.
fn block(
    kind: u64,
    lines: usize,
    is_loose: bool,
    maker: &mut Maker<'_>,
    out: &mut String,
) -> Result<()> {
    match kind {
        0 => {
            for _ in 0..lines {
                let mark = maker.chance.pick(&["- [ ] ", "- [x] "]);
                out.push_str(mark)?;
                out.push_str(maker.title())?;
                out.push('\n')?;
            }
        }
        1 => maker.list_of(lines / 2, is_loose, out)?,
        2 => maker.table(lines, out)?,
        3 => {
            out.push_str("```\n")?;
            for _ in 0..lines {
                maker.code(out)?;
            }
        }
        _ => {
            for _ in 0..lines {
                maker.line("", out)?;
            }
        }
    }
    Ok(())
}

/// A definition, and so many paragraphs of which each names its label.
fn named(blocks: usize, maker: &mut Maker<'_>, out: &mut String) -> Result<()> {
    out.push_str("[the guide]: /guide\n\n")?;
    for _ in 0..blocks {
        maker.line("See [the guide] and [The other guide][]. ", out)?;
        out.push('\n')?;
    }
    Ok(())
}

/// The definition leads elsewhere, goes, and comes back; the prelude has another label, and then none.
fn relabel(editor: &mut Editor, digest: &mut Digest) -> Result<()> {
    editor.edit(0, 1, &["[the guide]: /guides/new"], digest)?;
    editor.edit(0, 1, &[""], digest)?;
    editor.set_prelude(&["[the other guide]: /others 'More'"], digest)?;
    editor.edit(0, 1, &["[the guide]: /guides/newest"], digest)?;
    editor.set_prelude(&[], digest)
}
