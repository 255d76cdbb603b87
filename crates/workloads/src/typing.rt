//! A writer at work in an editor.

use crate::digest::Digest;
use crate::editing::Editor;
use crate::maker::Maker;
use anyhow::Result;
use std::alloc::Global;

/// So many texts of 10 KB to 4 MB, each opened and then edited as writers do.
pub fn typing(alloc: Global, count: u64, maker: &mut Maker<'_>, digest: &mut Digest) -> Result<()> {
    for _ in 0..count {
        let mut text = String::new(alloc);
        let size = maker.size(10_000, 4_000_000);
        maker.guides(40, &mut text)?;
        text.push('\n')?;
        maker.sections(size, &mut text)?;
        let mut editor = Editor::open(alloc, &text, digest)?;
        for _ in 0..40 {
            stretch(alloc, &mut editor, maker, digest)?;
        }
    }
    Ok(())
}

/// A stretch of work at one place of the text.
fn stretch(
    alloc: Global,
    editor: &mut Editor,
    maker: &mut Maker<'_>,
    digest: &mut Digest,
) -> Result<()> {
    let at = maker.chance.between(0, editor.len());
    match maker.chance.below(40) {
        0..22 => {
            let letters = maker.chance.between(3, 30);
            editor.type_letters(at, letters, digest)
        }
        22..29 => {
            editor.edit(at, 0, &["", ""], digest)?;
            editor.type_letters(at.saturating_add(1), 12, digest)
        }
        29..33 => {
            editor.edit(at, 0, &["- an item"], digest)?;
            editor.type_letters(at, 8, digest)
        }
        // The line goes three lines down.
        33..35 => editor.move_line(at, at.saturating_add(3), digest),
        35..37 => {
            editor.edit(at, 0, &["# A part", ""], digest)?;
            editor.edit(at, 1, &["## A part"], digest)
        }
        37 => {
            editor.edit(at, 0, &["```"], digest)?;
            editor.edit(at, 1, &[], digest)
        }
        _ => pasted(alloc, editor, at, maker, digest),
    }
}

/// 20 to 500 lines come, and go again.
fn pasted(
    alloc: Global,
    editor: &mut Editor,
    at: usize,
    maker: &mut Maker<'_>,
    digest: &mut Digest,
) -> Result<()> {
    let mut text = String::new(alloc);
    let size = maker.chance.size(1_000, 25_000);
    maker.sections(size, &mut text)?;
    editor.paste(at, &text, digest)
}
