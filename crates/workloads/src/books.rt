//! Long texts.

use crate::digest::Digest;
use crate::maker::Maker;
use crate::pages::Site;
use anyhow::Result;
use std::alloc::Global;

/// So many texts of 1 to 4 MB, of four kinds by turns.
pub fn books(alloc: Global, count: u64, maker: &mut Maker<'_>, digest: &mut Digest) -> Result<()> {
    let site = Site::new(alloc, maker)?;
    let mut text = String::new(alloc);
    for i in 0..count {
        text.clear();
        let size = maker.size(1_000_000, 4_000_000);
        match i % 4 {
            0 => manual(maker, size, &mut text)?,
            1 => log(maker, size, &mut text)?,
            2 => glossary(maker, size, &mut text)?,
            _ => maker.sections(size, &mut text)?,
        }
        site.render(alloc, &text, digest);
    }
    Ok(())
}

/// A manual of functions: each has a heading, a few words, a table of its values, a list and an example.
fn manual(maker: &mut Maker<'_>, size: usize, out: &mut String) -> Result<()> {
    for i in 0..size {
        if out.len() >= size {
            break;
        }
        write!(out, "### `function_{i}`\n\n")?;
        maker.paragraph(2, out)?;
        out.push('\n')?;
        let rows = maker.chance.between(2, 12);
        maker.table(rows, out)?;
        out.push('\n')?;
        let items = maker.chance.between(2, 20);
        maker.list(items, out)?;
        out.push('\n')?;
        maker.fence(out)?;
        out.push('\n')?;
    }
    Ok(())
}

/// A log of changes: one list of thousands of items.
fn log(maker: &mut Maker<'_>, size: usize, out: &mut String) -> Result<()> {
    out.push_str("# Changes\n\n")?;
    for i in 0..size {
        if out.len() >= size {
            break;
        }
        write!(out, "- **part {i}**: ")?;
        maker.line("", out)?;
        if maker.chance.once_in(5) {
            maker.line("  - ", out)?;
            maker.line("  - ", out)?;
        }
    }
    Ok(())
}

/// A glossary: paragraphs that name each other's labels, and a definition for each of them at the end.
fn glossary(maker: &mut Maker<'_>, size: usize, out: &mut String) -> Result<()> {
    let entries = size / 230;
    for i in 0..entries {
        let one = maker.chance.below(entries);
        let two = maker.chance.below(entries);
        write!(
            out,
            "**Entry {i}** stands beside [entry {one}] and [that one][Entry  {two}]. "
        )?;
        maker.paragraph(1, out)?;
        out.push('\n')?;
    }
    for i in 0..entries {
        write!(out, "[entry {i}]: #entry-{i} \"Entry {i}\"\n")?;
    }
    Ok(())
}
