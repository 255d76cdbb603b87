//! Texts that are made to be slow.

use crate::digest::Digest;
use crate::maker::Maker;
use crate::pages::Site;
use anyhow::Result;
use std::alloc::Global;

/// So many texts of 50 to 200 KB, of ten kinds by turns.
pub fn hostile(
    alloc: Global,
    count: u64,
    maker: &mut Maker<'_>,
    digest: &mut Digest,
) -> Result<()> {
    let site = Site::new(alloc, maker)?;
    let mut text = String::new(alloc);
    for i in 0..count {
        text.clear();
        let size = maker.size(50_000, 200_000);
        for _ in 0..size {
            if text.len() >= size {
                break;
            }
            part(i % 10, maker, &mut text)?;
        }
        site.render(alloc, &text, digest);
    }
    Ok(())
}

/// A part of a text of this kind.
fn part(kind: u64, maker: &mut Maker<'_>, out: &mut String) -> Result<()> {
    match kind {
        0 => quotes(maker, out),
        1 => items(maker, out),
        2 => row("[", "", maker, out),
        3 => row("<", "a ", maker, out),
        4 => row("*a", "_b", maker, out),
        5 => ticks(maker, out),
        6 => cells(maker, out),
        7 => row("![a](<b", "[c][d]", maker, out),
        8 => row("**a *b ", "c** d* ~~e~~ ", maker, out),
        _ => row("&amp; &#35;", "\\& &nope; <!-- ", maker, out),
    }
}

/// Lines that lie 40 to 60 block quotes deep.
fn quotes(maker: &mut Maker<'_>, out: &mut String) -> Result<()> {
    let depth = maker.chance.between(40, 61);
    for _ in 0..maker.chance.between(1, 20) {
        for _ in 0..depth {
            out.push('>')?;
        }
        maker.line(" ", out)?;
    }
    Ok(())
}

/// Items that lie up to 60 deep in one another.
fn items(maker: &mut Maker<'_>, out: &mut String) -> Result<()> {
    let deepest = maker.chance.between(10, 60);
    for depth in 0..deepest {
        for _ in 0..depth {
            out.push_str("  ")?;
        }
        out.push_str("- ")?;
        out.push_str(maker.title())?;
        out.push('\n')?;
    }
    Ok(())
}

/// A long row of two parts by chance, and a line's end.
fn row(one: &str, two: &str, maker: &mut Maker<'_>, out: &mut String) -> Result<()> {
    for _ in 0..maker.chance.between(500, 20_000) {
        let part = maker.chance.pick(&[one, one, two]);
        out.push_str(part)?;
    }
    out.push_str("x\n\n")?;
    Ok(())
}

/// Runs of backticks of many lengths.
fn ticks(maker: &mut Maker<'_>, out: &mut String) -> Result<()> {
    for _ in 0..maker.chance.between(50, 500) {
        for _ in 0..maker.chance.between(1, 120) {
            out.push('`')?;
        }
        out.push('a')?;
    }
    out.push_str("\n\n")?;
    Ok(())
}

/// A table with hundreds of columns.
fn cells(maker: &mut Maker<'_>, out: &mut String) -> Result<()> {
    let columns = maker.chance.between(100, 1_000);
    for line in 0..6 {
        for _ in 0..columns {
            let cell = if line == 1 {
                "|-"
            } else {
                maker.chance.pick(&["|a", "| *b*", "|", "|\\|"])
            };
            out.push_str(cell)?;
        }
        out.push_str("|\n")?;
    }
    out.push('\n')?;
    Ok(())
}
