//! All that a preview shows.

use mdview::Preview;
use std::alloc::{AllocError, Global};

/// Whether two previews show the same.
pub fn show_the_same(alloc: Global, one: &Preview, other: &Preview) -> Result<bool, AllocError> {
    let one = shown(alloc, one)?;
    let other = shown(alloc, other)?;
    Ok(one.as_str() == other.as_str())
}

/// All that the calls of a preview lend: its lines, one after the other and by number, its prelude, its units, each with all that is read of it, and what is past its end.
fn shown(alloc: Global, preview: &Preview) -> Result<String, AllocError> {
    let mut out = String::with_capacity(alloc, 1 << 13)?;
    show(preview, &mut out)?;
    Ok(out)
}

fn show(preview: &Preview, out: &mut String) -> Result<(), AllocError> {
    write!(
        out,
        "{} {} {:?}\n",
        preview.len(),
        preview.units(),
        preview.options()
    )?;
    write!(out, "{:?}\n", preview.entities().get("auml"))?;
    for line in preview.lines() {
        write!(out, "{line:?}\n")?;
    }
    for number in 0..preview.len() {
        write!(out, "{number} {:?}\n", preview.line(number))?;
    }
    for line in preview.prelude() {
        write!(out, "prelude {line:?}\n")?;
    }
    for line in preview.definitions().lines() {
        write!(out, "definitions {line:?}\n")?;
    }
    for piece in preview.pieces() {
        write!(out, "{piece:?}\n")?;
    }
    write!(out, "{:?}\n", preview.line(preview.len()))?;
    for number in 0..preview.units() {
        show_unit(preview, number, out)?;
    }
    show_unit(preview, preview.units(), out)
}

/// What is read of the unit of this number.
fn show_unit(preview: &Preview, number: usize, out: &mut String) -> Result<(), AllocError> {
    let first = preview.first_line(number);
    let piece = preview.piece(number);
    write!(out, "{number} {first:?} {piece:?}\n")?;
    write!(
        out,
        "{:?}\n{:?}\n",
        preview.unit(number),
        preview.inlines(number)
    )?;
    match preview.walk(number)? {
        Some(walk) => write!(out, "{} nodes\n", walk.count() / 2),
        None => write!(out, "no walk\n"),
    }
}
