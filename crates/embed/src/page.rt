//! A Markdown file turned into HTML.

use anyhow::Result;
use mdbatch::{Prelude, to_html};
use mdview::{Entities, Options};
use std::fs;

/// Prints the HTML of `page.md`.
pub fn show_page(rt: &HostRuntime) -> Result<()> {
    let alloc = rt.alloc();
    let text = fs::read_to_string(rt, "page.md")?;
    let entities = Entities::builtin(alloc)?;
    let none = Prelude::empty(alloc);
    match to_html(alloc, &text, &entities, &Options::plain(), &none) {
        Ok(html) => print!(rt; "{html}")?,
        Err(fault) => println!(rt; "page.md is refused: {fault}")?,
    }
    Ok(())
}
