//! `embed`: the engine in a program of one's own.
#![tactic(auto)]

mod contents;
mod page;
mod preview;

use crate::contents::show_contents;
use crate::page::show_page;
use crate::preview::show_edits;
use anyhow::Result;

fn main(rt: HostRuntime) -> Result<()> {
    show_page(&rt)?;
    show_edits(&rt)?;
    show_contents(&rt)
}
