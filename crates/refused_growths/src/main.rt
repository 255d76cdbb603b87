//! `refused_growths`: makes the calls that take memory, and prints what they answer. Where a growth of memory is refused inside a call, it says so and whether
//! all is as before, and makes the call again: its answer must then be the one that it always is. `tools/memory.py` refuses each growth in turn.
#![tactic(auto)]

mod blocks;
mod changes;
mod pages;
mod reports;
mod scripts;
mod texts;
mod trees;
mod views;

use anyhow::Result;
use std::alloc::{AllocError, Global};

fn main(rt: HostRuntime) -> Result<()> {
    // A growth that is refused outside of the calls is asked for again.
    let said = match said_of_calls(rt.alloc()) {
        Ok(said) => said,
        Err(_) => said_of_calls(rt.alloc())?,
    };
    print!(rt; "{said}")?;
    Ok(())
}

/// What is said of all calls.
fn said_of_calls(alloc: Global) -> Result<String, AllocError> {
    let mut said = String::new(alloc);
    texts::try_texts(alloc, &mut said)?;
    blocks::try_blocks(alloc, &mut said)?;
    trees::try_trees(alloc, &mut said)?;
    pages::try_pages(alloc, &mut said)?;
    scripts::try_scripts(alloc, &mut said)?;
    Ok(said)
}
