//! A preview held as an editor's pane does.

use anyhow::Result;
use mdtext::Tally;
use mdview::{Entities, Options, Preview};

/// Tells a preview a few edits, and prints what changed.
pub fn show_edits(rt: &HostRuntime) -> Result<()> {
    let alloc = rt.alloc();
    let mut preview = Preview::new(alloc, Entities::builtin(alloc)?, Options::plain());
    let page = [
        "# A day at sea",
        "",
        "We left with [Ann].",
        "",
        "A gull followed us.",
    ];
    tell(rt, &mut preview, 0, 0, &page)?;
    tell(rt, &mut preview, 0, 1, &["## A day at sea"])?;
    tell(rt, &mut preview, 5, 0, &["", "[ann]: /ann"])?;
    tell(rt, &mut preview, 9, 1, &[])?;
    println!(rt; "{} lines, {} blocks", preview.len(), preview.units())?;
    Ok(())
}

/// Replaces `del` lines from line `at` on, and prints each piece of HTML that is new, or why the edit is refused.
fn tell(rt: &impl Print, preview: &mut Preview, at: usize, del: usize, add: &[&str]) -> Result<()> {
    let patch = match preview.edit(at, del, add, &mut Tally::new()) {
        Ok(patch) => patch,
        Err(fault) => {
            println!(rt; "refused: {fault}")?;
            return Ok(());
        }
    };
    println!(rt;
        "from piece {} on {} went and {} came",
        patch.first, patch.removed, patch.added
    )?;
    for (number, html) in patch.pieces(preview)? {
        println!(rt; "piece {number}:\n{html}")?;
    }
    Ok(())
}
