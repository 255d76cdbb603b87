//! A table of contents, by a walk over the trees.

use anyhow::Result;
use mdtext::{Tally, lines_of};
use mdview::{Block, Edge, Entities, Inline, Node, Options, Preview, Walk};
use std::fs;

/// Prints the headings of `contents.md` as a nested list, each with its line, counted from 1.
pub fn show_contents(rt: &HostRuntime) -> Result<()> {
    let alloc = rt.alloc();
    let text = fs::read_to_string(rt, "contents.md")?;
    let lines = lines_of(alloc, &text)?;
    let mut lent = Vec::with_capacity(alloc, lines.len())?;
    for line in &lines {
        lent.push(line.as_str())?;
    }
    let mut preview = Preview::new(alloc, Entities::builtin(alloc)?, Options::plain());
    if let Err(fault) = preview.edit(0, 0, &lent, &mut Tally::new()) {
        println!(rt; "contents.md is refused: {fault}")?;
        return Ok(());
    }
    for number in 0..preview.units() {
        if let Some(line) = preview.first_line(number)
            && let Some(walk) = preview.walk(number)?
        {
            list_headings(rt, walk, line)?;
        }
    }
    Ok(())
}

/// Prints the headings of a unit that begins in this line, counted from 0: as items of a nested list.
fn list_headings(rt: &impl Print, walk: Walk<'_>, line: usize) -> Result<()> {
    let mut in_heading = false;
    for edge in walk {
        match edge {
            Edge::Enter(Node::Block(Block::Heading { level, .. })) => {
                in_heading = true;
                for _ in 1..*level {
                    print!(rt; "  ")?;
                }
                print!(rt; "- ")?;
            }
            Edge::Leave(Node::Block(Block::Heading { .. })) => {
                in_heading = false;
                println!(rt; " (line {})", line.saturating_add(1))?;
            }
            Edge::Enter(Node::Inline(Inline::Text(text) | Inline::Code(text))) if in_heading => {
                print!(rt; "{text}")?;
            }
            _ => {}
        }
    }
    Ok(())
}
