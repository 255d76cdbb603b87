//! The open blocks: each level holds the blocks that are over in it, and the one that is still open.

ghost use Rattle.std.specs.Prelude.{◌≡◌, ◌+◌, ℕ, IfErr, IfOk, OnErr};
ghost use Rattle.blockspec.specs.LineSummary.{no_summary};
ghost use Rattle.mdblock.specs.declared.faults.LineFault.TheVariants.{TooDeep};
ghost use Rattle.mdblock.specs.held.HeldLevel.{StandsFor, EndsIn, is_front, is_shut};
ghost use Rattle.mdblock.specs.held.LevelSteps.{IsAllOver, IsEmpty};
ghost use Rattle.mdblock.specs.held.OpenPositions.{LevelIn};
ghost use Rattle.mdtext.specs.EntityTable.{EntityTable};

pub(crate) mod beginnings;
mod blank_lines;
mod continuations;
mod ends;
mod leaf_lines;
mod reading;

use crate::block_starts::BlockStart;
use crate::blocks::Block;
use crate::container::lists::OpenList;
use crate::faults::LineFault;
use crate::leaf::Leaf;
use mdscan::Marker;
use std::alloc::Global;

/// The blocks of a list of lines, the last of which may go on.
#[cycle(level)]
#[derive(Drop)]
pub(crate) struct Level {
    over: Vec<Block>,
    last: OpenBlock,
    /// Whether these are the blocks of a list item.
    in_item: bool,
    /// Whether a block has begun here, or a paragraph of definitions alone.
    begun: bool,
    /// Whether the last line was blank, and no content of fenced code or an HTML block.
    blank: bool,
    /// Whether such a line parts two of the blocks.
    pub(crate) spaced: bool,
}

/// The block that may go on.
#[cycle(level)]
#[derive(Drop)]
enum OpenBlock {
    Shut,
    Leaf(Leaf),
    Quote(Box<Level>),
    List(Box<Level>, OpenList),
}

/// How a line continues the open block, or an open list.
#[derive(Clone, Copy)]
pub(crate) enum Continuation {
    /// A line of the leaf, or a blank line of the open item.
    Matched,
    /// An underline, which makes a heading of this level of the open paragraph (CommonMark 4.3).
    Underlines(u8),
    /// A delimiter row, which makes a table's header row of the open paragraph's last line (GFM Tables (extension)).
    Delimits,
    /// A line of the paragraph that is open in the container, which the line does not match.
    Lazy,
    /// A blank line outside of items. An item that began with one ends there.
    Between,
    /// The first line of the next item.
    Next(Marker),
    /// No line of the block. This is what it begins; nothing, where it is blank or begins a paragraph.
    Outside(Option<BlockStart>),
}

impl Level {
    /// No blocks yet.
    pub(crate) fn new(alloc: Global, in_item: bool) -> Level
        ensures empty { (entities : EntityTable) (at : ℕ) → StandsFor entities at in_item result no_summary }
        ensures over { (entities : EntityTable) (at : ℕ) → IsAllOver entities at in_item result no_summary }
        ensures holds_none { IsEmpty in_item result }
        ensures within { (n : ℕ) → LevelIn n result }
    {
        Level {
            over: Vec::new(alloc),
            last: OpenBlock::Shut,
            in_item,
            begun: false,
            blank: false,
            spaced: false,
        }
    }

    /// Whether no block is open.
    pub(crate) fn is_shut(&self) -> bool
        ensures { result ≡ is_shut self.now.last }
    {
        matches!(self.last, OpenBlock::Shut)
    }

    /// Whether the last block is an open paragraph, or holds one at its end.
    fn ends_in_text(&self) -> bool
        ensures { EndsIn self.now result }
    {
        match &self.last {
            OpenBlock::Shut => false,
            OpenBlock::Leaf(leaf) => leaf.is_text(),
            OpenBlock::Quote(inner) => inner.ends_in_text(),
            OpenBlock::List(inner, list) => list.is_open() && inner.ends_in_text(),
        }
    }

    /// Whether the next block is the first one of a list item.
    fn is_at_front(&self) -> bool
        ensures { result ≡ is_front self.now.in_item self.now.over.items }
    {
        self.in_item && self.over.is_empty()
    }
}

/// One container less may be opened inside.
pub(crate) fn deeper(room: usize) -> Result<usize, LineFault>
    ensures less { IfOk result (λ less. less + 1 ≡ room) }
    ensures fault { IfErr result (λ fault. fault ≡ TooDeep) }
    ensures none { OnErr result (room ≡ 0) }
{
    if room == 0 {
        return Err(LineFault::TooDeep);
    }
    Ok(room - 1)
}
