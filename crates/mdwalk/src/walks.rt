//! The walk, as an iterator.

ghost use Rattle.std.specs.Prelude.{◌≡◌, IfOk};
ghost use Rattle.mdblock.specs.BlockView.{blocks_view};
ghost use Rattle.mdwalk.specs.TreeEdges.{blocks_edges};

use crate::blocks::push_blocks;
use crate::nodes::Edge;
use mdblock::Block;
use mdinline::Parsed;
use mdtext::NoMemory;
use std::alloc::Global;

/// The nodes of some blocks in document order, blocks and inlines alike: each is entered, then all that lies in it is, and then it is left. A node
/// in which nothing lies is left at once. The edges are put in order at the start, so that going on takes no memory.
#[derive(Drop)]
pub struct Walk<'a> {
    edges: Vec<Edge<'a>>,
    at: usize,
}

impl<'a> Walk<'a> {
    ghost use Rattle.mdwalk.specs.EdgeView.{edges_left};

    /// A walk over the blocks of a unit, whose texts read as `texts`. It is refused for want of memory alone.
    pub fn new(
        alloc: Global,
        blocks: &'a [Block],
        texts: &'a [Parsed],
    ) -> Result<Walk<'a>, NoMemory>
        ensures { IfOk result (λ walk. edges_left walk ≡ blocks_edges texts.now (blocks_view blocks.now)) }
    {
        let mut edges = Vec::new(alloc);
        push_blocks(blocks, texts, &mut edges)?;
        Ok(Walk { edges, at: 0 })
    }
}

impl<'a> Iterator for Walk<'a> {
    ghost use Rattle.std.specs.Iterator.{YieldsFirstBy, item_count};
    ghost use Rattle.mdwalk.specs.EdgeView.{edge_view, edges_left};

    type Item = Edge<'a>;

    ghost next_gives = { YieldsFirstBy edge_view edges_left };

    ghost remaining = { item_count edges_left };

    fn next(&mut self) -> Option<Edge<'a>> {
        let edge = *self.edges.get(self.at)?;
        self.at += 1;
        Some(edge)
    }
}
