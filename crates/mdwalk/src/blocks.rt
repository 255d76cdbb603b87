//! The edges of blocks.

ghost use Rattle.std.specs.Prelude.{◌≡◌, ◌++◌, OnOk};
ghost use Rattle.mdblock.specs.BlockView.{block_view, blocks_view, item_view, items_view};
ghost use Rattle.mdwalk.specs.TreeEdges.{around, block_node, blocks_edges, inside_block, item_node, items_edges};
ghost use Rattle.mdwalk.specs.EdgeView.{edges_view};

use crate::inlines::push_text;
use crate::nodes::{Edge, Node, enter, leave};
use crate::tables::push_table;
use mdblock::{Block, Item};
use mdinline::Parsed;
use mdtext::NoMemory;

#[cycle(block)]
pub(crate) fn push_blocks<'a>(
    blocks: &'a [Block],
    texts: &'a [Parsed],
    edges: &mut Vec<Edge<'a>>,
) -> Result<(), NoMemory>
    ensures { OnOk result (edges_view edges.new.items ≡ edges_view edges.old.items ++ blocks_edges texts.now (blocks_view blocks.now)) }
{
    for block in blocks {
        push_block(block, texts, edges)?;
    }
    Ok(())
}

#[cycle(block)]
fn push_block<'a>(
    block: &'a Block,
    texts: &'a [Parsed],
    edges: &mut Vec<Edge<'a>>,
) -> Result<(), NoMemory>
    ensures { OnOk result (edges_view edges.new.items ≡ edges_view edges.old.items
        ++ around (block_node (block_view block.now)) (inside_block texts.now (block_view block.now))) }
{
    enter(Node::Block(block), edges)?;
    push_inside(block, texts, edges)?;
    leave(Node::Block(block), edges)
}

#[cycle(block)]
fn push_inside<'a>(
    block: &'a Block,
    texts: &'a [Parsed],
    edges: &mut Vec<Edge<'a>>,
) -> Result<(), NoMemory>
    ensures { OnOk result (edges_view edges.new.items ≡ edges_view edges.old.items ++ inside_block texts.now (block_view block.now)) }
{
    match block {
        Block::Paragraph { text, .. } => push_text(*text, texts, edges),
        Block::Heading { text, .. } => push_text(*text, texts, edges),
        Block::Break | Block::Code { .. } | Block::Html(_) => Ok(()),
        Block::Quote(inner) => push_blocks(inner, texts, edges),
        Block::List { items, .. } => push_items(items, texts, edges),
        Block::Table { head, rows, .. } => push_table(head, rows, texts, edges),
    }
}

#[cycle(block)]
fn push_items<'a>(
    items: &'a [Item],
    texts: &'a [Parsed],
    edges: &mut Vec<Edge<'a>>,
) -> Result<(), NoMemory>
    ensures { OnOk result (edges_view edges.new.items ≡ edges_view edges.old.items ++ items_edges texts.now (items_view items.now)) }
{
    for item in items {
        push_item(item, texts, edges)?;
    }
    Ok(())
}

#[cycle(block)]
fn push_item<'a>(
    item: &'a Item,
    texts: &'a [Parsed],
    edges: &mut Vec<Edge<'a>>,
) -> Result<(), NoMemory>
    ensures { OnOk result (edges_view edges.new.items ≡ edges_view edges.old.items
        ++ around (item_node (item_view item.now)) (blocks_edges texts.now (item_view item.now))) }
{
    enter(Node::Item(item), edges)?;
    push_blocks(&item.blocks, texts, edges)?;
    leave(Node::Item(item), edges)
}
