//! Whether the texts of items have positions one after the other, in document order, as a unit's texts have that was read.

ghost use Rattle.std.specs.Prelude.{◌≡◌, ◌++◌, ◌∷◌, [], IfSome, map, true};
ghost use Rattle.std.specs.List.{flat_map};
ghost use Rattle.mdblock.specs.BlockView.{block_view, blocks_view, item_view, items_view};
ghost use Rattle.mdblock.specs.Fronted.{HasOrder};
ghost use Rattle.mdblock.specs.Copies.{IsBehind, block_positions, blocks_positions, items_positions};

use crate::blocks::{Block, Item};
use crate::splicing::list_items;
use crate::units::Found;

/// Whether the texts of a list's items have positions one after the other, from 0 on, and all are there.
pub(crate) fn has_order(list: &Found) -> bool
    ensures { result ≡ true → HasOrder list.now }
{
    match behind_items(list_items(list.unit().blocks()), 0) {
        Some(end) => end <= list.unit().texts().len(),
        None => false,
    }
}

/// The position behind the texts of items, where these have positions one after the other from `at` on.
#[cycle(block)]
pub(crate) fn behind_items(items: &[Item], at: usize) -> Option<usize>
    ensures { IfSome result (IsBehind at (items_positions (items_view items.now))) }
{
    let mut next = at;
    for item in items {
        next = behind_item(item, next)?;
    }
    Some(next)
}

#[cycle(block)]
fn behind_item(item: &Item, at: usize) -> Option<usize>
    ensures { IfSome result (IsBehind at (blocks_positions (item_view item.now))) }
{
    behind_blocks(&item.blocks, at)
}

#[cycle(block)]
fn behind_blocks(blocks: &[Block], at: usize) -> Option<usize>
    ensures { IfSome result (IsBehind at (blocks_positions (blocks_view blocks.now))) }
{
    let mut next = at;
    for block in blocks {
        next = behind_block(block, next)?;
    }
    Some(next)
}

#[cycle(block)]
fn behind_block(block: &Block, at: usize) -> Option<usize>
    ensures { IfSome result (IsBehind at (block_positions (block_view block.now))) }
{
    match block {
        Block::Paragraph { text, .. } => behind_text(*text, at),
        Block::Heading { text, .. } => behind_text(*text, at),
        Block::Break => Some(at),
        Block::Code { .. } => Some(at),
        Block::Html(_) => Some(at),
        Block::Quote(inner) => behind_blocks(inner, at),
        Block::List { items, .. } => behind_items(items, at),
        Block::Table { head, rows, .. } => behind_table(head, rows, at),
    }
}

fn behind_table(head: &[usize], rows: &[Vec<usize>], at: usize) -> Option<usize>
    ensures { IfSome result (IsBehind at (head.now ++ flat_map (λ row. row) (map (λ row. row.items) rows.now))) }
{
    let mut next = behind_row(head, at)?;
    for row in rows {
        next = behind_row(row, next)?;
    }
    Some(next)
}

fn behind_row(cells: &[usize], at: usize) -> Option<usize>
    ensures { IfSome result (IsBehind at cells.now) }
{
    let mut next = at;
    for cell in cells {
        next = behind_text(*cell, next)?;
    }
    Some(next)
}

/// The position behind a text that has this one.
fn behind_text(text: usize, at: usize) -> Option<usize>
    ensures { IfSome result (IsBehind at (text ∷ [])) }
{
    if text == at { at.checked_add(1) } else { None }
}
