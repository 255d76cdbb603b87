//! The blocks that are over, with one more behind them.

ghost use Rattle.std.specs.Prelude.{◌≡◌, ℕ, IfSome, OnOk};
ghost use Rattle.blockspec.specs.BlockTree.{block_quote, no_blocks};
ghost use Rattle.blockspec.specs.BlockTree as tree;
ghost use Rattle.mdblock.specs.BlockView.{block_view, blocks_view, items_view};
ghost use Rattle.mdblock.specs.held.ClosedViews.{found_view, list_view, list_view_with};
ghost use Rattle.mdblock.specs.held.TreesBehind.{blocks_before};
ghost use Rattle.mdblock.specs.Positions.{BlockIn, BlocksIn, ItemsIn};

use crate::blocks::Block;
use crate::container::lists::OpenList;
use std::alloc::AllocError;

/// Puts a block behind those that are over.
pub(crate) fn push_block(over: &mut Vec<Block>, block: Block) -> Result<(), AllocError>
    ensures pushed { OnOk result (blocks_view over.new.items ≡ blocks_before (blocks_view over.old.items) (tree.block (block_view block) no_blocks)) }
    ensures within { OnOk result ((n : ℕ) → BlocksIn n (blocks_view over.old.items) → BlockIn n (block_view block) → BlocksIn n (blocks_view over.new.items)) }
{
    make_room(over)?;
    over.push(block)?;
    Ok(())
}

/// Most containers and units hold one block alone, so at first there is room for no more.
fn make_room(over: &mut Vec<Block>) -> Result<(), AllocError>
    ensures { over.new.items ≡ over.old.items }
{
    if over.is_empty() {
        over.reserve_exact(1)?;
    }
    Ok(())
}

/// Puts a block, where there is one, behind those that are over.
pub(crate) fn push_found(over: &mut Vec<Block>, found: Option<Block>) -> Result<(), AllocError>
    ensures pushed { OnOk result (blocks_view over.new.items ≡ blocks_before (blocks_view over.old.items) (found_view found)) }
    ensures within { OnOk result ((n : ℕ) → BlocksIn n (blocks_view over.old.items) → IfSome found (λ block. BlockIn n (block_view block))
        → BlocksIn n (blocks_view over.new.items)) }
{
    match found {
        Some(block) => push_block(over, block),
        None => Ok(()),
    }
}

/// Puts a block, where there is one, behind those that are over. `more`: whether another block comes right behind it; then room for that one is taken at
/// once, as much as a push behind one block would take.
pub(crate) fn push_found_inside(
    over: &mut Vec<Block>,
    found: Option<Block>,
    more: bool,
) -> Result<(), AllocError>
    ensures pushed { OnOk result (blocks_view over.new.items ≡ blocks_before (blocks_view over.old.items) (found_view found)) }
    ensures within { OnOk result ((n : ℕ) → BlocksIn n (blocks_view over.old.items) → IfSome found (λ block. BlockIn n (block_view block))
        → BlocksIn n (blocks_view over.new.items)) }
{
    if more && found.is_some() {
        make_room_for_two(over)?;
    }
    push_found(over, found)
}

/// Room for two blocks, where there is none yet, and for as many as a push behind one block would make room for.
fn make_room_for_two(over: &mut Vec<Block>) -> Result<(), AllocError>
    ensures { over.new.items ≡ over.old.items }
{
    if over.is_empty() {
        over.reserve(2)?;
    }
    Ok(())
}

/// Puts a block quote of these blocks behind those that are over.
pub(crate) fn push_quote(over: &mut Vec<Block>, blocks: Vec<Block>) -> Result<(), AllocError>
    ensures pushed { OnOk result (blocks_view over.new.items
        ≡ blocks_before (blocks_view over.old.items) (tree.block (block_quote (blocks_view blocks.items)) no_blocks)) }
    ensures within { OnOk result ((n : ℕ) → BlocksIn n (blocks_view over.old.items) → BlocksIn n (blocks_view blocks.items)
        → BlocksIn n (blocks_view over.new.items)) }
{
    push_block(over, Block::Quote(blocks))
}

/// Puts a list behind the blocks that are over.
pub(crate) fn push_list(over: &mut Vec<Block>, list: OpenList) -> Result<(), AllocError>
    ensures pushed { OnOk result (blocks_view over.new.items ≡ blocks_before (blocks_view over.old.items) (tree.block (list_view list) no_blocks)) }
    ensures within { OnOk result ((n : ℕ) → BlocksIn n (blocks_view over.old.items) → ItemsIn n (items_view list.items.items)
        → BlocksIn n (blocks_view over.new.items)) }
{
    push_block(over, list.end())
}

/// Puts a list that ends with an item of these blocks behind the blocks that are over.
pub(crate) fn push_item(
    over: &mut Vec<Block>,
    mut list: OpenList,
    blocks: Vec<Block>,
    gap: bool,
) -> Result<(), AllocError>
    ensures pushed { OnOk result (blocks_view over.new.items
        ≡ blocks_before (blocks_view over.old.items) (tree.block (list_view_with list blocks.items gap) no_blocks)) }
    ensures within { OnOk result ((n : ℕ) → BlocksIn n (blocks_view over.old.items) → ItemsIn n (items_view list.items.items)
        → BlocksIn n (blocks_view blocks.items) → BlocksIn n (blocks_view over.new.items)) }
{
    list.push(blocks, gap)?;
    push_list(over, list)
}
