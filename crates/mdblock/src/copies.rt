//! Copies of blocks with their texts, and of definitions, for another unit.

ghost use Rattle.std.specs.Prelude.{◌≡◌, ◌+◌, ◌++◌, ◌∷◌, [], IfOk, OnOk, drop, length, map, string_bytes};
ghost use Rattle.std.specs.List.{flat_map, range_with_len};
ghost use Rattle.blockspec.specs.BlockTree.{table};
ghost use Rattle.mdleaf.specs.DefinedLinks.{definition_of};
ghost use Rattle.mdblock.specs.BlockView.{block_view, blocks_view, item_view, items_view};
ghost use Rattle.mdblock.specs.Copies.{block_positions, blocks_positions, items_positions, copied_block, copied_blocks, copied_items, copied_rows, text_at, texts_at};

use crate::Align;
use crate::blocks::{Block, Item};
use mdleaf::Definition;
use mdtext::NoMemory;
use std::alloc::{AllocError, Global};

/// The texts that are copied, and how many stand before the copies in the unit that these are for.
#[derive(Clone, Copy)]
pub(crate) struct Source<'a> {
    pub(crate) texts: &'a [String],
    pub(crate) before: usize,
}

/// Copies of items whose texts are positions among these. A copy of each text is appended to `copied`, in document order, and has its position there.
pub(crate) fn copied_items(
    alloc: Global,
    items: &[Item],
    texts: &[String],
    copied: &mut Vec<String>,
) -> Result<Vec<Item>, NoMemory>
    ensures copies { IfOk result (λ copies. items_view copies.items ≡ copied_items (length (map string_bytes copied.old.items)) (items_view items.now)) }
    ensures texts { OnOk result (map string_bytes copied.new.items ≡ map string_bytes copied.old.items ++ texts_at (map string_bytes texts.now) (items_positions (items_view items.now))) }
{
    let from = Source { texts, before: 0 };
    items_from(alloc, items, &from, copied)
}

/// A copy of one item, in the same way.
pub(crate) fn copied_item(
    alloc: Global,
    item: &Item,
    texts: &[String],
    copied: &mut Vec<String>,
) -> Result<Item, NoMemory>
    ensures copies { IfOk result (λ copy. item_view copy ≡ copied_blocks (length (map string_bytes copied.old.items)) (item_view item.now)) }
    ensures texts { OnOk result (map string_bytes copied.new.items ≡ map string_bytes copied.old.items ++ texts_at (map string_bytes texts.now) (blocks_positions (item_view item.now))) }
{
    let from = Source { texts, before: 0 };
    item_from(alloc, item, &from, copied)
}

/// Copies of items in the same way, with positions behind those of other texts.
#[cycle(block)]
pub(crate) fn items_from(
    alloc: Global,
    items: &[Item],
    from: &Source<'_>,
    copied: &mut Vec<String>,
) -> Result<Vec<Item>, NoMemory>
    ensures copies { IfOk result (λ copies. items_view copies.items ≡ copied_items (from.now.before + length (map string_bytes copied.old.items)) (items_view items.now)) }
    ensures texts { OnOk result (map string_bytes copied.new.items ≡ map string_bytes copied.old.items ++ texts_at (map string_bytes from.now.texts.now) (items_positions (items_view items.now))) }
{
    let mut copies = Vec::with_capacity(alloc, items.len())?;
    for item in items {
        let copy = item_from(alloc, item, from, copied)?;
        copies.push(copy)?;
    }
    Ok(copies)
}

/// A copy of one item, in the same way.
#[cycle(block)]
fn item_from(
    alloc: Global,
    item: &Item,
    from: &Source<'_>,
    copied: &mut Vec<String>,
) -> Result<Item, NoMemory>
    ensures copies { IfOk result (λ copy. item_view copy ≡ copied_blocks (from.now.before + length (map string_bytes copied.old.items)) (item_view item.now)) }
    ensures texts { OnOk result (map string_bytes copied.new.items ≡ map string_bytes copied.old.items ++ texts_at (map string_bytes from.now.texts.now) (blocks_positions (item_view item.now))) }
{
    Ok(Item {
        blocks: blocks_from(alloc, &item.blocks, from, copied)?,
    })
}

#[cycle(block)]
fn blocks_from(
    alloc: Global,
    blocks: &[Block],
    from: &Source<'_>,
    copied: &mut Vec<String>,
) -> Result<Vec<Block>, NoMemory>
    ensures copies { IfOk result (λ copies. blocks_view copies.items ≡ copied_blocks (from.now.before + length (map string_bytes copied.old.items)) (blocks_view blocks.now)) }
    ensures texts { OnOk result (map string_bytes copied.new.items ≡ map string_bytes copied.old.items ++ texts_at (map string_bytes from.now.texts.now) (blocks_positions (blocks_view blocks.now))) }
{
    let mut copies = Vec::with_capacity(alloc, blocks.len())?;
    for block in blocks {
        let copy = block_from(alloc, block, from, copied)?;
        copies.push(copy)?;
    }
    Ok(copies)
}

#[cycle(block)]
fn block_from(
    alloc: Global,
    block: &Block,
    from: &Source<'_>,
    copied: &mut Vec<String>,
) -> Result<Block, NoMemory>
    ensures copies { IfOk result (λ copies. block_view copies ≡ copied_block (from.now.before + length (map string_bytes copied.old.items)) (block_view block.now)) }
    ensures texts { OnOk result (map string_bytes copied.new.items ≡ map string_bytes copied.old.items ++ texts_at (map string_bytes from.now.texts.now) (block_positions (block_view block.now))) }
{
    match block {
        Block::Paragraph { text, task } => {
            let text = text_from(alloc, *text, from, copied)?;
            Ok(Block::Paragraph { text, task: *task })
        }
        Block::Heading { level, text } => {
            let text = text_from(alloc, *text, from, copied)?;
            Ok(Block::Heading {
                level: *level,
                text,
            })
        }
        Block::Break => Ok(Block::Break),
        Block::Code { lang, meta, body } => Ok(Block::Code {
            lang: String::from_str(alloc, lang)?,
            meta: String::from_str(alloc, meta)?,
            body: String::from_str(alloc, body)?,
        }),
        Block::Html(lines) => Ok(Block::Html(String::from_str(alloc, lines)?)),
        Block::Quote(inner) => Ok(Block::Quote(blocks_from(alloc, inner, from, copied)?)),
        Block::List { kind, tight, items } => {
            let items = items_from(alloc, items, from, copied)?;
            Ok(Block::List {
                kind: *kind,
                tight: *tight,
                items,
            })
        }
        Block::Table { aligns, head, rows } => {
            table_from(alloc, aligns, head, rows, from, copied)
        }
    }
}

fn table_from(
    alloc: Global,
    aligns: &[Align],
    head: &[usize],
    rows: &[Vec<usize>],
    from: &Source<'_>,
    copied: &mut Vec<String>,
) -> Result<Block, NoMemory>
    ensures copies { IfOk result (λ copies. block_view copies ≡ copied_block (from.now.before + length (map string_bytes copied.old.items)) (table aligns.now head.now (map (λ row. row.items) rows.now))) }
    ensures texts { OnOk result (map string_bytes copied.new.items ≡ map string_bytes copied.old.items ++ texts_at (map string_bytes from.now.texts.now) (head.now ++ flat_map (λ row. row) (map (λ row. row.items) rows.now))) }
{
    let aligns = copied_aligns(alloc, aligns)?;
    let head = row_from(alloc, head, from, copied)?;
    let rows = rows_from(alloc, rows, from, copied)?;
    Ok(Block::Table { aligns, head, rows })
}

fn copied_aligns(alloc: Global, aligns: &[Align]) -> Result<Vec<Align>, NoMemory>
    ensures { IfOk result (λ copies. copies.items ≡ aligns.now) }
{
    let mut copies = Vec::with_capacity(alloc, aligns.len())?;
    for align in aligns {
        copies.push(*align)?;
    }
    Ok(copies)
}

fn rows_from(
    alloc: Global,
    rows: &[Vec<usize>],
    from: &Source<'_>,
    copied: &mut Vec<String>,
) -> Result<Vec<Vec<usize>>, NoMemory>
    ensures copies { IfOk result (λ copies. map (λ row. row.items) copies.items ≡ copied_rows (from.now.before + length (map string_bytes copied.old.items)) (map (λ row. row.items) rows.now)) }
    ensures texts { OnOk result (map string_bytes copied.new.items ≡ map string_bytes copied.old.items ++ texts_at (map string_bytes from.now.texts.now) (flat_map (λ row. row) (map (λ row. row.items) rows.now))) }
{
    let mut copies = Vec::with_capacity(alloc, rows.len())?;
    for row in rows {
        let copy = row_from(alloc, row, from, copied)?;
        copies.push(copy)?;
    }
    Ok(copies)
}

fn row_from(
    alloc: Global,
    cells: &[usize],
    from: &Source<'_>,
    copied: &mut Vec<String>,
) -> Result<Vec<usize>, NoMemory>
    ensures copies { IfOk result (λ copies. copies.items ≡ range_with_len (from.now.before + length (map string_bytes copied.old.items)) (length cells.now)) }
    ensures texts { OnOk result (map string_bytes copied.new.items ≡ map string_bytes copied.old.items ++ texts_at (map string_bytes from.now.texts.now) (cells.now)) }
{
    let mut copies = Vec::with_capacity(alloc, cells.len())?;
    for cell in cells {
        let copy = text_from(alloc, *cell, from, copied)?;
        copies.push(copy)?;
    }
    Ok(copies)
}

/// The new position of a text; where there is none, an empty one stands for it.
fn text_from(
    alloc: Global,
    at: usize,
    from: &Source<'_>,
    copied: &mut Vec<String>,
) -> Result<usize, NoMemory>
    ensures position { IfOk result (λ position. position ≡ from.now.before + length (map string_bytes copied.old.items)) }
    ensures texts { OnOk result (map string_bytes copied.new.items ≡ map string_bytes copied.old.items ++ text_at (map string_bytes from.now.texts.now) at ∷ []) }
{
    let position = position_behind(from.before, copied.len())?;
    match from.texts.get(at) {
        Some(text) => copied.push(String::from_str(alloc, text)?)?,
        None => copied.push(String::new(alloc))?,
    }
    Ok(position)
}

/// The position behind so many texts and those that stand before them.
fn position_behind(before: usize, copied: usize) -> Result<usize, NoMemory>
    ensures { IfOk result (λ position. position ≡ before + copied) }
{
    match before.checked_add(copied) {
        Some(position) => Ok(position),
        None => Err(AllocError),
    }
}

/// Appends copies of definitions.
pub(crate) fn push_definitions(
    alloc: Global,
    definitions: &[Definition],
    copied: &mut Vec<Definition>,
) -> Result<(), NoMemory>
    ensures { OnOk result (map definition_of copied.new.items ≡ map definition_of copied.old.items ++ map definition_of definitions.now) }
{
    for definition in definitions {
        let copy = copied_definition(alloc, definition)?;
        copied.push(copy)?;
    }
    Ok(())
}

fn copied_definition(alloc: Global, definition: &Definition) -> Result<Definition, NoMemory>
    ensures { IfOk result (λ copy. definition_of copy ≡ definition_of definition.now) }
{
    Ok(Definition {
        label: definition.label.copy(alloc)?,
        target: definition.target.copy(alloc)?,
    })
}
