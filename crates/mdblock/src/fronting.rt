//! A list whose first items are those that an old one has before one of its joins (CommonMark 5.3).

ghost use Rattle.std.specs.Prelude.{◌≡◌, ◌<◌, ◌++◌, IfOk, length, map, string_bytes};
ghost use Rattle.mdleaf.specs.DefinedLinks.{definition_of};
ghost use Rattle.mdblock.specs.BlockView.{items_view};
ghost use Rattle.mdblock.specs.Copies.{copied_items, items_positions, texts_at};
ghost use Rattle.mdblock.specs.FoundLists.{join_mark};
ghost use Rattle.mdblock.specs.Fronted.{fronted_list};
ghost use Rattle.mdblock.specs.Positions.{ItemsIn};
ghost use Rattle.mdblock.specs.Spliced.{mark_further, no_mark};
ghost use Rattle.mdblock.specs.held.TreesBehind.{placed_before};

use crate::blocks::Item;
use crate::copies::{copied_items, push_definitions};
use crate::splicing::{
    as_list, before, is_tight, join_at, list_items, list_kind, no_join, push_joins,
};
use crate::units::{Found, Join};
use mdleaf::Definition;
use mdtext::NoMemory;
use std::alloc::Global;

/// An old list's items before its join `k`, and behind them those of a list that was read from there on: all are copied.
pub(crate) fn fronted(alloc: Global, old: &Found, k: usize, part: &Found) -> Result<Found, NoMemory>
    requires { k < length old.now.marks }
    ensures { IfOk result (λ found. found ≡ fronted_list (record { list = old.now; join = k }) part.now) }
{
    let join = join_at(old.joins(), k);
    let unit = old.unit();
    let part_unit = part.unit();
    let lines = join.line.saturating_add(part.lines());
    let items = before(list_items(unit.blocks()), k + 1);
    let (items, texts) = both_items(
        alloc,
        items,
        unit.texts(),
        list_items(part_unit.blocks()),
        part_unit.texts(),
    )?;
    let definitions = before(unit.definitions(), join.definitions);
    let definitions = both_definitions(alloc, definitions, part_unit.definitions())?;
    let joins = both_joins(alloc, before(old.joins(), k + 1), part.joins(), join)?;
    let tight = is_tight(&joins, part.is_parted());
    let blocks = as_list(alloc, list_kind(unit.blocks()), tight, items)?;
    Ok(Found::new(
        0,
        lines,
        blocks,
        definitions,
        texts,
        joins,
        part.is_parted(),
    ))
}

/// Copies of items, and behind them of others, with their texts.
fn both_items(
    alloc: Global,
    first: &[Item],
    first_texts: &[String],
    later: &[Item],
    later_texts: &[String],
) -> Result<(Vec<Item>, Vec<String>), NoMemory>
    ensures within { IfOk result (λ made. ItemsIn (length made.1.items) (items_view made.0.items)) }
    ensures items { IfOk result (λ made. items_view made.0.items ≡ placed_before (copied_items 0 (items_view first.now))
        (copied_items (length (items_positions (items_view first.now))) (items_view later.now))) }
    ensures texts { IfOk result (λ made. map string_bytes made.1.items
        ≡ texts_at (map string_bytes first_texts.now) (items_positions (items_view first.now)) ++ texts_at (map string_bytes later_texts.now) (items_positions (items_view later.now))) }
{
    let mut texts = Vec::new(alloc);
    let mut items = copied_items(alloc, first, first_texts, &mut texts)?;
    let mut later = copied_items(alloc, later, later_texts, &mut texts)?;
    items.append(&mut later)?;
    Ok((items, texts))
}

/// Copies of definitions, and behind them of others.
fn both_definitions(
    alloc: Global,
    first: &[Definition],
    later: &[Definition],
) -> Result<Vec<Definition>, NoMemory>
    ensures { IfOk result (λ made. map definition_of made.items ≡ map definition_of first.now ++ map definition_of later.now) }
{
    let mut made = Vec::new(alloc);
    push_definitions(alloc, first, &mut made)?;
    push_definitions(alloc, later, &mut made)?;
    Ok(made)
}

/// Joins, and behind them those of a list that was read on from `join`.
fn both_joins(
    alloc: Global,
    first: &[Join],
    later: &[Join],
    join: Join,
) -> Result<Vec<Join>, NoMemory>
    ensures { IfOk result (λ made. map join_mark made.items ≡ map join_mark first.now ++ map (mark_further no_mark (join_mark join)) (map join_mark later.now)) }
{
    let mut made = copied_joins(alloc, first)?;
    push_joins(later, no_join(), join, &mut made)?;
    Ok(made)
}

pub(crate) fn copied_joins(alloc: Global, joins: &[Join]) -> Result<Vec<Join>, NoMemory>
    ensures { IfOk result (λ copies. copies.items ≡ joins.now) }
{
    let mut copies = Vec::with_capacity(alloc, joins.len())?;
    for join in joins {
        copies.push(*join)?;
    }
    Ok(copies)
}
