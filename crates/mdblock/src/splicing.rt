//! A list whose front a reader holds, and whose later items were found before (CommonMark 5.3).

ghost use Rattle.std.specs.Prelude.{◌≡◌, ◌<◌, ◌++◌, ℕ, IfOk, OnOk, drop, length, map, option_map, string_bytes, take, true};
ghost use Rattle.blockspec.specs.BlockTree.{Items};
ghost use Rattle.mdblock.specs.BlockView.{blocks_view, items_view, kind_view};
ghost use Rattle.mdblock.specs.Copies.{copied_items, items_positions, texts_at};
ghost use Rattle.mdblock.specs.FoundLists.{join_mark};
ghost use Rattle.mdblock.specs.Insets.{with_items};
ghost use Rattle.mdblock.specs.Positions.{BlocksIn, ItemsIn};
ghost use Rattle.mdblock.specs.Spliced.{first_items, first_kind, further_on, list_of_kind, mark_at, mark_further, no_mark, spliced_list, take_items, tight_list};

use crate::blocks::{Block, Item, ListKind};
use crate::copies::{copied_items, push_definitions};
use crate::text_order::behind_items;
use crate::units::{Found, Join};
use mdtext::NoMemory;
use std::alloc::Global;

/// A list without the item that its last join begins, and behind it the items of an old list from its join `k` on.
pub(crate) fn spliced(alloc: Global, front: Found, old: &Found, k: usize) -> Result<Found, NoMemory>
    requires { k < length old.now.marks }
    ensures { IfOk result (λ found. found ≡ spliced_list front old.now k) }
{
    let from = join_at(old.joins(), k);
    let to = join_at(front.joins(), front.joins().len().saturating_sub(1));
    let begin = front.begin();
    let kind = list_kind(front.unit().blocks());
    let behind_join = old.lines().saturating_sub(from.line).saturating_sub(1);
    let lines = front.lines().saturating_add(behind_join);
    let (blocks, mut definitions, texts, mut joins) = front.into_parts();
    let (mut items, mut texts) = taken_items(alloc, into_items(alloc, blocks), texts, joins.len())?;
    let later = behind(list_items(old.unit().blocks()), k + 1);
    let mut later = copied_items(alloc, later, old.unit().texts(), &mut texts)?;
    items.append(&mut later)?;
    definitions.truncate(to.definitions);
    let later = behind(old.unit().definitions(), from.definitions);
    push_definitions(alloc, later, &mut definitions)?;
    let later = behind(old.joins(), k + 1);
    push_joins(later, from, to, &mut joins)?;
    let blocks = as_list(alloc, kind, is_tight(&joins, old.is_parted()), items)?;
    Ok(Found::new(
        begin,
        lines,
        blocks,
        definitions,
        texts,
        joins,
        old.is_parted(),
    ))
}

/// So many of a list's first items, and their texts. Where the texts have their positions in document order, as those have that were read, all are moved; else
/// they are copied so.
fn taken_items(
    alloc: Global,
    items: Vec<Item>,
    texts: Vec<String>,
    count: usize,
) -> Result<(Vec<Item>, Vec<String>), NoMemory>
    ensures items { IfOk result (λ taken. items_view taken.0.items ≡ copied_items 0 (take_items count (items_view items.items))) }
    ensures texts { IfOk result (λ taken. map string_bytes taken.1.items
        ≡ texts_at (map string_bytes texts.items) (items_positions (take_items count (items_view items.items)))) }
{
    let mut items = items;
    items.truncate(count);
    let mut texts = texts;
    if let Some(end) = behind_items(&items, 0) {
        if end <= texts.len() {
            texts.truncate(end);
            return Ok((items, texts));
        }
    }
    let mut copied = Vec::new(alloc);
    let copies = copied_items(alloc, &items, &texts, &mut copied)?;
    Ok((copies, copied))
}

/// The join of that number; where there is none, what stands before a list's first item.
pub(crate) fn join_at(joins: &[Join], k: usize) -> Join
    ensures { join_mark result ≡ mark_at (map join_mark joins.now) k }
{
    match joins.get(k) {
        Some(join) => *join,
        None => no_join(),
    }
}

/// What stands before a list's first item.
pub(crate) fn no_join() -> Join
    ensures { join_mark result ≡ no_mark }
{
    Join {
        line: 0,
        texts: 0,
        definitions: 0,
        loose: false,
    }
}

/// What is before so many.
pub(crate) fn before<T>(all: &[T], count: usize) -> &[T]
    ensures { result.now ≡ take count all.now }
{
    all.get(..count).unwrap_or(all)
}

/// What is behind so many.
pub(crate) fn behind<T>(all: &[T], count: usize) -> &[T]
    ensures { result.now ≡ drop count all.now }
{
    all.get(count..).unwrap_or(&[])
}

/// The items of a list that stands first; none where no list does.
pub(crate) fn list_items(blocks: &[Block]) -> &[Item]
    ensures { items_view result.now ≡ first_items (blocks_view blocks.now) }
{
    match blocks.first() {
        Some(Block::List { items, .. }) => items,
        _ => &[],
    }
}

/// The items of a list that stands first, taken out; none where no list does.
pub(crate) fn into_items(alloc: Global, blocks: Vec<Block>) -> Vec<Item>
    ensures { items_view result.items ≡ first_items (blocks_view blocks.items) }
{
    match blocks.into_iter().next() {
        Some(Block::List { items, .. }) => items,
        _ => Vec::new(alloc),
    }
}

/// The kind of a list that stands first.
pub(crate) fn list_kind(blocks: &[Block]) -> Option<ListKind>
    ensures { option_map kind_view result ≡ first_kind (blocks_view blocks.now) }
{
    match blocks.first() {
        Some(Block::List { kind, .. }) => Some(*kind),
        _ => None,
    }
}

/// Whether a list of this kind stands first, which is tight or not as told.
pub(crate) fn is_list_of(blocks: &[Block], kind: Option<ListKind>, tight: bool) -> bool
    ensures { result ≡ true → (items : Items) → list_of_kind tight items (option_map kind_view kind) ≡ with_items items (blocks_view blocks.now) }
{
    match (blocks.first(), kind) {
        (
            Some(
                Block::List {
                    kind: marks,
                    tight: close,
                    ..
                },
            ),
            Some(kind),
        ) => kind == *marks && tight == *close,
        _ => false,
    }
}

/// A list of these items, of this kind; nothing where there is none.
pub(crate) fn as_list(
    alloc: Global,
    kind: Option<ListKind>,
    tight: bool,
    items: Vec<Item>,
) -> Result<Vec<Block>, NoMemory>
    ensures within { IfOk result (λ made. (n : ℕ) → ItemsIn n (items_view items.items) → BlocksIn n (blocks_view made.items)) }
    ensures list { IfOk result (λ made. blocks_view made.items ≡ list_of_kind tight (items_view items.items) (option_map kind_view kind)) }
{
    let mut made = Vec::new(alloc);
    if let Some(kind) = kind {
        made.push(Block::List { kind, tight, items })?;
    }
    Ok(made)
}

/// Whether a list is tight, by its joins, and by whether a gap parts two blocks of its last item.
pub(crate) fn is_tight(joins: &[Join], parted: bool) -> bool
    ensures { result ≡ tight_list parted (map join_mark joins.now) }
{
    !parted && !joins.iter().any(|join| join.loose)
}

/// Puts joins behind those that are there, which stood behind `from` and stand behind `to` then.
pub(crate) fn push_joins(
    behind: &[Join],
    from: Join,
    to: Join,
    joins: &mut Vec<Join>,
) -> Result<(), NoMemory>
    ensures { OnOk result (map join_mark joins.new.items
        ≡ map join_mark joins.old.items ++ map (mark_further (join_mark from) (join_mark to)) (map join_mark behind.now)) }
{
    for later in behind {
        joins.push(moved(*later, from, to))?;
    }
    Ok(())
}

/// A join behind `from`, where it stands behind `to`.
pub(crate) fn moved(join: Join, from: Join, to: Join) -> Join
    ensures { join_mark result ≡ mark_further (join_mark from) (join_mark to) (join_mark join) }
{
    Join {
        line: further(join.line, from.line, to.line),
        texts: further(join.texts, from.texts, to.texts),
        definitions: further(join.definitions, from.definitions, to.definitions),
        loose: join.loose,
    }
}

/// As far behind one number as another is behind `from`.
fn further(at: usize, from: usize, to: usize) -> usize
    ensures { result ≡ further_on at from to }
{
    to.saturating_add(at.saturating_sub(from))
}
