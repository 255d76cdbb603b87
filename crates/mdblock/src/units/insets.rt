//! Items put where an old list lies in the place of some of its own. It takes no memory.

ghost use Rattle.std.specs.Prelude.{◌≡◌, ◌+◌, ◌-◌, ◌≤◌, ◌<◌, ◌++◌, [], IfOk, IfSome, None, Some, length, map, option_map, string_bytes, take, drop};
ghost use Rattle.std.specs.Vec.{vec_len, vec_capacity};
ghost use Rattle.blockspec.specs.BlockTree.{no_blocks, block};
ghost use Rattle.mdblock.specs.BlockView.{block_view, blocks_view, items_view, kind_view};
ghost use Rattle.mdblock.specs.FoundLists.{FoundList};
ghost use Rattle.mdblock.specs.Fronted.{items_staying};
ghost use Rattle.mdblock.specs.Insets.{FitsList, HasItems, IsAlone, TakesIn, inset_base, inset_front, items_between, parts_between};
ghost use Rattle.mdblock.specs.Positions.{BlocksIn};
ghost use Rattle.mdblock.specs.Spliced.{first_items, first_kind, list_of_kind, spliced_list};

mod joins;

use crate::blocks::{Block, Item, ListKind};
use crate::copies::{Source, items_from};
use crate::splicing::{is_tight, join_at, list_items, list_kind};
use crate::units::{Found, Unit};
use joins::put_joins;
use mdtext::NoMemory;
use std::alloc::Global;
use std::marker::Model;
use std::mem;

/// Items that can take the place of an old list's, from its first item or from one of its joins on, up to another. Only this crate makes one, of a
/// [`Seam`](crate::Seam).
#[derive(Drop)]
pub struct Inset {
    alloc: Global,
    /// The join from which on items give way; none where all do that are before the other.
    stay: Option<usize>,
    /// How many texts stay before them.
    before: usize,
    part: Found,
    /// The part's items, with positions behind these texts.
    items: Vec<Item>,
    /// Their texts.
    texts: Vec<String>,
    join: usize,
}

impl Model for Inset {
    ghost use Rattle.std.specs.Prelude.{◌≡◌, map, string_bytes};
    ghost use Rattle.mdblock.specs.BlockView.{items_view};
    ghost use Rattle.mdblock.specs.Copies.{copied_items, items_positions, texts_at};
    ghost use Rattle.mdblock.specs.Insets.{ListInset, inset_code};
    ghost use Rattle.mdblock.specs.Spliced.{first_items};

    ghost Value = { ListInset };

    ghost coded = { inset_code };

    ghost view = { λ i. record { stay = i.stay; before = i.before; part = i.part; join = i.join } };

    ghost invariant = { λ i. (items_view i.items.items ≡ copied_items i.before (first_items i.part.unit.blocks))
        × (map string_bytes i.texts.items ≡ texts_at i.part.unit.texts (items_positions (first_items i.part.unit.blocks))) };
}

impl Inset {
    /// What was read, the join from which on items give way, how many texts stand before it, and the join up to which they do.
    pub(crate) fn new(
        alloc: Global,
        stay: Option<usize>,
        before: usize,
        part: Found,
        join: usize,
    ) -> Result<Inset, NoMemory>
        ensures { IfOk result (λ inset. inset ≡ record { stay = stay; before = before; part = part; join = join }) }
    {
        let mut texts = Vec::new(alloc);
        let from = Source {
            texts: part.unit().texts(),
            before,
        };
        let items = items_from(alloc, list_items(part.unit().blocks()), &from, &mut texts)?;
        Ok(Inset {
            alloc,
            stay,
            before,
            part,
            items,
            texts,
            join,
        })
    }

    /// The number of the old list's join from which on items give way; none where all do that are before the other. Takes no memory.
    pub fn stay(&self) -> Option<usize>
        ensures { result ≡ self.now.stay }
    {
        self.stay
    }

    /// How many texts stand before those that give way. Takes no memory.
    pub fn before(&self) -> usize
        ensures { result ≡ self.now.before }
    {
        self.before
    }

    /// What was read. Takes no memory.
    pub fn part(&self) -> &Found
        ensures { result.now ≡ self.now.part }
    {
        &self.part
    }

    /// The number of the old list's join up to which it goes. Takes no memory.
    pub fn join(&self) -> usize
        ensures { result ≡ self.now.join }
    {
        self.join
    }

    /// How many lines were fed before all items in front.
    fn begin(&self) -> usize
        ensures { (old : FoundList) → result ≡ (inset_front self.now old).begin }
    {
        match self.stay {
            None => self.part.begin,
            Some(_) => 0,
        }
    }

    /// How many lines these have, and that of the join.
    fn lines(&self, old: &Found) -> usize
        ensures { result ≡ (inset_front self.now old.now).lines }
    {
        match self.stay {
            None => self.part.lines,
            Some(k) => join_at(&old.joins, k).line.saturating_add(self.part.lines),
        }
    }

    /// The kind of the list in front.
    fn kind(&self, old: &Found) -> Option<ListKind>
        ensures { option_map kind_view result ≡ first_kind (inset_front self.now old.now).unit.blocks }
    {
        match self.stay {
            None => list_kind(self.part.unit().blocks()),
            Some(_) => list_kind(old.unit().blocks()),
        }
    }

    /// How many items stay.
    fn start(&self) -> usize
        requires { IfSome self.now.stay (λ k. k < usize.MAX) }
        ensures { (old : FoundList) → result ≡ items_staying (inset_base self.now old) }
    {
        match self.stay {
            None => 0,
            Some(k) => k + 1,
        }
    }
}

impl Found {
    /// Puts what was read in the place of the items up to a join. The items that stay, those behind the join and the texts of both stay where they lie, and what
    /// gives way is let go. Takes no memory.
    pub fn put(&mut self, inset: Inset)
        requires { FitsList inset self.old }
        ensures { self.new ≡ spliced_list (inset_front inset self.old) self.old inset.join }
    {
        let begin = inset.begin();
        let lines = inset.lines(self);
        let kind = inset.kind(self);
        let start = inset.start();
        let Inset {
            alloc,
            stay,
            before,
            part,
            items,
            texts,
            join,
        } = inset;
        let from = join_at(&self.joins, join);
        let behind = self.lines.saturating_sub(from.line).saturating_sub(1);
        self.begin = begin;
        self.lines = lines.saturating_add(behind);
        put_joins(&mut self.joins, part.joins, stay, join, from);
        let tight = is_tight(&self.joins, self.parted);
        let place = Place {
            start,
            end: join + 1,
            before,
            behind: from.texts,
        };
        self.unit.put(alloc, kind, tight, items, texts, place);
    }
}

/// Where items and their texts go in: so many of both stay in front, and as many give way that so many are in front with them.
#[derive(Clone, Copy)]
struct Place {
    start: usize,
    end: usize,
    before: usize,
    behind: usize,
}

impl Unit {
    /// Puts items and texts in a place of this one.
    fn put(
        &mut self,
        alloc: Global,
        kind: Option<ListKind>,
        tight: bool,
        items: Vec<Item>,
        texts: Vec<String>,
        place: Place,
    )
        requires there { TakesIn self.old (items_view items.items) (map string_bytes texts.items) place.start place.end place.before place.behind }
        requires within { BlocksIn (length self.old.texts)
            (list_of_kind tight (items_between place.start place.end (items_view items.items) (first_items self.old.blocks)) (option_map kind_view kind)) }
        ensures blocks { self.new.blocks
            ≡ list_of_kind tight (items_between place.start place.end (items_view items.items) (first_items self.old.blocks)) (option_map kind_view kind) }
        ensures definitions { self.new.definitions ≡ self.old.definitions }
        ensures texts { self.new.texts ≡ parts_between place.before place.behind (map string_bytes texts.items) self.old.texts }
    {
        let mut first = texts;
        put_items(alloc, &mut self.blocks, kind, tight, items, place);
        swap_between(&mut self.texts, place.before, place.behind, &mut first);
    }
}

/// Puts items in a place of a list that stands alone, which is of this kind, and tight or not, then.
fn put_items(
    alloc: Global,
    blocks: &mut Vec<Block>,
    kind: Option<ListKind>,
    tight: bool,
    items: Vec<Item>,
    place: Place,
)
    requires alone { IsAlone (blocks_view blocks.old.items) }
    requires ordered { place.start ≤ place.end }
    requires within { HasItems place.end (first_items (blocks_view blocks.old.items)) }
    requires enough { HasItems (place.end - place.start) (items_view items.items) }
    ensures { blocks_view blocks.new.items
        ≡ list_of_kind tight (items_between place.start place.end (items_view items.items) (first_items (blocks_view blocks.old.items))) (option_map kind_view kind) }
{
    let mut first = items;
    let mut olds = pop_items(alloc, blocks);
    swap_between(&mut olds, place.start, place.end, &mut first);
    push_list(blocks, kind, tight, olds);
}

/// Takes a block out that stands alone, and its items, if it is a list.
fn pop_items(alloc: Global, blocks: &mut Vec<Block>) -> Vec<Item>
    requires { IsAlone (blocks_view blocks.old.items) }
    ensures items { items_view result.items ≡ first_items (blocks_view blocks.old.items) }
    ensures empty { blocks.new.items ≡ [] }
    ensures room { vec_len blocks.new < vec_capacity blocks.new }
{
    match blocks.pop() {
        Some(block) => items_of(alloc, block),
        None => Vec::new(alloc),
    }
}

/// The items of a list; none of any other block.
fn items_of(alloc: Global, one: Block) -> Vec<Item>
    ensures { items_view result.items ≡ first_items (block (block_view one) no_blocks) }
{
    match one {
        Block::List { items, .. } => items,
        _ => Vec::new(alloc),
    }
}

/// Puts a list of these items, of this kind, where no block is; none where there is no kind.
fn push_list(blocks: &mut Vec<Block>, kind: Option<ListKind>, tight: bool, items: Vec<Item>)
    requires empty { blocks.old.items ≡ [] }
    requires room { vec_len blocks.old < vec_capacity blocks.old }
    ensures { blocks_view blocks.new.items ≡ list_of_kind tight (items_view items.items) (option_map kind_view kind) }
{
    if let Some(kind) = kind {
        blocks.push(Block::List { kind, tight, items }).unwrap();
    }
}

/// Exchanges the members from `start` up to `end` with as many first ones of others.
fn swap_between<T: Drop>(items: &mut Vec<T>, start: usize, end: usize, others: &mut Vec<T>)
    requires ordered { start ≤ end }
    requires within { end ≤ length items.old.items }
    requires enough { end - start ≤ length others.old.items }
    ensures { items.new.items ≡ parts_between start end others.old.items items.old.items }
{
    for i in 0..end - start {
        mem::swap(&mut items[start + i], &mut others[i]);
    }
}
