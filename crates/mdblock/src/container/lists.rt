//! Lists and their items (CommonMark 5.2, 5.3).

ghost use Rattle.std.specs.Prelude.{◌≡◌, ℕ, ◌+◌, ◌^◌, ◌<◌, ◌&&◌, ◌||◌, if◌then◌else◌, not, nat_le, is_some, true, false, Some, IfSome, OnOk};
ghost use Rattle.mdtext.specs.Columns.{AreMarks};
ghost use Rattle.blockspec.specs.BlockLine.{rest, indentation, without_columns};
ghost use Rattle.blockspec.specs.BlankLines.{is_blank_line};
ghost use Rattle.blockspec.specs.BlockKinds.{Item as ItemWith, Holds};
ghost use Rattle.blockspec.specs.ListItems.{padding, item_of};
ghost use Rattle.blockspec.specs.BlockStart.{begun};
ghost use Rattle.blockspec.specs.BlockTree.{no_items};
ghost use Rattle.mdblock.specs.BlockView.{kind_view, block_view, blocks_view, items_view};
ghost use Rattle.blockspec.specs.ContainerLines.{opened};
ghost use Rattle.blockspec.specs.Lists.{kind_of, is_same_list};
ghost use Rattle.mdblock.specs.held.Continuations.{IsBeginningOf};
ghost use Rattle.mdblock.specs.held.ClosedViews.{list_view, list_view_with};
ghost use Rattle.mdblock.specs.Positions.{BlockIn, BlocksIn, ItemsIn};
ghost use Rattle.blockspec.specs.UnitBegin.{list_mark, same_mark};

use crate::block_starts::BlockStart;
use crate::blocks::{Block, Item, ListKind};
use crate::lines::Line;
use mdscan::Marker;
use std::alloc::{AllocError, Global};

/// An open list: the items that are over, and whether the last one is still open, with the columns that its lines need.
#[derive(Drop)]
pub(crate) struct OpenList {
    kind: ListKind,
    loose: bool,
    items: Vec<Item>,
    item_open: bool,
    needed: usize,
    /// Whether a gap parts two blocks of the item that ended last.
    parted: bool,
}

impl OpenList {
    /// The list that an item begins, with the columns that the item's later lines need.
    pub(crate) fn new(alloc: Global, marker: Marker, needed: usize) -> OpenList
        ensures within { (n : ℕ) → ItemsIn n (items_view result.items.items) }
        ensures kind { kind_view result.kind ≡ kind_of marker }
        ensures needed { result.needed ≡ needed }
        ensures open { result.item_open ≡ true }
        ensures tight { result.loose ≡ false }
        ensures none { items_view result.items.items ≡ no_items }
    {
        OpenList {
            kind: kind_of(marker),
            loose: false,
            items: Vec::new(alloc),
            item_open: true,
            needed,
            parted: false,
        }
    }

    /// Whether its last item is open.
    pub(crate) fn is_open(&self) -> bool
        ensures { result ≡ self.now.item_open }
    {
        self.item_open
    }

    /// Whether a gap parts two blocks of its last item; of an open one `spaced` tells it.
    pub(crate) fn parts(&self, spaced: bool) -> bool
        ensures { result ≡ (if self.now.item_open then spaced else self.now.parted) }
    {
        if self.item_open { spaced } else { self.parted }
    }

    /// Whether a line that is neither blank nor lazy has the columns that the open item needs.
    pub(crate) fn matches(&self, line: &Line) -> bool
        ensures { result ≡ (self.now.item_open && not line.now.lazy && not (is_blank_line line.now) && nat_le self.now.needed (indentation line.now)) }
    {
        self.item_open && !line.is_lazy() && !line.is_blank() && line.indent() >= self.needed
    }

    /// Takes the columns off a line of the open item.
    pub(crate) fn enter(&self, line: &mut Line)
        ensures { line.new ≡ without_columns line.old self.now.needed }
    {
        line.take_columns(self.needed);
    }

    /// The marker of the list's next item, where a line begins one; `opening` is what it begins.
    pub(crate) fn next(&self, line: &Line, opening: Option<BlockStart>) -> Option<Marker>
        requires { IsBeginningOf line.now opening }
        ensures marks { IfSome result (λ marker. AreMarks marker.width (rest line.now)) }
        ensures begins { IfSome result (λ marker. begun line.now ≡ Holds (item_of line.now marker)) }
        ensures same { is_some result ≡ same_mark (Some (kind_view self.now.kind)) (list_mark (begun line.now)) }
    {
        next_of(self.kind, line, opening)
    }

    /// Begins the next item; a gap before it makes the list loose.
    pub(crate) fn begin(&mut self, needed: usize, gap: bool)
        ensures { self.new ≡ record self.old { item_open = true; needed = needed; loose = self.old.loose || gap } }
    {
        self.item_open = true;
        self.needed = needed;
        self.loose = self.loose || gap;
    }

    /// Ends the open item, which holds these blocks; a gap between two of them makes the list loose.
    pub(crate) fn push(&mut self, blocks: Vec<Block>, gap: bool) -> Result<(), AllocError>
        ensures pushed { OnOk result (list_view self.new ≡ list_view_with self.old blocks.items gap) }
        ensures ended { OnOk result (self.new.item_open ≡ false) }
        ensures parted { OnOk result (self.new.parted ≡ gap) }
        ensures kind { self.new.kind ≡ self.old.kind }
        ensures within { OnOk result ((n : ℕ) → ItemsIn n (items_view self.old.items.items) → BlocksIn n (blocks_view blocks.items)
            → ItemsIn n (items_view self.new.items.items)) }
    {
        self.items.push(Item { blocks })?;
        self.loose = self.loose || gap;
        self.item_open = false;
        self.parted = gap;
        Ok(())
    }

    /// What the list is at its end.
    pub(crate) fn end(self) -> Block
        ensures value { block_view result ≡ list_view self }
        ensures within { (n : ℕ) → ItemsIn n (items_view self.items.items) → BlockIn n (block_view result) }
    {
        Block::List {
            kind: self.kind,
            tight: !self.loose,
            items: self.items,
        }
    }
}

/// The marker of an item of a list of this kind, where a line begins one; `opening` is what it begins.
pub(crate) fn next_of(kind: ListKind, line: &Line, opening: Option<BlockStart>) -> Option<Marker>
    requires { IsBeginningOf line.now opening }
    ensures marks { IfSome result (λ marker. AreMarks marker.width (rest line.now)) }
    ensures begins { IfSome result (λ marker. begun line.now ≡ Holds (item_of line.now marker)) }
    ensures same { is_some result ≡ same_mark (Some (kind_view kind)) (list_mark (begun line.now)) }
{
    match opening {
        Some(BlockStart::Item(marker)) => {
            if is_same_list(kind, kind_of(marker)) {
                return Some(marker);
            }
            None
        }
        _ => None,
    }
}

/// Takes an item's marker and the columns after it off its first line, and answers the columns that its other lines need.
#[tactic(auto, unfolding(blockspec::specs::ContainerLines::opened))]
pub(crate) fn take_marker(line: &mut Line, marker: Marker) -> usize
    requires { AreMarks marker.width (rest line.old) }
    ensures needed { item_of line.old marker ≡ ItemWith marker result }
    ensures line { line.new ≡ opened (ItemWith marker result) line.old }
{
    let before = line.indent();
    line.take_mark(marker.width);
    let after = columns_after_marker(line);
    line.take_columns(after);
    before + marker.width + after
}

/// How many columns after a marker belong to it: with five or more, or with nothing behind them, one counts.
#[tactic(auto, unfolding(blockspec::specs::ListItems::padding))]
fn columns_after_marker(line: &Line) -> usize
    ensures value { result ≡ padding line.now }
    ensures short { line.now.line.column + result < 2 ^ 64 }
{
    let columns = line.indent();
    if line.is_blank() || columns > 4 {
        1
    } else {
        columns
    }
}

fn kind_of(marker: Marker) -> ListKind
    ensures { kind_view result ≡ kind_of marker }
{
    match marker.start {
        Some(start) => ListKind::Ordered {
            delim: marker.mark,
            start,
        },
        None => ListKind::Bullet(marker.mark),
    }
}

/// Whether items of these kinds stand in one list: the numbers don't matter.
fn is_same_list(kind: ListKind, other: ListKind) -> bool
    ensures { result ≡ is_same_list (kind_view kind) (kind_view other) }
{
    match (kind, other) {
        (ListKind::Bullet(mark), ListKind::Bullet(other)) => mark == other,
        (ListKind::Ordered { delim, .. }, ListKind::Ordered { delim: other, .. }) => delim == other,
        _ => false,
    }
}
