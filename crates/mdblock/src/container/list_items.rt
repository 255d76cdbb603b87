//! From line to line inside a list: its open item goes on, ends, or the next one begins (CommonMark 5.2, 5.3).

ghost use Rattle.std.specs.Prelude.{◌≡◌, ◌≤◌, IfOk, OnOk, false, length};
ghost use Rattle.mdblock.specs.BlockView.{items_view};
ghost use Rattle.mdblock.specs.Positions.{ItemsIn};
ghost use Rattle.mdblock.specs.held.Continuations.{IsContinuationOf};
ghost use Rattle.mdblock.specs.held.Growing.{Grows};
ghost use Rattle.mdblock.specs.held.LevelSteps.{EndsItem, EntersItem};
ghost use Rattle.mdblock.specs.held.OpenPositions.{LevelIn};

use crate::container::lists::{self, OpenList};
use crate::gathering::Gathering;
use crate::lines::Line;
use crate::open_blocks::{Continuation, Level};
use std::alloc::AllocError;

/// What a line of an open list does inside its last item.
pub(crate) enum Entry {
    /// It is read there.
    Goes,
    /// It begins the item.
    Begins,
    /// Nothing.
    Stays,
}

#[tactic(auto, using(crate::proofs::Within::growing))]
/// Takes from a line what is the list's, and ends the item where the line does.
pub(crate) fn enter_item(
    inner: &mut Level,
    list: &mut OpenList,
    gap: bool,
    line: &mut Line,
    continuation: Continuation,
    gathering: &mut Gathering,
) -> Result<Entry, AllocError>
    requires inner { LevelIn (length gathering.old.texts.items) inner.old }
    requires list { ItemsIn (length gathering.old.texts.items) (items_view list.old.items.items) }
    requires continuation { IsContinuationOf line.old continuation }
    ensures inner { IfOk result (λ _. LevelIn (length gathering.new.texts.items) inner.new) }
    ensures list { IfOk result (λ _. ItemsIn (length gathering.new.texts.items) (items_view list.new.items.items)) }
    ensures grows { Grows gathering.old gathering.new }
    ensures enters { IfOk result (EntersItem continuation inner.old list.old gap gathering.old line.old inner.new list.new gathering.new line.new) }
{
    match continuation {
        Continuation::Matched | Continuation::Underlines(_) | Continuation::Delimits => {
            list.enter(line);
            Ok(Entry::Goes)
        }
        Continuation::Lazy => {
            line.make_lazy();
            Ok(Entry::Goes)
        }
        Continuation::Between => {
            end_item(inner, list, gathering)?;
            Ok(Entry::Stays)
        }
        Continuation::Next(marker) => {
            end_item(inner, list, gathering)?;
            list.begin(lists::take_marker(line, marker), gap);
            Ok(Entry::Begins)
        }
        Continuation::Outside(_) => Ok(Entry::Stays),
    }
}

#[tactic(auto, using(crate::proofs::Within::growing))]
/// Ends the item that is open in a list.
pub(crate) fn end_item(
    inner: &mut Level,
    list: &mut OpenList,
    gathering: &mut Gathering,
) -> Result<(), AllocError>
    requires inner { LevelIn (length gathering.old.texts.items) inner.old }
    requires list { ItemsIn (length gathering.old.texts.items) (items_view list.old.items.items) }
    ensures inner { OnOk result (LevelIn (length gathering.new.texts.items) inner.new) }
    ensures list { OnOk result (ItemsIn (length gathering.new.texts.items) (items_view list.new.items.items)) }
    ensures grows { Grows gathering.old gathering.new }
    ensures ends { OnOk result (EndsItem inner.old list.old gathering.old inner.new list.new gathering.new) }
    ensures shut { OnOk result (list.new.item_open ≡ false) }
    ensures kind { OnOk result (list.new.kind ≡ list.old.kind) }
{
    if list.is_open() {
        let spaced = inner.spaced;
        list.push(inner.take_blocks(true, gathering)?, spaced)?;
    }
    Ok(())
}
