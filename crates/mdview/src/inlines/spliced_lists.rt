//! What the inline texts of a list read as of which a held list has items, and its piece.

ghost use Rattle.std.specs.Prelude.{◌≡◌, ◌+◌, ◌-◌, ◌++◌, ◌≤◌, ℕ, List, IfOk, IfSome, None, OnOk, drop, take};
ghost use Rattle.mdblock.specs.BlockView.{blocks_view, items_view};
ghost use Rattle.mdblock.specs.Fronted.{texts_staying};
ghost use Rattle.mdblock.specs.Seams.{seam_list};
ghost use Rattle.mdblock.specs.Spliced.{first_items, take_items};
ghost use Rattle.mdhtml.specs.InsetLists.{inset_readings};
ghost use Rattle.mdview.specs.HeldTexts.{entities_in};
ghost use Rattle.mdview.specs.JoinedLists.{AreBetween, GoesInto, IsJoined, texts_in_front};
ghost use Rattle.mdview.specs.LabelTargets.{at};
ghost use Rattle.mdview.specs.TextSetting.{IsReadFrom, Stays, TellsDeep, are_deep, asking, texts_under};
ghost use Rattle.mdview.specs.WrittenPieces.{IsPieceOf};

use crate::held::pieces::Piece;
use crate::held::unit_insets::UnitInset;
use crate::held::units::HeldUnit;
use crate::inlines::UnitTextReader;
use crate::pieces::text_room::{Alike, TextRoom};
use mdblock::{Block, Item, Seam};
use mdinline::{InlineFault, Parsed};
use mdtext::{Count, NoMemory};
use std::alloc::Global;

/// A list of which a held list has items.
#[derive(Drop)]
pub(crate) enum JoinedList {
    /// The list put together.
    Made(HeldUnit),
    /// What comes into the held list.
    Inset(UnitInset),
}

impl<'a> UnitTextReader<'a> {
    /// Reads the texts of a list between items of a held unit, where no label leads elsewhere. Answers what comes into that unit, which has the number `number`;
    /// where its HTML can't be cut, the list put together.
    pub(crate) fn read_list<C: Count>(
        &self,
        seam: Seam<'_>,
        held: &HeldUnit,
        number: usize,
        room: &mut TextRoom<'a>,
        count: &mut C,
    ) -> Result<JoinedList, InlineFault>
        requires none { (label : List ℕ) → at label self.now.labels.now.changes.now.targets.entries ≡ None }
        requires goes { GoesInto (texts_under self.now room.old) seam held.now }
        ensures unit { IfOk result (IsJoined (texts_under self.now room.old) seam.entry number held.now) }
        ensures deep { TellsDeep result (are_deep (texts_under self.now room.old) (seam_list seam.entry).unit.texts) }
        ensures stays { Stays room.old room.new (C.lines count.old) (C.lines count.new) }
        ensures inlines { C.inlines count.new ≤ C.inlines count.old
            + (texts_in_front seam.entry + asking (texts_under self.now room.old) (drop (texts_in_front seam.entry) (seam_list seam.entry).unit.texts)) }
    {
        count_texts(seam.texts_staying(), count);
        let inlines = self.read_between(&seam, held, room, count)?;
        let list = self.join_list(seam, inlines, held, number, room)?;
        Ok(list)
    }

    /// What comes into the held unit, or the list put together, where the texts of the items that were read read so.
    fn join_list(
        &self,
        seam: Seam<'_>,
        inlines: Vec<Parsed>,
        held: &HeldUnit,
        number: usize,
        room: &mut TextRoom<'a>,
    ) -> Result<JoinedList, NoMemory>
        requires goes { GoesInto (texts_under self.now room.old) seam held.now }
        requires between { AreBetween (texts_under self.now room.old) seam held.now inlines.items }
        ensures list { IfOk result (IsJoined (texts_under self.now room.old) seam.entry number held.now) }
        ensures room { entities_in room.new ≡ entities_in room.old }
    {
        let written = self.piece_in_place(&seam, &inlines, held, room)?;
        let Some(piece) = written else {
            let unit = self.made_list(seam, inlines, held, room)?;
            return Ok(JoinedList::Made(unit));
        };
        let inset = seam.inset()?;
        Ok(JoinedList::Inset(UnitInset {
            unit: number,
            inset,
            inlines,
            piece,
        }))
    }

    /// What the texts of the items that were read read as.
    fn read_between<C: Count>(
        &self,
        seam: &Seam<'_>,
        held: &HeldUnit,
        room: &mut TextRoom<'a>,
        count: &mut C,
    ) -> Result<Vec<Parsed>, InlineFault>
        requires none { (label : List ℕ) → at label self.now.labels.now.changes.now.targets.entries ≡ None }
        requires goes { GoesInto (texts_under self.now room.old) seam.now held.now }
        ensures between { IfOk result (λ read. AreBetween (texts_under self.now room.old) seam.now held.now read.items) }
        ensures deep { TellsDeep result (are_deep (texts_under self.now room.old) (seam_list seam.now).unit.texts) }
        ensures stays { Stays room.old room.new (C.lines count.old) (C.lines count.new) }
        ensures inlines { C.inlines count.new ≤ C.inlines count.old + (texts_in_front seam.now - texts_staying seam.now.base) }
    {
        let texts = first_of(seam.part().unit().texts(), seam.texts_read());
        let behind = seam.texts_staying().saturating_add(texts.len());
        let behind = held.inlines().len().saturating_sub(behind);
        let mut inlines = Vec::with_capacity(self.alloc, texts.len())?;
        self.read_alike(texts, behind, Some(held), &mut inlines, room, count)?;
        Ok(inlines)
    }

    /// The piece of the list, where the HTML of the held one can be cut.
    fn piece_in_place(
        &self,
        seam: &Seam<'_>,
        inlines: &[Parsed],
        held: &HeldUnit,
        room: &mut TextRoom<'a>,
    ) -> Result<Option<Piece>, NoMemory>
        requires goes { GoesInto (texts_under self.now room.old) seam.now held.now }
        requires between { AreBetween (texts_under self.now room.old) seam.now held.now inlines.now }
        ensures piece { IfOk result (λ piece. IfSome piece (IsPieceOf self.now.options.now (inset_readings (texts_staying seam.now.base) inlines.now held.now.read.readings) (seam_list seam.now).unit.blocks)) }
        ensures room { entities_in room.new ≡ entities_in room.old }
    {
        let part = seam.part();
        let items = items_in_front(part.unit().blocks(), part.joins().len());
        let like = Alike {
            unit: held,
            front: seam.texts_staying(),
            behind: 0,
        };
        room.inset_piece(
            items,
            seam.items_staying(),
            seam.later(),
            inlines,
            self.options,
            like,
        )
    }

    /// The list put together. The readings of the texts in front and behind are shared.
    fn made_list(
        &self,
        seam: Seam<'_>,
        inlines: Vec<Parsed>,
        held: &HeldUnit,
        room: &mut TextRoom<'a>,
    ) -> Result<HeldUnit, NoMemory>
        requires goes { GoesInto (texts_under self.now room.old) seam held.now }
        requires between { AreBetween (texts_under self.now room.old) seam held.now inlines.items }
        ensures unit { IfOk result (IsReadFrom (texts_under self.now room.old) (seam_list seam.entry)) }
        ensures room { entities_in room.new ≡ entities_in room.old }
    {
        let staying = seam.texts_staying();
        let found = seam.made()?;
        let front = first_of(held.inlines(), staying);
        let behind = later_of(held.inlines(), staying);
        let kept = later_of(behind, inlines.len());
        let all = self.with_held(front, inlines, kept)?;
        let whole = Alike {
            unit: held,
            front: staying,
            behind: kept.len(),
        };
        let piece = room.piece_like(found.unit().blocks(), &all, self.options, whole)?;
        Ok(HeldUnit::new(found, all, piece))
    }

    /// Readings with copies of others in front of them and behind them: what these hold is shared.
    fn with_held(
        &self,
        front: &[Parsed],
        inlines: Vec<Parsed>,
        kept: &[Parsed],
    ) -> Result<Vec<Parsed>, NoMemory>
        ensures { IfOk result (λ all. all.items ≡ front.now ++ (inlines.items ++ kept.now)) }
    {
        let mut inlines = inlines;
        let mut all = Vec::new(self.alloc);
        push_copies(self.alloc, front, &mut all)?;
        all.append(&mut inlines)?;
        push_copies(self.alloc, kept, &mut all)?;
        Ok(all)
    }
}

/// Counts so many texts as read, which stay as they are.
fn count_texts<C: Count>(texts: usize, count: &mut C)
    ensures inlines { C.inlines count.new ≤ C.inlines count.old + texts }
    ensures lines { C.lines count.new ≡ C.lines count.old }
{
    for _ in 0..texts {
        count.inline();
    }
}

/// So many items of a list that stands first; none where no list does.
fn items_in_front(blocks: &[Block], count: usize) -> &[Item]
    ensures { items_view result.now ≡ take_items count (first_items (blocks_view blocks.now)) }
{
    first_of(list_items(blocks), count)
}

/// The items of a list that stands first; none where no list does.
fn list_items(blocks: &[Block]) -> &[Item]
    ensures { items_view result.now ≡ first_items (blocks_view blocks.now) }
{
    match blocks.first() {
        Some(Block::List { items, .. }) => items,
        _ => &[],
    }
}

/// So many from the front on; all where there are fewer.
fn first_of<T>(all: &[T], count: usize) -> &[T]
    ensures { result.now ≡ take count all.now }
{
    all.get(..count).unwrap_or(all)
}

/// What is behind so many.
fn later_of<T>(all: &[T], count: usize) -> &[T]
    ensures { result.now ≡ drop count all.now }
{
    all.get(count..).unwrap_or(&[])
}

/// Puts copies of readings behind those that are there: what they hold is shared.
fn push_copies(
    alloc: Global,
    readings: &[Parsed],
    inlines: &mut Vec<Parsed>,
) -> Result<(), NoMemory>
    ensures { OnOk result (inlines.new.items ≡ inlines.old.items ++ readings.now) }
{
    for reading in readings {
        inlines.push(reading.copy(alloc)?)?;
    }
    Ok(())
}
