//! What the texts of all that an edit brings read as: of the units that were found, and of a list that goes on in a held one.

ghost use Rattle.std.specs.Prelude.{◌≡◌, ◌+◌, ◌-◌, ◌≤◌, ◌++◌, ◌∷◌, [], ℕ, List, None, Some, IfOk, IfSome, length, map, option_map, slice_get};
ghost use Rattle.std.specs.List.{All};
ghost use Rattle.mdblock.specs.FoundLists.{found_unit};
ghost use Rattle.mdblock.specs.Seams.{seam_list};
ghost use Rattle.mdsource.specs.UnitTexts.{trees_in};
ghost use Rattle.mdview.specs.BroughtUnits.{Adds};
ghost use Rattle.mdview.specs.HeldTexts.{line_on};
ghost use Rattle.mdview.specs.HeldUnit.{IsRendered};
ghost use Rattle.mdview.specs.JoinedLists.{GoesInto, texts_in_front};
ghost use Rattle.mdview.specs.KeptTexts.{IsKept, number_kept};
ghost use Rattle.mdview.specs.LabelTargets.{at};
ghost use Rattle.mdview.specs.TextSetting.{AreReadFrom, DidReadIn, Stays, TellsLine, deep_place, texts_beside, texts_under};
ghost use Rattle.mdview.specs.UnitsFound.{IsHeldOn, found_in, trees_found, units_found};
ghost use Rattle.mdview.specs.Update.{IsInLast, with_inset};

use crate::blocks::reparse::{KeptTexts, Reparsed};
use crate::held::unit_insets::UnitInset;
use crate::held::units::HeldUnit;
use crate::inlines::UnitTextReader;
use crate::inlines::kept_texts::kept_readings;
use crate::inlines::spliced_lists::JoinedList;
use crate::pieces::text_room::TextRoom;
use mdblock::{Found, Seam};
use mdchunks::Chunks;
use mdsource::{EditFault, fault_in_unit};
use mdtext::Count;
use std::alloc::AllocError;

/// The units that an edit brings, and what a held list takes in that stands behind them.
#[derive(Drop)]
pub(crate) struct BroughtUnits {
    pub(crate) units: Vec<HeldUnit>,
    pub(crate) inset: Option<UnitInset>,
}

impl<'a> UnitTextReader<'a> {
    /// Reads the texts of what an edit found, in the place of held units. A list that goes on in a held one is put together where a label leads elsewhere; else its
    /// front comes into that.
    #[tactic(auto, unfolding(crate::specs::UnitsFound::found_in))]
    pub(crate) fn read_reparsed<C: Count>(
        &self,
        reparsed: Reparsed<'_>,
        held: &Chunks<HeldUnit>,
        room: &mut TextRoom<'a>,
        count: &mut C,
    ) -> Result<BroughtUnits, EditFault>
        requires first { reparsed.first ≤ length held.now.items }
        requires held { All (DidReadIn (texts_under self.now room.old)) held.now.items }
        requires rendered { All (IsRendered self.now.options.now) held.now.items }
        requires kept { IfSome reparsed.kept (IsKept held.now.items (trees_found reparsed)) }
        requires list { IfSome reparsed.list (IsHeldOn held.now.items reparsed) }
        ensures units { IfOk result (λ r. AreReadFrom (texts_under self.now room.old) (found_in reparsed.entry) (with_inset held.now.items r.units.items r.inset)) }
        ensures inset { IfOk result (λ r. IsInLast held.now.items reparsed.entry.first reparsed.entry.next r.inset) }
        ensures deep { TellsLine result (option_map (line_on reparsed.entry.from) (deep_place (texts_under self.now room.old) (units_found reparsed.entry))) }
        ensures stays { Stays room.old room.new (C.lines count.old) (C.lines count.new) }
        ensures inlines { C.inlines count.new ≤ C.inlines count.old + texts_beside (texts_under self.now room.old) (option_map number_kept reparsed.entry.kept) (trees_found reparsed.entry) }
    {
        let Reparsed {
            first,
            next,
            from,
            mut found,
            list,
            kept,
            ..
        } = reparsed;
        if let Some(list) = list {
            if self.labels.changes.is_empty() {
                return self.read_joined(found, list, held, first, next, from, room, count);
            }
            found.push(list.made()?)?;
        }
        self.read_whole(found, kept, held, first, next, from, room, count)
    }

    /// Reads the texts of the units found, the last of which may have texts that are held.
    fn read_whole<C: Count>(
        &self,
        found: Vec<Found>,
        kept: Option<KeptTexts>,
        held: &Chunks<HeldUnit>,
        first: usize,
        next: usize,
        from: usize,
        room: &mut TextRoom<'a>,
        count: &mut C,
    ) -> Result<BroughtUnits, EditFault>
        requires first { first ≤ length held.now.items }
        requires held { All (DidReadIn (texts_under self.now room.old)) held.now.items }
        requires rendered { All (IsRendered self.now.options.now) held.now.items }
        requires kept { IfSome kept (IsKept held.now.items (trees_in (map found_unit found.items))) }
        ensures units { IfOk result (λ r. AreReadFrom (texts_under self.now room.old) found.items r.units.items) }
        ensures none { IfOk result (λ r. r.inset ≡ None) }
        ensures deep { TellsLine result (option_map (line_on from) (deep_place (texts_under self.now room.old) (map found_unit found.items))) }
        ensures stays { Stays room.old room.new (C.lines count.old) (C.lines count.new) }
        ensures inlines { C.inlines count.new ≤ C.inlines count.old + texts_beside (texts_under self.now room.old) (option_map number_kept kept) (trees_in (map found_unit found.items)) }
    {
        let kept = kept_readings(held, kept);
        let units = self.read_found(found, kept, held, first, next, from, room, count)?;
        Ok(BroughtUnits { units, inset: None })
    }

    /// Reads the texts of the units found, and of the list behind them, which goes on in the held unit in front of number `next`.
    fn read_joined<C: Count>(
        &self,
        found: Vec<Found>,
        list: Seam<'_>,
        held: &Chunks<HeldUnit>,
        first: usize,
        next: usize,
        from: usize,
        room: &mut TextRoom<'a>,
        count: &mut C,
    ) -> Result<BroughtUnits, EditFault>
        requires first { first ≤ length held.now.items }
        requires held { All (DidReadIn (texts_under self.now room.old)) held.now.items }
        requires rendered { All (IsRendered self.now.options.now) held.now.items }
        requires place { (first + 1 ≤ next) × (next ≤ length held.now.items) }
        requires within { texts_in_front list ≤ length (seam_list list).unit.texts }
        requires goes { IfSome (slice_get held.now.items (next - 1)) (GoesInto (texts_under self.now room.old) list) }
        requires none { (label : List ℕ) → at label self.now.labels.now.changes.now.targets.entries ≡ None }
        ensures units { IfOk result (λ r. AreReadFrom (texts_under self.now room.old) (found.items ++ seam_list list.entry ∷ []) (with_inset held.now.items r.units.items r.inset)) }
        ensures inset { IfOk result (λ r. IsInLast held.now.items first next r.inset) }
        ensures deep { TellsLine result (option_map (line_on from) (deep_place (texts_under self.now room.old) (map found_unit (found.items ++ seam_list list.entry ∷ [])))) }
        ensures stays { Stays room.old room.new (C.lines count.old) (C.lines count.new) }
        ensures inlines { C.inlines count.new ≤ C.inlines count.old + texts_beside (texts_under self.now room.old) (Some (texts_in_front list.entry))
            (trees_in (map found_unit (found.items ++ seam_list list.entry ∷ []))) }
    {
        let units = self.read_units(found, held, first, next, from, room, count)?;
        let number = next - 1;
        let unit = held.get(number).unwrap();
        let begin = from.saturating_add(list.begin());
        match self.read_list(list, unit, number, room, count) {
            Ok(joined) => Ok(with_joined(units, joined)?),
            Err(fault) => Err(fault_in_unit(fault, begin)),
        }
    }
}

/// Units, and a list behind them.
fn with_joined(units: Vec<HeldUnit>, joined: JoinedList) -> Result<BroughtUnits, AllocError>
    ensures { IfOk result (Adds units.items joined) }
{
    match joined {
        JoinedList::Made(unit) => {
            let mut units = units;
            units.push(unit)?;
            Ok(BroughtUnits { units, inset: None })
        }
        JoinedList::Inset(inset) => Ok(BroughtUnits {
            units,
            inset: Some(inset),
        }),
    }
}
