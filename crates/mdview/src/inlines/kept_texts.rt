//! What the inline texts of found units read as, where the last of these units has texts of a held one.

ghost use Rattle.std.specs.Prelude.{◌≡◌, ◌+◌, ◌≤◌, Some, IfOk, IfSome, drop, length, map, option_map, slice_get, take};
ghost use Rattle.std.specs.List.{All};
ghost use Rattle.mdblock.specs.FoundLists.{found_unit};
ghost use Rattle.mdsource.specs.UnitTexts.{trees_in};
ghost use Rattle.mdview.specs.HeldUnit.{HeldUnit, IsRendered};
ghost use Rattle.mdview.specs.HeldTexts.{line_on};
ghost use Rattle.mdview.specs.KeptTexts.{IsHeldPart, last_texts, number_kept, number_read};
ghost use Rattle.mdview.specs.TextSetting.{AreReadFrom, DidReadIn, DidReadLast, DidReadRest, IsReadFrom, ReadSo, Stays, TellsDeep, TellsLine, are_deep, asking, deep_place, texts_beside, texts_under};

use crate::blocks::reparse::KeptTexts;
use crate::held::units::HeldUnit;
use crate::inlines::UnitTextReader;
use crate::pieces::text_room::{Alike, TextRoom};
use mdblock::{Found, Unit};
use mdchunks::Chunks;
use mdinline::{InlineFault, Parsed};
use mdsource::{EditFault, fault_in_unit};
use mdtext::Count;

/// What the texts of a unit from number `at` on read as before the edit.
#[derive(Clone, Copy)]
pub(crate) struct KeptReadings<'a> {
    pub(crate) at: usize,
    pub(crate) readings: &'a [Parsed],
    /// The unit that has them.
    pub(crate) unit: &'a HeldUnit,
}

/// The readings of the texts that are kept.
pub(crate) fn kept_readings<'a>(
    units: &'a Chunks<HeldUnit>,
    kept: Option<KeptTexts>,
) -> Option<KeptReadings<'a>>
    requires { IfSome kept (IsHeldPart units.now.items) }
    ensures at { option_map number_read result ≡ option_map number_kept kept }
    ensures readings { IfSome result (λ readings. IfSome kept (λ part. (unit : HeldUnit) → slice_get units.now.items part.unit ≡ Some unit
        → readings.readings.now ≡ drop part.from unit.read.readings)) }
    ensures unit { IfSome result (λ readings. IfSome kept (λ part. slice_get units.now.items part.unit ≡ Some readings.unit.now)) }
{
    let kept = kept?;
    let unit = units.get(kept.unit)?;
    Some(KeptReadings {
        at: kept.at,
        readings: &unit.inlines()[kept.from..],
        unit,
    })
}

impl<'a> UnitTextReader<'a> {
    /// Reads the texts of the units that were found in the lines from `from` on; the last of them may have texts that are held.
    pub(crate) fn read_found<C: Count>(
        &self,
        found: Vec<Found>,
        kept: Option<KeptReadings<'_>>,
        held: &Chunks<HeldUnit>,
        first: usize,
        next: usize,
        from: usize,
        room: &mut TextRoom<'a>,
        count: &mut C,
    ) -> Result<Vec<HeldUnit>, EditFault>
        requires first { first ≤ length held.now.items }
        requires held { All (DidReadIn (texts_under self.now room.old)) held.now.items }
        requires rendered { All (IsRendered self.now.options.now) held.now.items }
        requires kept { IfSome kept (DidReadLast (texts_under self.now room.old) (last_texts (trees_in (map found_unit found.items)))) }
        ensures units { IfOk result (λ units. AreReadFrom (texts_under self.now room.old) found.items units.items) }
        ensures deep { TellsLine result (option_map (line_on from) (deep_place (texts_under self.now room.old) (map found_unit found.items))) }
        ensures stays { Stays room.old room.new (C.lines count.old) (C.lines count.new) }
        ensures inlines { C.inlines count.new ≤ C.inlines count.old
            + texts_beside (texts_under self.now room.old) (option_map number_read kept.entry) (trees_in (map found_unit found.items)) }
    {
        let Some(kept) = kept else {
            return self.read_units(found, held, first, next, from, room, count);
        };
        let mut front = found;
        let Some(last) = front.pop() else {
            return Ok(Vec::new(self.alloc));
        };
        let mut units = self.read_units(front, held, first, next, from, room, count)?;
        let begin = from.saturating_add(last.begin());
        match self.read_last(last, kept, room, count) {
            Ok(unit) => units.push(unit)?,
            Err(fault) => return Err(fault_in_unit(fault, begin)),
        }
        Ok(units)
    }

    fn read_last<C: Count>(
        &self,
        found: Found,
        kept: KeptReadings<'_>,
        room: &mut TextRoom<'a>,
        count: &mut C,
    ) -> Result<HeldUnit, InlineFault>
        requires kept { DidReadLast (texts_under self.now room.old) found.unit.texts kept }
        ensures unit { IfOk result (IsReadFrom (texts_under self.now room.old) found) }
        ensures deep { TellsDeep result (are_deep (texts_under self.now room.old) found.unit.texts) }
        ensures stays { Stays room.old room.new (C.lines count.old) (C.lines count.new) }
        ensures inlines { C.inlines count.new ≤ C.inlines count.old + (kept.entry.at + asking (texts_under self.now room.old) (drop kept.entry.at found.unit.texts)) }
    {
        let (inlines, same) = self.read_part(found.unit(), kept, room, count)?;
        let like = Alike {
            unit: kept.unit,
            front: self.read_alike_in(same),
            behind: self.read_alike_in(kept.readings.len()),
        };
        let blocks = found.unit().blocks();
        let piece = room.piece_like(blocks, &inlines, self.options, like)?;
        Ok(HeldUnit::new(found, inlines, piece))
    }

    /// What the texts of a unit read as: those in front of the kept ones are read, or taken over where the held unit has them too, and of the kept ones those
    /// that are concerned are read. Answers also how many texts both units have from the front on, in front of the kept ones.
    fn read_part<C: Count>(
        &self,
        unit: &Unit,
        kept: KeptReadings<'_>,
        room: &mut TextRoom<'a>,
        count: &mut C,
    ) -> Result<(Vec<Parsed>, usize), InlineFault>
        requires kept { DidReadRest (texts_under self.now room.old) unit.now.texts kept }
        ensures front { IfOk result (λ read. (read.1 ≤ length unit.now.texts) × (take read.1 unit.now.texts ≡ take read.1 kept.entry.unit.now.read.unit.texts)) }
        ensures readings { IfOk result (λ read. ReadSo (texts_under self.now room.old) unit.now.texts read.0.items) }
        ensures deep { TellsDeep result (are_deep (texts_under self.now room.old) unit.now.texts) }
        ensures stays { Stays room.old room.new (C.lines count.old) (C.lines count.new) }
        ensures inlines { C.inlines count.new ≤ C.inlines count.old + (kept.entry.at + asking (texts_under self.now room.old) (drop kept.entry.at unit.now.texts)) }
    {
        let texts = unit.texts();
        let mut inlines = Vec::with_capacity(self.alloc, texts.len())?;
        let same = self.read_alike(
            &texts[..kept.at],
            kept.readings.len(),
            Some(kept.unit),
            &mut inlines,
            room,
            count,
        )?;
        self.read_concerned(&texts[kept.at..], kept.readings, &mut inlines, room, count)?;
        Ok((inlines, same))
    }
}
