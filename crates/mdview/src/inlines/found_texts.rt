//! What the inline texts of found units read as, and the pieces of these units.

ghost use Rattle.std.specs.Prelude.{◌≡◌, ◌+◌, ◌≤◌, ◌∷◌, None, take, IfOk, IfSome, length, map, option_map, sum_by, MatchOption};
ghost use Rattle.std.specs.List.{All};
ghost use Rattle.mdblock.specs.FoundLists.{found_unit};
ghost use Rattle.mdsource.specs.UnitTexts.{trees_in};
ghost use Rattle.mdview.specs.HeldUnit.{AreEnds, IsRendered, html_of, texts_in};
ghost use Rattle.mdview.specs.HeldTexts.{entities_in, line_on};
ghost use Rattle.mdview.specs.TextSetting.{AreReadFrom, DidReadIn, IsReadFrom, ReadSo, Stays, TellsDeep, TellsLine, are_deep, deep_place, texts_under};

use crate::held::SPLICE_ROOM;
use crate::held::pieces::Piece;
use crate::held::units::HeldUnit;
use crate::inlines::UnitTextReader;
use crate::pieces::text_room::{Alike, TextRoom};
use mdblock::{Found, Unit};
use mdchunks::{Chunks, Iter};
use mdinline::{InlineFault, Parsed};
use mdsource::{EditFault, fault_in_unit};
use mdtext::{Count, NoMemory};

impl<'a> UnitTextReader<'a> {
    /// Reads the texts of the units that were found in the lines from `from` on. They may have texts of the held units from
    /// number `first` up to `next`, in whose place they come, one by one: the readings of those are shared.
    pub(crate) fn read_units<C: Count>(
        &self,
        found: Vec<Found>,
        held: &Chunks<HeldUnit>,
        first: usize,
        next: usize,
        from: usize,
        room: &mut TextRoom<'a>,
        count: &mut C,
    ) -> Result<Vec<HeldUnit>, EditFault>
        requires first { first ≤ length held.now.items }
        requires held { All (DidReadIn (texts_under self.now room.old)) held.now.items }
        requires rendered { All (IsRendered self.now.options.now) held.now.items }
        ensures units { IfOk result (λ units. AreReadFrom (texts_under self.now room.old) found.items units.items) }
        ensures deep { TellsLine result (option_map (line_on from) (deep_place (texts_under self.now room.old) (map found_unit found.items))) }
        ensures stays { Stays room.old room.new (C.lines count.old) (C.lines count.new) }
        ensures inlines { C.inlines count.new ≤ C.inlines count.old + sum_by texts_in (trees_in (map found_unit found.items)) }
    {
        // Where nothing is found no memory is asked for.
        let wanted = if found.is_empty() {
            0
        } else {
            found.len().saturating_add(SPLICE_ROOM)
        };
        let mut units = Vec::with_capacity(self.alloc, wanted)?;
        let mut like = held.iter_from(first);
        let mut left = next.saturating_sub(first);
        for one in found {
            let begin = from.saturating_add(one.begin());
            let was = next_gone(&mut like, &mut left);
            match self.read_unit(one, was, room, count) {
                Ok(unit) => units.push(unit)?,
                Err(fault) => return Err(fault_in_unit(fault, begin)),
            }
        }
        Ok(units)
    }

    fn read_unit<C: Count>(
        &self,
        found: Found,
        held: Option<&HeldUnit>,
        room: &mut TextRoom<'a>,
        count: &mut C,
    ) -> Result<HeldUnit, InlineFault>
        requires held { IfSome held (λ u. DidReadIn (texts_under self.now room.old) u.now) }
        requires rendered { IfSome held (λ u. IsRendered self.now.options.now u.now) }
        ensures unit { IfOk result (IsReadFrom (texts_under self.now room.old) found) }
        ensures deep { TellsDeep result (are_deep (texts_under self.now room.old) found.unit.texts) }
        ensures stays { Stays room.old room.new (C.lines count.old) (C.lines count.new) }
        ensures inlines { C.inlines count.new ≤ C.inlines count.old + texts_in found.unit }
    {
        let (inlines, same) = self.read_texts(found.unit(), held, room, count)?;
        let piece = self.unit_piece(found.unit(), &inlines, held, same, room)?;
        Ok(HeldUnit::new(found, inlines, piece))
    }

    /// The piece of a unit whose texts read so. Where it comes in the place of a held one, both have so many texts alike from the front on.
    fn unit_piece(
        &self,
        unit: &Unit,
        inlines: &[Parsed],
        held: Option<&HeldUnit>,
        same: usize,
        room: &mut TextRoom<'a>,
    ) -> Result<Piece, NoMemory>
        requires readings { ReadSo (texts_under self.now room.old) unit.now.texts inlines.now }
        requires held { IfSome held (λ u. DidReadIn (texts_under self.now room.old) u.now) }
        requires rendered { IfSome held (λ u. IsRendered self.now.options.now u.now) }
        requires front { (same ≤ length unit.now.texts) × IfSome held (λ u. take same unit.now.texts ≡ take same u.now.read.unit.texts) }
        ensures html { IfOk result (λ piece. piece.html ≡ html_of self.now.options.now unit.now inlines.now) }
        ensures ends { IfOk result (λ piece. AreEnds self.now.options.now inlines.now unit.now.blocks piece.ends) }
        ensures room { entities_in room.new ≡ entities_in room.old }
    {
        let blocks = unit.blocks();
        match held {
            Some(there) => {
                let like = Alike {
                    unit: there,
                    front: self.read_alike_in(same),
                    behind: 0,
                };
                room.piece_like(blocks, inlines, self.options, like)
            }
            None => room.unit_piece(blocks, inlines, self.options, 0),
        }
    }

    fn read_texts<C: Count>(
        &self,
        unit: &Unit,
        held: Option<&HeldUnit>,
        room: &mut TextRoom<'a>,
        count: &mut C,
    ) -> Result<(Vec<Parsed>, usize), InlineFault>
        requires held { IfSome held (λ u. DidReadIn (texts_under self.now room.old) u.now) }
        ensures readings { IfOk result (λ read. ReadSo (texts_under self.now room.old) unit.now.texts read.0.items) }
        ensures front { IfOk result (λ read. (read.1 ≤ length unit.now.texts) × IfSome held.entry (λ u. take read.1 unit.now.texts ≡ take read.1 u.now.read.unit.texts)) }
        ensures deep { TellsDeep result (are_deep (texts_under self.now room.old) unit.now.texts) }
        ensures stays { Stays room.old room.new (C.lines count.old) (C.lines count.new) }
        ensures inlines { C.inlines count.new ≤ C.inlines count.old + length unit.now.texts }
    {
        let texts = unit.texts();
        let mut inlines = Vec::with_capacity(self.alloc, texts.len())?;
        let same = self.read_alike(texts, 0, held, &mut inlines, room, count)?;
        Ok((inlines, same))
    }
}

/// The next of the held units that go, of which so many are left. One that stays has its piece and its memory still, so none comes in its place.
fn next_gone<'b>(held: &mut Iter<'b, HeldUnit>, left: &mut usize) -> Option<&'b HeldUnit>
    ensures { MatchOption result (held.new ≡ held.old) (λ unit. held.old ≡ unit.now ∷ held.new) }
{
    *left = left.checked_sub(1)?;
    held.next()
}
