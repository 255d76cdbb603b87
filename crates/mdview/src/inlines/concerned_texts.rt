//! The texts of held units that asked for a label which leads elsewhere after an edit: they are read again.

ghost use Rattle.std.specs.Prelude.{◌≡◌, ◌+◌, ◌≤◌, ◌<◌, ◌^◌, ◌++◌, ◌∷◌, List, [], Some, IfOk, OnOk, false, if◌then◌else◌, length, map, slice_get, string_bytes, sum_by, true};
ghost use Rattle.std.specs.List.{All, list_any};
ghost use Rattle.blockspec.specs.UnitTree.{UnitTree};
ghost use Rattle.mdsource.specs.Changes.{asks_changed};
ghost use Rattle.mdview.specs.HeldUnit.{unit_in};
ghost use Rattle.mdview.specs.HeldBlocks.{lines_in};
ghost use Rattle.mdview.specs.HeldTexts.{between, labels_before, labels_behind, number_again};
ghost use Rattle.mdview.specs.TextSetting.{Appends, DidRead, DidReadAll, DidReadIn, IsOneReadAgain, IsReadAgain, ReadSo, Reads, Stays, TellsDeep, TellsLine, are_deep, asking, asking_numbers, asking_texts_of, deep_line, texts_under};

use crate::held::marked_units::{line_from, next_marked};
use crate::held::pieces::Piece;
use crate::held::units::HeldUnit;
use crate::inlines::UnitTextReader;
use crate::pieces::text_room::TextRoom;
use mdchunks::{Change, Chunks};
use mdinline::{InlineFault, Parsed};
use mdsource::{EditFault, fault_in_unit};
use mdtext::Count;

/// A unit that is held, by its number, with what its texts read as after an edit, and its piece then.
#[derive(Drop)]
pub(crate) struct Again {
    pub(crate) unit: usize,
    pub(crate) inlines: Vec<Parsed>,
    pub(crate) piece: Piece,
}

/// The unit takes its readings and its piece.
impl Change<HeldUnit> for Again {
    ghost use Rattle.std.specs.Prelude.{◌≡◌, length};
    ghost use Rattle.mdview.specs.Update.{renewed};

    ghost can_change = { λ again u. length again.inlines.items ≡ length u.read.unit.texts };

    ghost changed = { renewed };

    fn change(self, member: &mut HeldUnit) {
        member.renew(self.inlines, self.piece);
    }
}

impl<'a> UnitTextReader<'a> {
    /// Reads again those of the units from number `first` up to `next`, the first of which begins in line `begin` after the edit,
    /// that asked for a label that leads elsewhere then. A text of theirs that did not ask for one is not read again.
    pub(crate) fn read_again<C: Count>(
        &self,
        units: &Chunks<HeldUnit>,
        first: usize,
        next: usize,
        begin: usize,
        room: &mut TextRoom<'a>,
        again: &mut Vec<Again>,
        count: &mut C,
    ) -> Result<(), EditFault>
        requires order { first ≤ next }
        requires within { next ≤ length units.now.items }
        requires read { All (DidReadIn (texts_under self.now room.old)) units.now.items }
        requires near { begin + sum_by lines_in (between first next units.now.items) < 2 ^ 64 }
        requires again { All (IsOneReadAgain (texts_under self.now room.old) (map unit_in units.now.items)) again.old.items }
        ensures again { OnOk result (All (IsOneReadAgain (texts_under self.now room.old) (map unit_in units.now.items)) again.new.items) }
        ensures numbers { OnOk result (map number_again again.new.items ≡ map number_again again.old.items
            ++ asking_numbers (texts_under self.now room.old) first (between first next units.now.items)) }
        ensures deep { TellsLine result (deep_line (texts_under self.now room.old) begin (between first next units.now.items)) }
        ensures stays { Stays room.old room.new (C.lines count.old) (C.lines count.new) }
        ensures inlines { C.inlines count.new ≤ C.inlines count.old + asking_texts_of (texts_under self.now room.old) (between first next units.now.items) }
    {
        if self.labels.changes.is_empty() {
            return Ok(());
        }
        let marks = self.labels.changes.marks();
        let mut rest = units.iter_from(first);
        let mut i = next_marked(units, &mut rest, first, next, marks);
        while i < next {
            let unit = rest.next().unwrap();
            if let Err(fault) = self.read_if_concerned(i, unit, room, again, count) {
                return Err(fault_in_unit(fault, line_from(units, first, begin, i)));
            }
            i = next_marked(units, &mut rest, i + 1, next, marks);
        }
        Ok(())
    }

    /// Reads a unit again if a text of it asked for a label that leads elsewhere after the edit. It is the unit of this number.
    fn read_if_concerned<C: Count>(
        &self,
        number: usize,
        unit: &HeldUnit,
        room: &mut TextRoom<'a>,
        again: &mut Vec<Again>,
        count: &mut C,
    ) -> Result<(), InlineFault>
        requires read { DidReadIn (texts_under self.now room.old) unit.now }
        // Of any units of which this one has this number.
        ensures again { OnOk result ((trees : List UnitTree) → slice_get trees number ≡ Some unit.now.read.unit
            → All (IsOneReadAgain (texts_under self.now room.old) trees) again.old.items → All (IsOneReadAgain (texts_under self.now room.old) trees) again.new.items) }
        ensures numbers { OnOk result (map number_again again.new.items ≡ map number_again again.old.items
            ++ asking_numbers (texts_under self.now room.old) number (unit.now ∷ [])) }
        ensures deep { TellsDeep result (are_deep (texts_under self.now room.old) unit.now.read.unit.texts) }
        ensures stays { Stays room.old room.new (C.lines count.old) (C.lines count.new) }
        ensures inlines { C.inlines count.new ≤ C.inlines count.old + asking (texts_under self.now room.old) unit.now.read.unit.texts }
    {
        if !self.is_concerned(unit) {
            return Ok(());
        }
        let one = self.again(number, unit, room, count)?;
        again.push(one)?;
        Ok(())
    }

    /// Whether a text of the unit asked for a label that leads elsewhere after the edit.
    fn is_concerned(&self, unit: &HeldUnit) -> bool
        ensures { result ≡ list_any (asks_changed (labels_before self.now) (labels_behind self.now)) unit.now.read.readings }
    {
        for parsed in unit.inlines() {
            if self.labels.changes.concern(parsed.asked()) {
                return true;
            }
        }
        false
    }

    fn again<C: Count>(
        &self,
        number: usize,
        unit: &HeldUnit,
        room: &mut TextRoom<'a>,
        count: &mut C,
    ) -> Result<Again, InlineFault>
        requires read { DidReadIn (texts_under self.now room.old) unit.now }
        ensures unit { IfOk result (λ again. again.unit ≡ number) }
        ensures again { IfOk result (IsReadAgain (texts_under self.now room.old) unit.now.read.unit) }
        ensures deep { TellsDeep result (are_deep (texts_under self.now room.old) unit.now.read.unit.texts) }
        ensures stays { Stays room.old room.new (C.lines count.old) (C.lines count.new) }
        ensures inlines { C.inlines count.new ≤ C.inlines count.old + asking (texts_under self.now room.old) unit.now.read.unit.texts }
    {
        let inlines = self.read_some(unit, room, count)?;
        let like = unit.piece().len();
        let piece = room.unit_piece(unit.unit().blocks(), &inlines, self.options, like)?;
        Ok(Again {
            unit: number,
            inlines,
            piece,
        })
    }

    /// What the texts of a unit that is held read as; those that are concerned are read.
    fn read_some<C: Count>(
        &self,
        unit: &HeldUnit,
        room: &mut TextRoom<'a>,
        count: &mut C,
    ) -> Result<Vec<Parsed>, InlineFault>
        requires read { DidReadIn (texts_under self.now room.old) unit.now }
        ensures readings { IfOk result (λ inlines. ReadSo (texts_under self.now room.old) unit.now.read.unit.texts inlines.items) }
        ensures deep { TellsDeep result (are_deep (texts_under self.now room.old) unit.now.read.unit.texts) }
        ensures stays { Stays room.old room.new (C.lines count.old) (C.lines count.new) }
        ensures inlines { C.inlines count.new ≤ C.inlines count.old + asking (texts_under self.now room.old) unit.now.read.unit.texts }
    {
        let texts = unit.unit().texts();
        let mut inlines = Vec::with_capacity(self.alloc, texts.len())?;
        self.read_concerned(texts, unit.inlines(), &mut inlines, room, count)?;
        Ok(inlines)
    }

    /// Puts the readings of texts that are held behind those that are there; texts that are concerned are read.
    pub(crate) fn read_concerned<C: Count>(
        &self,
        texts: &[String],
        held: &[Parsed],
        inlines: &mut Vec<Parsed>,
        room: &mut TextRoom<'a>,
        count: &mut C,
    ) -> Result<(), InlineFault>
        requires held { DidReadAll (texts_under self.now room.old) (map string_bytes texts.now) held.now }
        ensures readings { Appends (texts_under self.now room.old) (map string_bytes texts.now) inlines.old.items inlines.new.items result }
        ensures stays { Stays room.old room.new (C.lines count.old) (C.lines count.new) }
        ensures inlines { C.inlines count.new ≤ C.inlines count.old + asking (texts_under self.now room.old) (map string_bytes texts.now) }
    {
        for i in 0..texts.len() {
            inlines.push(self.read_one(&texts[i], &held[i], room, count)?)?;
        }
        Ok(())
    }

    fn read_one<C: Count>(
        &self,
        text: &str,
        held: &Parsed,
        room: &mut TextRoom<'a>,
        count: &mut C,
    ) -> Result<Parsed, InlineFault>
        requires held { DidRead (texts_under self.now room.old) text.now held.now }
        ensures reading { Reads (texts_under self.now room.old) text.now result }
        ensures stays { Stays room.old room.new (C.lines count.old) (C.lines count.new) }
        ensures inlines { C.inlines count.new ≤ C.inlines count.old + (if asks_changed (labels_before self.now) (labels_behind self.now) held.now then 1 else 0) }
    {
        if self.labels.changes.concern(held.asked()) {
            self.read_text(text, room, count)
        } else {
            Ok(held.copy(self.alloc)?)
        }
    }
}
