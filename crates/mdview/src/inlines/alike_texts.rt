//! What the inline texts of a unit read as where a held unit has the same ones.

ghost use Rattle.std.specs.Prelude.{◌≡◌, ◌+◌, ◌<◌, ◌≤◌, ℕ, Bool, List, if◌then◌else◌, IfOk, IfSome, Some, false, is_some, length, map, slice_get, string_bytes, take, true, None};
ghost use Rattle.std.specs.List.{list_any};
ghost use Rattle.inlinespec.specs.ParsedText.{ParsedText};
ghost use Rattle.mdtext.specs.Counted.{counted};
ghost use Rattle.mdview.specs.LabelTargets.{at};
ghost use Rattle.mdview.specs.TextSetting.{Appends, DidRead, DidReadIn, Reads, Stays, texts_under};

use crate::held::units::HeldUnit;
use crate::inlines::UnitTextReader;
use crate::pieces::text_room::TextRoom;
use mdinline::{InlineFault, Parsed};
use mdtext::Count;

/// What the text of this number of a held unit reads as, if it is the same text.
fn same_reading<'b>(text: &str, held: &'b HeldUnit, i: usize) -> Option<&'b Parsed>
    ensures reading { IfSome result (λ r. (f : List ℕ → ParsedText) → held.now.read.readings ≡ map f held.now.read.unit.texts → r.now ≡ f text.now) }
    ensures shallow { IfSome result (λ r. (p : ParsedText → Bool) → list_any p held.now.read.readings ≡ false → p r.now ≡ false) }
    ensures text { is_some result ≡ true → slice_get held.now.read.unit.texts i ≡ Some text.now }
{
    let there = held.unit().texts().get(i)?;
    if there.as_str() == text {
        let reading = held.inlines().get(i)?;
        return Some(reading);
    }
    None
}

/// What text number `i` reads as, which has `left - 1` others behind it, if the held unit has it at the same place: in front, by its number, up to the first
/// text that differs, and from then on by how many are left. So no text is compared twice.
fn kept_reading<'b>(
    text: &str,
    held: Option<&'b HeldUnit>,
    i: usize,
    left: usize,
    in_front: &mut bool,
) -> Option<&'b Parsed>
    ensures reading { IfSome result (λ r. (f : List ℕ → ParsedText) → IfSome held.entry (λ u. u.now.read.readings ≡ map f u.now.read.unit.texts) → r.now ≡ f text.now) }
    ensures shallow { IfSome result (λ r. (p : ParsedText → Bool) → IfSome held.entry (λ u. list_any p u.now.read.readings ≡ false) → p r.now ≡ false) }
    ensures front { in_front.new ≡ true → (in_front.old ≡ true) × IfSome held.entry (λ u. slice_get u.now.read.unit.texts i ≡ Some text.now) }
{
    let held = held?;
    if *in_front {
        let reading = same_reading(text, held, i);
        *in_front = reading.is_some();
        return reading;
    }
    same_reading(text, held, held.unit().texts().len().checked_sub(left)?)
}

/// How many texts from the front on are the same, where text number `i` still is one of them or not; before it so many were.
fn same_up_to(before: usize, i: usize, in_front: bool) -> usize
    requires { i < usize.MAX }
    ensures { result ≡ (if in_front then i + 1 else before) }
{
    if in_front { i + 1 } else { before }
}

impl<'a> UnitTextReader<'a> {
    /// Reads texts, behind which their unit has so many others, and puts their readings behind those that are there. A text that a held unit has at the same
    /// place, counted from the front up to the first that differs and from the end behind it, reads as it did, unless it asked for a label that leads
    /// elsewhere: its reading is shared. Each text counts as read. Answers how many texts there are up to the first that differs.
    pub(crate) fn read_alike<C: Count>(
        &self,
        texts: &[String],
        behind: usize,
        held: Option<&HeldUnit>,
        inlines: &mut Vec<Parsed>,
        room: &mut TextRoom<'a>,
        count: &mut C,
    ) -> Result<usize, InlineFault>
        requires held { IfSome held (λ u. DidReadIn (texts_under self.now room.old) u.now) }
        ensures readings { Appends (texts_under self.now room.old) (map string_bytes texts.now) inlines.old.items inlines.new.items result }
        ensures front { IfOk result (λ front. (front ≤ length texts.now) × IfSome held.entry (λ u. take front (map string_bytes texts.now) ≡ take front u.now.read.unit.texts)) }
        ensures stays { Stays room.old room.new (C.lines count.old) (C.lines count.new) }
        ensures inlines { C.inlines count.new ≤ C.inlines count.old + length texts.now }
    {
        let mut in_front = true;
        let mut front = 0;
        for i in 0..texts.len() {
            let text = texts[i].as_str();
            let left = (texts.len() - i).saturating_add(behind);
            let kept = kept_reading(text, held, i, left, &mut in_front);
            front = same_up_to(front, i, in_front);
            inlines.push(self.read_or_keep(text, kept, room, count)?)?;
        }
        Ok(front)
    }

    /// Of so many texts that a held unit has too, how many read as they did for certain: all where no label leads elsewhere.
    pub(crate) fn read_alike_in(&self, same: usize) -> usize
        ensures { 0 < result → (result ≡ same) × ((label : List ℕ) → at label self.now.labels.now.changes.now.targets.entries ≡ None) }
    {
        if !self.labels.changes.is_empty() {
            return 0;
        }
        same
    }

    /// Reads a text, or takes what it is known to have read as before the edit.
    fn read_or_keep<C: Count>(
        &self,
        text: &str,
        kept: Option<&Parsed>,
        room: &mut TextRoom<'a>,
        count: &mut C,
    ) -> Result<Parsed, InlineFault>
        requires kept { IfSome kept (λ r. DidRead (texts_under self.now room.old) text.now r.now) }
        ensures reading { Reads (texts_under self.now room.old) text.now result }
        ensures stays { Stays room.old room.new (C.lines count.old) (C.lines count.new) }
        ensures inlines { C.inlines count.new ≡ counted (C.inlines count.old) }
    {
        match kept {
            Some(reading) => self.keep_one(text, reading, room, count),
            None => self.read_text(text, room, count),
        }
    }

    /// What a text reads as that read so before the edit. It counts as read.
    fn keep_one<C: Count>(
        &self,
        text: &str,
        held: &Parsed,
        room: &mut TextRoom<'a>,
        count: &mut C,
    ) -> Result<Parsed, InlineFault>
        requires held { DidRead (texts_under self.now room.old) text.now held.now }
        ensures reading { Reads (texts_under self.now room.old) text.now result }
        ensures stays { Stays room.old room.new (C.lines count.old) (C.lines count.new) }
        ensures inlines { C.inlines count.new ≡ counted (C.inlines count.old) }
    {
        if self.labels.changes.concern(held.asked()) {
            return self.read_text(text, room, count);
        }
        count.inline();
        Ok(held.copy(self.alloc)?)
    }
}
