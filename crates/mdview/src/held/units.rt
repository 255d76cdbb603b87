//! A unit that is held: with what its texts read as, and its HTML.

ghost use Rattle.std.specs.Prelude.{◌≡◌, ◌<◌, ◌≤◌, ◌+◌, ◌-◌, ◌++◌, IfSome, MatchOption, Some, drop, is_some, length, map, nat_eq, option_map, slice_get};
ghost use Rattle.std.specs.List.{All, list_any};
ghost use Rattle.std.specs.List.Sorted.{IsNonDecreasing};
ghost use Rattle.mdblock.specs.Insets.{FitsList, inset_front};
ghost use Rattle.mdblock.specs.Spliced.{mark_at, spliced_list};
ghost use Rattle.mdhtml.specs.InsetLists.{inset_readings};
ghost use Rattle.mdview.specs.HeldLists.{item_line, list_in, unplaced};
ghost use Rattle.mdview.specs.LabelMarks.{held_marks};

use crate::held::label_marks::marks_in;
use crate::held::pieces::Piece;
use mdblock::{Found, Inset, Unit};
use mdchunks::Weighed;
use mdinline::Parsed;
use std::marker::Model;
use std::mem;

/// A unit, what each of its texts reads as, and its piece of HTML.
#[derive(Drop)]
pub(crate) struct HeldUnit {
    found: Found,
    inlines: Vec<Parsed>,
    piece: Piece,
    marks: u64,
}

impl Model for HeldUnit {
    ghost use Rattle.std.specs.Prelude.{◌≡◌, length};
    ghost use Rattle.mdview.specs.HeldUnit.{HeldUnit, held_unit_code};
    ghost use Rattle.mdview.specs.LabelMarks.{unit_marks};

    ghost Value = { HeldUnit };

    ghost coded = { held_unit_code };

    ghost view = { λ u. record {
      read = record { lines = u.found.lines; unit = u.found.unit; readings = u.inlines.items; items = u.found.marks; parted = u.found.parted };
      piece = u.piece.html;
      ends = u.piece.ends;
    } };

    ghost invariant = { λ u. (length u.inlines.items ≡ length u.found.unit.texts) × (u.marks ≡ unit_marks u.found.unit u.inlines.items) };
}

impl HeldUnit {
    /// A unit whose texts read so, with its piece.
    pub(crate) fn new(found: Found, inlines: Vec<Parsed>, piece: Piece) -> HeldUnit
        requires { length inlines.items ≡ length found.unit.texts }
        ensures { result ≡ record {
          read = record { lines = found.lines; unit = found.unit; readings = inlines.items; items = found.marks; parted = found.parted };
          piece = piece.html;
          ends = piece.ends;
        } }
    {
        let marks = marks_in(found.unit(), &inlines);
        HeldUnit {
            found,
            inlines,
            piece,
            marks,
        }
    }

    /// How many lines it has, up to the next unit's first line or to the end.
    pub(crate) fn lines(&self) -> usize
        ensures { result ≡ self.now.read.lines }
    {
        self.found.lines()
    }

    /// The unit as it was found; where it was is not known any more.
    pub(crate) fn found(&self) -> &Found
        ensures { unplaced result.now ≡ list_in self.now }
    {
        &self.found
    }

    /// Which of its later items begins in this line of the unit, if it is a list.
    pub(crate) fn item_at(&self, line: usize) -> Option<usize>
        ensures there { IfSome result (λ i. slice_get (map item_line self.now.read.items) i ≡ Some line) }
        // The items of a list begin in rising lines.
        ensures told { IsNonDecreasing (map item_line self.now.read.items) → is_some result ≡ list_any (nat_eq line) (map item_line self.now.read.items) }
    {
        let joins = self.found.joins();
        let place = joins.partition_point(|join| join.line < line);
        if joins.get(place)?.line == line {
            Some(place)
        } else {
            None
        }
    }

    /// The last of its later items that begins above this line of the unit, if it is a list.
    pub(crate) fn item_above(&self, line: usize) -> Option<usize>
        ensures above { IfSome result (λ i. (i < length self.now.read.items) × ((mark_at self.now.read.items i).line < line)) }
        // The items of a list begin in rising lines: those behind the answer begin in this line or below, and all do where there is none.
        ensures told { IsNonDecreasing (map item_line self.now.read.items) → MatchOption result (All (λ begin. line ≤ begin) (map item_line self.now.read.items))
            (λ i. All (λ begin. line ≤ begin) (drop (i + 1) (map item_line self.now.read.items))) }
    {
        let joins = self.found.joins();
        let item = joins
            .partition_point(|join| join.line < line)
            .checked_sub(1)?;
        if joins.get(item)?.line < line {
            Some(item)
        } else {
            None
        }
    }

    /// Which of its later items begins in this line of the text, if it is a list; the unit ends in front of the line `end` of the text.
    pub(crate) fn item_at_text_line(&self, end: usize, line: usize) -> Option<usize>
        ensures there { IfSome result (λ i. (end ≤ line + self.now.read.lines) × (self.now.read.lines ≤ end)
            × (slice_get (map item_line self.now.read.items) i ≡ Some ((line + self.now.read.lines) - end))) }
        ensures told { IsNonDecreasing (map item_line self.now.read.items) → self.now.read.lines ≤ end → end ≤ line + self.now.read.lines
            → is_some result ≡ list_any (nat_eq ((line + self.now.read.lines) - end)) (map item_line self.now.read.items) }
    {
        let begin = end.checked_sub(self.lines())?;
        self.item_at(line.checked_sub(begin)?)
    }

    pub(crate) fn unit(&self) -> &Unit
        ensures { result.now ≡ self.now.read.unit }
    {
        self.found.unit()
    }

    pub(crate) fn inlines(&self) -> &[Parsed]
        ensures value { result.now ≡ self.now.read.readings }
        ensures all { length result.now ≡ length self.now.read.unit.texts }
    {
        &self.inlines
    }

    /// The marks of the labels that it defines or a text of it asked for.
    fn label_marks(&self) -> u64
        ensures { result ≡ held_marks self.now }
    {
        self.marks
    }

    pub(crate) fn piece(&self) -> &str
        ensures { result.now ≡ self.now.piece }
    {
        self.piece.html()
    }

    /// Where the items of a list end in its piece, if that is known.
    pub(crate) fn ends(&self) -> Option<&[usize]>
        ensures { option_map (λ ends. ends.now) result ≡ self.now.ends }
    {
        self.piece.ends()
    }

    /// Takes other readings of the texts, and another piece. It takes no memory.
    pub(crate) fn renew(&mut self, inlines: Vec<Parsed>, piece: Piece)
        requires { length inlines.items ≡ length self.old.read.unit.texts }
        ensures { self.new ≡ record {
          read = record self.old.read { readings = inlines.items };
          piece = piece.html;
          ends = piece.ends;
        } }
    {
        self.marks = marks_in(self.found.unit(), &inlines);
        self.inlines = inlines;
        self.piece = piece;
    }

    /// Takes items of a list in, where its own ones stood up to a join, with what their texts read as; and another piece. It takes no memory.
    pub(crate) fn put(&mut self, inset: Inset, inlines: Vec<Parsed>, piece: Piece)
        requires fits { FitsList inset (list_in self.old) }
        requires texts { inset.before + length inlines.items ≡ (mark_at self.old.read.items inset.join).texts }
        ensures { let list = spliced_list (inset_front inset (list_in self.old)) (list_in self.old) inset.join in
            self.new ≡ record {
              read = record {
                lines = list.lines;
                unit = list.unit;
                readings = inset_readings inset.before inlines.items self.old.read.readings;
                items = list.marks;
                parted = list.parted;
              };
              piece = piece.html;
              ends = piece.ends;
            } }
    {
        let before = inset.before();
        self.found.put(inset);
        put_between(&mut self.inlines, before, inlines);
        self.marks = marks_in(self.found.unit(), &self.inlines);
        self.piece = piece;
    }
}

/// Puts readings in the place of as many behind so many.
fn put_between(inlines: &mut Vec<Parsed>, before: usize, part: Vec<Parsed>)
    requires { before + length part.items ≤ length inlines.old.items }
    ensures { inlines.new.items ≡ inset_readings before part.items inlines.old.items }
{
    put_first(&mut inlines[before..], part);
}

/// Puts readings in the place of as many first ones.
fn put_first(inlines: &mut [Parsed], first: Vec<Parsed>)
    requires { length first.items ≤ length inlines.old }
    ensures { inlines.new ≡ first.items ++ drop (length first.items) inlines.old }
{
    let mut first = first;
    for i in 0..first.len() {
        mem::swap(&mut inlines[i], &mut first[i]);
    }
}

/// A unit weighs its lines, so that the chunks tell where units begin. It has the marks of the labels that it names.
impl Weighed for HeldUnit {
    ghost weight = { λ u. u.read.lines };

    ghost marks = { held_marks };

    fn weight(&self) -> usize {
        self.lines()
    }

    fn marks(&self) -> u64 {
        self.label_marks()
    }
}
