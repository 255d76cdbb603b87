//! Where an edit begins to read, and where what it reads meets the units that are held.

ghost use Rattle.std.specs.Prelude.{◌≡◌, ◌≤◌, ◌<◌, ◌-◌, ◌^◌, drop, ℕ, List, IfSome, is_some, true, length, map, max, nat_eq, nat_lt};
ghost use Rattle.std.specs.List.{filter, fold, list_any};
ghost use Rattle.mdtext.specs.EntityTable.{EntityTable};
ghost use Rattle.blockspec.specs.BlockUnits.{begins};
ghost use Rattle.mdsource.specs.Stretch.{count_between};
ghost use Rattle.mdsource.specs.UnitTiles.{IsAhead, begins_from};
ghost use Rattle.mdview.specs.HeldBlocks.{HoldsUnits, lines_in};
ghost use Rattle.mdview.specs.HeldItems.{IsCounted, IsItemAt, IsItemOf};
ghost use Rattle.blockspec.specs.Joins.{joins};
ghost use Rattle.mdview.specs.HeldUnit.{first_line, read_of};

use crate::held::units::HeldUnit;
use mdchunks::{Chunks, Iter};

/// A unit by its number, and the number of its first line.
#[derive(Clone, Copy)]
pub(crate) struct UnitStart {
    pub(crate) unit: usize,
    pub(crate) line: usize,
}

/// Where reading begins: a line, and the first unit that is not before it.
#[derive(Clone, Copy)]
pub(crate) struct Resume {
    pub(crate) from: usize,
    pub(crate) start: UnitStart,
}

/// The last unit that begins above a line. Where there is none, it is the front of the text.
pub(crate) fn resume_at(units: &Chunks<HeldUnit>, head: usize, at: usize) -> Resume
    ensures from { result.from ≤ at }
    ensures unit { result.start.unit ≤ length units.now.items }
    ensures counted { IsCounted head units.now.items result.start }
    // Of units of some lines that begin where those before them end.
    ensures resumed { (e : EntityTable) (lines : List (List ℕ)) → length lines ≤ 1000000 → length (begins e lines) ≡ length units.now.items
        → begins e lines ≡ begins_from head (map lines_in units.now.items)
        → (result.from ≡ fold max 0 (filter (λ begin. nat_lt begin at) (begins e lines))) × (result.start.unit ≡ count_between 0 result.from (begins e lines))
        × IsAhead (map lines_in units.now.items) (begins e lines) result.start.unit result.start.line result.from }
{
    let front = Resume {
        from: 0,
        start: UnitStart {
            unit: 0,
            line: head,
        },
    };
    if at <= head {
        return front;
    }
    match units.find(at - 1 - head) {
        Some(place) => {
            let begin = head + place.front;
            Resume {
                from: begin,
                start: UnitStart {
                    unit: place.member,
                    line: begin,
                },
            }
        }
        None => front,
    }
}

/// The first line of the unit of this number, or the line behind the last unit.
pub(crate) fn begin_of(units: &Chunks<HeldUnit>, head: usize, number: usize) -> usize
    requires { number ≤ length units.now.items }
    ensures { result ≡ first_line head (map read_of units.now.items) number }
{
    head.saturating_add(units.weight_before(number))
}

/// A later item of a list that is held: the list, its number, and which of its later items it is.
#[derive(Clone, Copy)]
pub(crate) struct HeldItem<'a> {
    pub(crate) unit: &'a HeldUnit,
    pub(crate) number: usize,
    pub(crate) item: usize,
}

/// The units in their order, each with its first line. It goes on and never back.
#[derive(Drop)]
pub(crate) struct UnitCursor<'a> {
    units: &'a Chunks<HeldUnit>,
    next: UnitStart,
    /// The units from the next one on.
    rest: Iter<'a, HeldUnit>,
    ghost stands: { rest ≡ drop next.unit units.now.items },
}

impl<'a> UnitCursor<'a> {
    ghost use Rattle.mdview.specs.UnitCursors.{GoesOn};

    /// A cursor at a unit.
    pub(crate) fn at(units: &'a Chunks<HeldUnit>, start: UnitStart) -> UnitCursor<'a>
        requires { start.unit ≤ length units.now.items }
        ensures { (result.units.now ≡ units.now) × (result.next ≡ start) }
    {
        UnitCursor {
            units,
            next: start,
            rest: units.iter_from(start.unit),
        }
    }

    /// The unit that begins at a line. The lines that are asked for ascend.
    pub(crate) fn unit_at(&mut self, line: usize) -> Option<usize>
        ensures on { GoesOn self.old self.new }
        ensures unit { IfSome result (λ unit. (unit ≡ self.new.next.unit) × (unit < length self.new.units.now.items)) }
        ensures ahead { (e : EntityTable) (lines : List (List ℕ)) (low : ℕ) → length lines ≤ 1000000 → low ≤ line
            → IsAhead (map lines_in self.old.units.now.items) (begins e lines) self.old.next.unit self.old.next.line low
            → IsAhead (map lines_in self.old.units.now.items) (begins e lines) self.new.next.unit self.new.next.line line
            × (is_some result ≡ list_any (nat_eq line) (begins e lines)) }
        ensures here { is_some result ≡ true → self.new.next.line ≡ line }
    {
        self.pass(line);
        if self.next.unit < self.units.len() && self.next.line == line {
            Some(self.next.unit)
        } else {
            None
        }
    }

    /// The later item of a list that begins at a line. The lines that are asked for ascend.
    pub(crate) fn item_at(&mut self, line: usize) -> Option<HeldItem<'a>>
        ensures on { GoesOn self.old self.new }
        ensures item { IfSome result (IsItemOf self.new.units.now.items) }
        ensures ahead { (e : EntityTable) (lines : List (List ℕ)) (low : ℕ) → length lines ≤ 1000000 → low ≤ line
            → IsAhead (map lines_in self.old.units.now.items) (begins e lines) self.old.next.unit self.old.next.line low
            → IsAhead (map lines_in self.old.units.now.items) (begins e lines) self.new.next.unit self.new.next.line line }
        // Of units of some lines that begin where those before them end.
        ensures told { (e : EntityTable) (lines : List (List ℕ)) (head low : ℕ) → length lines ≤ 1000000 → low ≤ line → line < length lines
            → HoldsUnits e lines head (map read_of self.old.units.now.items)
            → IsAhead (map lines_in self.old.units.now.items) (begins e lines) self.old.next.unit self.old.next.line low
            → IsCounted head self.old.units.now.items self.old.next
            → (is_some result ≡ list_any (nat_eq line) (joins e lines)) × IfSome result (IsItemAt (begins e lines) line) }
    {
        self.pass(line);
        let number = self.next.unit.checked_sub(1)?;
        let unit = self.units.get(number)?;
        let item = unit.item_at_text_line(self.next.line, line)?;
        Some(HeldItem { unit, number, item })
    }

    /// Passes the units that begin above a line.
    fn pass(&mut self, line: usize)
        ensures on { GoesOn self.old self.new }
        ensures past { self.new.next.unit < length self.new.units.now.items → line ≤ self.new.next.line }
        ensures ahead { (e : EntityTable) (lines : List (List ℕ)) (low : ℕ) → length lines ≤ 1000000 → low ≤ line
            → IsAhead (map lines_in self.old.units.now.items) (begins e lines) self.old.next.unit self.old.next.line low
            → IsAhead (map lines_in self.old.units.now.items) (begins e lines) self.new.next.unit self.new.next.line line }
    {
        while self.next.unit < self.units.len() && self.next.line < line {
            let unit = self.rest.next().unwrap();
            self.next = UnitStart {
                unit: self.next.unit + 1,
                line: self.next.line.saturating_add(unit.lines()),
            };
        }
    }
}
