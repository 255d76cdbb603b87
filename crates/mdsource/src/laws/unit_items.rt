//! The own lines of each unit of a document: they tell where its lists may be parted, and an edit leaves those of most units.

ghost use Rattle.std.specs.Prelude.{◌≡◌, ◌+◌, ◌-◌, ◌<◌, ◌≤◌, ◌↔◌, ℕ, List, [], ◌∷◌, ◌++◌};
ghost use Rattle.std.specs.Prelude.{Contains, drop, false, length, map, nat_eq, take};
ghost use Rattle.std.specs.List.{list_any};
ghost use Rattle.mdtext.specs.EntityTable.{EntityTable};
ghost use Rattle.blockspec.specs.BlockUnits.{begins, units};
ghost use Rattle.blockspec.specs.UnitTree.{FoundUnit};
ghost use Rattle.blockspec.specs.Joins.{joins};
ghost use Rattle.mdsource.specs.StoppedInside.{HoldsLine};
ghost use Rattle.mdsource.specs.UnitItems.{own_joins, own_lines};
ghost use Rattle.mdsource.specs.UnitTiles.{IsAhead, between_replaced, front_of, lines_of};
ghost use Rattle.mdsource.specs.Calls.{edit, put};
ghost use Rattle.mdsource.specs.Changes.{places};
ghost use Rattle.mdsource.specs.Setting.{Setting, Source};
ghost use Rattle.mdsource.specs.Stretch.{from_line, meeting_line, units_before, units_removed};

/// The lines of a unit alone give that unit and nothing else.
pub fn own_lines_give_the_unit()
    ensures { (entities : EntityTable) (lines : List (List ℕ)) (before : List FoundUnit) (one : FoundUnit) (back : List FoundUnit)
        → units entities lines ≡ before ++ one ∷ back
        → units entities (own_lines lines one) ≡ record { begin = 0; lines = one.lines; unit = one.unit } ∷ [] }
{}

/// Lines that come later leave the own lines of a unit as they are; those of the last unit are all lines from its first one on.
pub fn own_lines_stay()
    ensures later { (entities : EntityTable) (lines more : List (List ℕ)) (before : List FoundUnit) (one : FoundUnit) (back : List FoundUnit)
        → units entities lines ≡ before ++ one ∷ back → own_lines (lines ++ more) one ≡ own_lines lines one }
    ensures last { (entities : EntityTable) (lines : List (List ℕ)) (before : List FoundUnit) (one : FoundUnit)
        → units entities lines ≡ before ++ one ∷ [] → own_lines lines one ≡ drop one.begin lines }
{}

/// A list may be parted at a line exactly where a later item of the unit that has the line begins in it, as the unit's own lines give its items; and at no line
/// in front of all units.
pub fn own_lines_tell_joins()
    ensures told { (entities : EntityTable) (lines : List (List ℕ)) (before : List FoundUnit) (one : FoundUnit) (back : List FoundUnit) (line : ℕ)
        → HoldsLine entities lines before one back line
        → list_any (nat_eq line) (joins entities lines) ≡ list_any (nat_eq (line - one.begin)) (own_joins entities lines one) }
    ensures has { (entities : EntityTable) (lines : List (List ℕ)) (before : List FoundUnit) (one : FoundUnit) (back : List FoundUnit) (line : ℕ)
        → HoldsLine entities lines before one back line
        → Contains (joins entities lines) line ↔ Contains (own_joins entities lines one) (line - one.begin) }
    ensures front { (entities : EntityTable) (lines : List (List ℕ)) (line : ℕ) → line < front_of (length lines) (units entities lines)
        → list_any (nat_eq line) (joins entities lines) ≡ false }
{}

/// Of units that are gone through one after the other, by how many lines each has: the next one has any line that is not above its first one, and above the
/// first one behind it.
pub fn next_units_have_lines()
    ensures { (entities : EntityTable) (lines : List (List ℕ)) (sizes : List ℕ) (unit begin low size : ℕ) (later : List ℕ) (line : ℕ)
        → lines_of (units entities lines) ≡ sizes → IsAhead sizes (begins entities lines) unit begin low → drop unit sizes ≡ size ∷ later
        → begin ≤ line → line < begin + size
        → (before : List FoundUnit) × (one : FoundUnit) × (back : List FoundUnit) × HoldsLine entities lines before one back line
        × (length before ≡ unit) × (one.begin ≡ begin) × (one.lines ≡ size) }
{}

/// The units in front of an edit and those behind it keep their own lines; those of the others are the own lines of the units that are read.
pub fn own_lines_are_spliced()
    ensures { (setting : Setting) (old : Source) (at del : ℕ) (add : List (List ℕ)) → at + del ≤ length old.lines
        → let p = places setting old (edit at del add) in
        let new = (put old (edit at del add)).lines in
        let read = drop (from_line p) (take (meeting_line p) new) in
        map (own_lines new) (units setting.entities new)
        ≡ between_replaced (map (own_lines old.lines) (units setting.entities old.lines)) (units_before p) (units_before p + units_removed p)
        (map (own_lines read) (units setting.entities read)) }
{}
