//! What a reader tells that is fed the lines of a stretch of a text, and where the stretch ends.

ghost use Rattle.std.specs.Prelude.{◌≡◌, ◌+◌, ◌<◌, ◌≤◌, ◌↔◌, ℕ, Contains, List, [], ◌∷◌, ◌++◌, Some, false, true, length};
ghost use Rattle.std.specs.List.{All};
ghost use Rattle.mdtext.specs.EntityTable.{EntityTable};
ghost use Rattle.blockspec.specs.BlockUnits.{begins, units};
ghost use Rattle.mdblock.specs.held.Reads.{last_of};
ghost use Rattle.mdsource.specs.Calls.{edit, put};
ghost use Rattle.mdsource.specs.Changes.{places};
ghost use Rattle.mdsource.specs.ReadStretch.{IsReadStretch};
ghost use Rattle.mdsource.specs.Setting.{Setting, Source};
ghost use Rattle.mdsource.specs.Stretch.{count_between, from_line, is_meeting, meeting_line, units_before};
ghost use Rattle.mdsource.specs.UnitTiles.{begins_from, front_of, lines_of};

/// Of a text that is read from a line on at which it may be cut: a unit of it begins in the last line that was read exactly where the reader's last unit does.
pub fn readers_tell_beginnings()
    ensures { (entities : EntityTable) (text front lines : List (List ℕ)) (line : List ℕ) (later : List (List ℕ))
        → IsReadStretch entities text front lines line later
        → Contains (begins entities text) (length front + length lines) ↔ (last_of (begins entities (lines ++ line ∷ [])) ≡ Some (length lines)) }
{}

/// Reading ends at the first line behind the edit at which a unit begins in both texts, and else at the end of the text.
pub fn stretches_end_where_both_begin()
    ensures meets { (setting : Setting) (old : Source) (at del : ℕ) (add : List (List ℕ)) (line : ℕ) → at + del ≤ length old.lines
        → let p = places setting old (edit at del add) in
        let new = (put old (edit at del add)).lines in
        Contains (begins setting.entities new) line → is_meeting p line ≡ true
        → ((before : ℕ) → Contains (begins setting.entities new) before → before < line → is_meeting p before ≡ false) → meeting_line p ≡ line }
    ensures ends { (setting : Setting) (old : Source) (at del : ℕ) (add : List (List ℕ)) → at + del ≤ length old.lines
        → let p = places setting old (edit at del add) in
        let new = (put old (edit at del add)).lines in
        ((line : ℕ) → Contains (begins setting.entities new) line → is_meeting p line ≡ false) → meeting_line p ≡ length new }
{}

/// The units of a document lie one behind the other: how many lines stand before the first and how many each has tell where each begins.
pub fn units_tile()
    ensures { (entities : EntityTable) (lines : List (List ℕ))
        → begins entities lines ≡ begins_from (front_of (length lines) (units entities lines)) (lines_of (units entities lines)) }
{}

/// Reading begins with the last unit that begins above the edit, and with the first line where none does; the units before that one are kept.
pub fn reading_begins_above_the_edit()
    ensures inside { (setting : Setting) (old : Source) (at del : ℕ) (add : List (List ℕ)) (front : List ℕ) (from : ℕ) (back : List ℕ)
        → begins setting.entities old.lines ≡ front ++ from ∷ back → from < at → All (λ begin. at ≤ begin) back
        → let p = places setting old (edit at del add) in
        (from_line p ≡ from) × (units_before p ≡ length front) }
    ensures front { (setting : Setting) (old : Source) (at del : ℕ) (add : List (List ℕ))
        → All (λ begin. at ≤ begin) (begins setting.entities old.lines)
        → let p = places setting old (edit at del add) in
        (from_line p ≡ 0) × (units_before p ≡ 0) }
{}

/// How many units begin from one line on and before another, where those that begin above, between and behind are told apart.
pub fn units_between_are_counted()
    ensures { (from to : ℕ) (front middle back : List ℕ) → All (λ begin. begin < from) front → All (λ begin. (from ≤ begin) × (begin < to)) middle
        → All (λ begin. to ≤ begin) back → count_between from to ((front ++ middle) ++ back) ≡ length middle }
{}
