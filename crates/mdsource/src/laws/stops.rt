//! Where the reading of an edit stops inside a list, what a reader tells of that place, and how the units of both texts correspond then.

ghost use Rattle.std.specs.Prelude.{◌≡◌, ◌+◌, ◌<◌, ◌≤◌, ◌↔◌, ◌&&◌, ℕ, List, [], ◌∷◌, ◌++◌};
ghost use Rattle.std.specs.Prelude.{Contains, false, true, drop, length, map, nat_eq, take};
ghost use Rattle.mdtext.specs.EntityTable.{EntityTable};
ghost use Rattle.blockspec.specs.BlockLine.{document_line};
ghost use Rattle.blockspec.specs.BlockUnits.{units};
ghost use Rattle.blockspec.specs.Meetings.{joins_list};
ghost use Rattle.blockspec.specs.UnitTree.{FoundUnit};
ghost use Rattle.blockspec.specs.Joins.{is_joined, joins};
ghost use Rattle.mdsource.specs.MetInside.{IsMetInside};
ghost use Rattle.mdsource.specs.StoppedInside.{HoldsLine, IsStoppedIn};
ghost use Rattle.mdsource.specs.Stops.{Stops, is_near, lines_soon, near_line, stop_line, stops};
ghost use Rattle.mdblock.specs.held.Reads.{handed};
ghost use Rattle.mdsource.specs.ReadStretch.{IsReadStretch};
ghost use Rattle.mdsource.specs.Calls.{edit, put};
ghost use Rattle.mdsource.specs.Changes.{lines_due};
ghost use Rattle.mdsource.specs.Setting.{Setting, Source};
ghost use Rattle.mdsource.specs.Stretch.{from_line, meeting_line, old_line};

/// Reading may stop inside a list at the first line behind the edit at which a later item of one begins in both texts, and else at the end of the text.
pub fn reading_stops_where_lists_go_on()
    ensures near { (setting : Setting) (old : Source) (at del : ℕ) (add : List (List ℕ)) (line : ℕ) → at + del ≤ length old.lines
        → let s = stops setting old (edit at del add) in
        let new = (put old (edit at del add)).lines in
        Contains (joins setting.entities new) line → is_near s line ≡ true
        → ((before : ℕ) → Contains (joins setting.entities new) before → before < line → is_near s before ≡ false) → near_line s ≡ line }
    ensures ends { (setting : Setting) (old : Source) (at del : ℕ) (add : List (List ℕ)) → at + del ≤ length old.lines
        → let s = stops setting old (edit at del add) in
        let new = (put old (edit at del add)).lines in
        ((line : ℕ) → Contains (joins setting.entities new) line → is_near s line ≡ false) → near_line s ≡ length new }
{}

/// An edit that stops inside a list reads no more lines than one that reads up to the meeting line.
pub fn stops_are_no_later()
    ensures { (setting : Setting) (old : Source) (at del : ℕ) (add : List (List ℕ))
        → lines_soon setting old (edit at del add) ≤ lines_due setting old (edit at del add) }
{}

/// Where a later item begins in both texts before the meeting line, both have the same items from there on: the list's texts and definitions are those of its
/// items in front of that line and of those from it on, all units behind the list are the same, and the list ends at the meeting line.
pub fn lists_meet_inside()
    ensures { (setting : Setting) (old : Source) (at del : ℕ) (add : List (List ℕ)) → at + del ≤ length old.lines
        → let s = stops setting old (edit at del add) in
        near_line s < meeting_line s.places → IsMetInside setting.entities old.lines (put old (edit at del add)).lines s }
{}

/// Of a text that is read from a line on at which it may be cut: a list of it may be parted at the last line that was read exactly where that line begins a
/// later item behind the lines that were read before it.
pub fn readers_tell_joins()
    ensures { (entities : EntityTable) (text front lines : List (List ℕ)) (line : List ℕ) (later : List (List ℕ))
        → IsReadStretch entities text front lines line later
        → Contains (joins entities text) (length front + length lines) ↔ (joins_list (map document_line lines) (document_line line) ≡ true) }
{}

/// Where the last line that was read begins a later item, and the lines from it on give one list, the units of all these lines are those that the reader has
/// handed out, and one more.
pub fn units_are_handed_and_one_more()
    ensures { (entities : EntityTable) (lines : List (List ℕ)) (line : List ℕ) (more : List (List ℕ)) (one : FoundUnit)
        → joins_list (map document_line lines) (document_line line) ≡ true → units entities (line ∷ more) ≡ one ∷ []
        → (list : FoundUnit) × (units entities (lines ++ line ∷ more) ≡ handed entities (lines ++ line ∷ []) ++ list ∷ []) }
{}

/// Reading may stop inside a list no earlier than where it begins. Of a line up to which it has not stopped so, what a reader tells of the lines read, and
/// whether a later item began there in the old text, say whether it stops at it; and that line is no meeting line.
pub fn readers_meet_the_near_line()
    ensures begins { (setting : Setting) (old : Source) (at del : ℕ) (add : List (List ℕ)) → at + del ≤ length old.lines
        → let s = stops setting old (edit at del add) in
        (from_line s.places ≤ near_line s) × (near_line s ≤ length (put old (edit at del add)).lines) }
    ensures told { (setting : Setting) (old : Source) (at del : ℕ) (add : List (List ℕ)) (line : ℕ) → at + del ≤ length old.lines
        → let s = stops setting old (edit at del add) in
        let new = (put old (edit at del add)).lines in
        from_line s.places ≤ line → line < length new → line ≤ near_line s
        → nat_eq (near_line s) line ≡ (is_joined setting.entities (drop (from_line s.places) (take (line + 1) new)) && is_near s line) }
    ensures before { (setting : Setting) (old : Source) (at del : ℕ) (add : List (List ℕ)) → at + del ≤ length old.lines
        → let s = stops setting old (edit at del add) in
        near_line s < length (put old (edit at del add)).lines → near_line s ≤ meeting_line s.places → near_line s < meeting_line s.places }
    ensures stop { (s : Stops) (line : ℕ) → line ≤ near_line s → line ≤ meeting_line s.places → line ≤ stop_line s }
{}

/// Where reading stops inside a list, one old unit has the line, and it is the last one that gives way: a later item of it begins in the line, it ends at the
/// meeting line, and its lines behind the line follow in the new text on those that were read, up to there.
pub fn reading_stops_in_the_last_list()
    ensures holds { (setting : Setting) (old : Source) (at del : ℕ) (add : List (List ℕ)) → at + del ≤ length old.lines
        → let s = stops setting old (edit at del add) in
        near_line s < meeting_line s.places
        → (before : List FoundUnit) × (one : FoundUnit) × (back : List FoundUnit)
        × HoldsLine setting.entities old.lines before one back (old_line s.places (near_line s)) }
    ensures is { (setting : Setting) (old : Source) (at del : ℕ) (add : List (List ℕ)) (before : List FoundUnit) (one : FoundUnit) (back : List FoundUnit)
        → at + del ≤ length old.lines
        → let s = stops setting old (edit at del add) in
        near_line s < meeting_line s.places → HoldsLine setting.entities old.lines before one back (old_line s.places (near_line s))
        → IsStoppedIn setting.entities old.lines (put old (edit at del add)).lines s before one }
{}

/// Where reading stops inside a list, the units of the lines from where it begins to the meeting line are those that a reader has handed out over the lines
/// up to the one at which it stops, that line with them, and one more.
pub fn stretches_are_handed_and_one_more()
    ensures { (setting : Setting) (old : Source) (at del : ℕ) (add : List (List ℕ)) → at + del ≤ length old.lines
        → let s = stops setting old (edit at del add) in
        let new = (put old (edit at del add)).lines in
        near_line s < meeting_line s.places
        → (list : FoundUnit) × (units setting.entities (drop (from_line s.places) (take (meeting_line s.places) new))
        ≡ handed setting.entities (drop (from_line s.places) (take (near_line s + 1) new)) ++ list ∷ []) }
{}
