//! What an edit or a new prelude does to labels, and to the texts that asked for them.

ghost use Rattle.std.specs.Prelude.{◌≡◌, ◌==◌, ◌+◌, ◌≤◌, ℕ, [], None, true, false, List, length, map, take, drop, option_map};
ghost use Rattle.std.specs.List.{list_any};
ghost use Rattle.mdtext.specs.EntityTable.{EntityTable};
ghost use Rattle.inlinespec.specs.LinkTails.{Table};
ghost use Rattle.inlinespec.specs.TextTree.{asked, inl};
ghost use Rattle.mdsource.specs.Calls.{edit, put};
ghost use Rattle.mdsource.specs.Changes.{asks_changed, places};
ghost use Rattle.mdsource.specs.LabelTable.{defined_in, first_of_four, table, target_defined};
ghost use Rattle.mdsource.specs.Refusals.{is_deep};
ghost use Rattle.mdsource.specs.Setting.{Setting, Source};
ghost use Rattle.mdsource.specs.Stretch.{from_line, meeting_line, old_line};
ghost use Rattle.mdsource.specs.View.{reading_of};

/// Where a label leads behind an edit, and where it led, is told by the definitions of the units in front, of those that are new or
/// give way, of those behind, and of the prelude: the first of these counts.
pub fn labels_are_those_of_three_parts()
    ensures behind { (setting : Setting) (old : Source) (at del : ℕ) (add : List (List ℕ)) (label : List ℕ) → at + del ≤ length old.lines
        → let p = places setting old (edit at del add) in
        let new = (put old (edit at del add)).lines in
        table setting.entities (put old (edit at del add)) label ≡ option_map target_defined (first_of_four
        (defined_in setting.entities (take (from_line p) old.lines) label)
        (defined_in setting.entities (drop (from_line p) (take (meeting_line p) new)) label)
        (defined_in setting.entities (drop (meeting_line p) new) label)
        (defined_in setting.entities old.prelude label)) }
    ensures before { (setting : Setting) (old : Source) (at del : ℕ) (add : List (List ℕ)) (label : List ℕ) → at + del ≤ length old.lines
        → let p = places setting old (edit at del add) in
        let new = (put old (edit at del add)).lines in
        table setting.entities old label ≡ option_map target_defined (first_of_four
        (defined_in setting.entities (take (from_line p) old.lines) label)
        (defined_in setting.entities (drop (from_line p) (take (old_line p (meeting_line p)) old.lines)) label)
        (defined_in setting.entities (drop (meeting_line p) new) label)
        (defined_in setting.entities old.prelude label)) }
{}

/// A label that no unit which gives way and no new one defines leads where it led.
pub fn undefined_labels_stay()
    ensures { (setting : Setting) (old : Source) (at del : ℕ) (add : List (List ℕ)) (label : List ℕ) → at + del ≤ length old.lines
        → let p = places setting old (edit at del add) in
        defined_in setting.entities (drop (from_line p) (take (old_line p (meeting_line p)) old.lines)) label ≡ None
        → defined_in setting.entities (drop (from_line p) (take (meeting_line p) (put old (edit at del add)).lines)) label ≡ None
        → table setting.entities old label ≡ table setting.entities (put old (edit at del add)) label }
{}

/// A text that asked for no label which leads elsewhere now reads as it did, and asks for the same labels.
pub fn unasked_texts_stay()
    ensures { (entities : EntityTable) (old new : Table) (text : List ℕ) → asks_changed old new (reading_of entities old text) ≡ false
        → reading_of entities old text ≡ reading_of entities new text }
{}

/// Whether a text asked for a label that leads elsewhere is the same before the change and behind it.
pub fn one_asking_is_the_other()
    ensures { (entities : EntityTable) (old new : Table) (text : List ℕ)
        → asks_changed old new (reading_of entities old text) ≡ asks_changed old new (reading_of entities new text) }
{}

/// Texts of which one has too many spans in one another behind a change, and none had before it, asked for a label that leads elsewhere.
pub fn too_deep_units_asked()
    ensures { (entities : EntityTable) (limit : ℕ) (old new : Table) (texts : List (List ℕ))
        → list_any (is_deep limit) (map (reading_of entities old) texts) ≡ false
        → list_any (is_deep limit) (map (reading_of entities new) texts) ≡ true
        → list_any (asks_changed old new) (map (reading_of entities new) texts) ≡ true }
{}

/// A text in which no bracket closes asks for no label, and reads the same whatever labels are defined.
pub fn unbracketed_texts_ask_for_none()
    ensures asks { (entities : EntityTable) (labels : Table) (text : List ℕ) → list_any (λ byte. byte == 93) text ≡ false
        → asked entities labels text ≡ [] }
    ensures reads { (entities : EntityTable) (one other : Table) (text : List ℕ) → list_any (λ byte. byte == 93) text ≡ false
        → inl entities one text ≡ inl entities other text }
{}
