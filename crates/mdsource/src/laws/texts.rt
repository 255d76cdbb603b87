//! How many inline texts an edit reads that stops inside a list.

ghost use Rattle.std.specs.Prelude.{◌≡◌, ◌+◌, ◌≤◌, ℕ, List, length};
ghost use Rattle.mdsource.specs.LaterTexts.{asking_of, later_texts};
ghost use Rattle.mdsource.specs.SoonTexts.{texts_soon};
ghost use Rattle.mdsource.specs.Stops.{near_line, stops};
ghost use Rattle.mdsource.specs.Calls.{edit, put, set_prelude};
ghost use Rattle.mdsource.specs.Changes.{texts_read};
ghost use Rattle.mdsource.specs.LabelTable.{table};
ghost use Rattle.mdsource.specs.Setting.{Setting, Source};
ghost use Rattle.mdsource.specs.Stretch.{meeting_line};

/// An edit reads as many inline texts as if it read up to the meeting line, but for those behind the line at which reading stops: of
/// these it reads the ones that asked for a label which leads elsewhere now.
pub fn later_texts_are_read_where_they_asked()
    ensures { (setting : Setting) (old : Source) (at del : ℕ) (add : List (List ℕ)) → at + del ≤ length old.lines
        → let new = put old (edit at del add) in
        let later = later_texts setting.entities new.lines (stops setting old (edit at del add)) in
        texts_soon setting old (edit at del add) + length later
        ≡ texts_read setting old (edit at del add) + asking_of setting.entities (table setting.entities old) (table setting.entities new) later }
{}

/// Where no later item begins in both texts before the meeting line, both counts are the same.
pub fn texts_up_to_the_meeting_line_are_read()
    ensures { (setting : Setting) (old : Source) (at del : ℕ) (add : List (List ℕ)) → at + del ≤ length old.lines
        → let s = stops setting old (edit at del add) in
        meeting_line s.places ≤ near_line s → texts_soon setting old (edit at del add) ≡ texts_read setting old (edit at del add) }
{}

/// An edit that stops inside a list reads no more inline texts than one that reads up to the meeting line.
pub fn stops_read_no_more_texts()
    ensures { (setting : Setting) (old : Source) (at del : ℕ) (add : List (List ℕ)) → at + del ≤ length old.lines
        → texts_soon setting old (edit at del add) ≤ texts_read setting old (edit at del add) }
{}

/// A new prelude leaves all units, so of their inline texts those are read that asked for a label which leads elsewhere now.
pub fn preludes_stop_nowhere()
    ensures { (setting : Setting) (old : Source) (lines : List (List ℕ))
        → texts_soon setting old (set_prelude lines) ≡ texts_read setting old (set_prelude lines) }
{}
