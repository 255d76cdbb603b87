//! What an edit does to the units of a text.

ghost use Rattle.std.specs.Prelude.{◌≡◌, ◌+◌, ◌≤◌, ℕ, None, List, length, take, drop, option_map};
ghost use Rattle.blockspec.specs.Nesting.{first_too_deep};
ghost use Rattle.mdsource.specs.Calls.{edit, put};
ghost use Rattle.mdsource.specs.Changes.{places};
ghost use Rattle.mdsource.specs.Setting.{Setting, Source};
ghost use Rattle.mdsource.specs.Spliced.{IsSpliced};
ghost use Rattle.mdsource.specs.Stretch.{from_line, meeting_line};

/// The units of the new text are those in front of the first line that is read, those from there to the meeting line, and those
/// behind it. The first are those of the old text, and so are the last, so many lines further on. The numbers of the patch count them.
pub fn edits_splice()
    ensures { (setting : Setting) (old : Source) (at del : ℕ) (add : List (List ℕ)) → at + del ≤ length old.lines
        → IsSpliced setting.entities old.lines (put old (edit at del add)).lines (places setting old (edit at del add)) }
{}

/// Where no container of the old text lies in too many others, the first line of the new text on which one does is the first of
/// the lines from where reading begins to the meeting line, taken alone.
pub fn stretches_tell_the_first_too_deep()
    ensures { (setting : Setting) (limit : ℕ) (old : Source) (at del : ℕ) (add : List (List ℕ)) → at + del ≤ length old.lines
        → first_too_deep limit old.lines ≡ None
        → let p = places setting old (edit at del add) in
        let new = (put old (edit at del add)).lines in
        first_too_deep limit new ≡ option_map (λ line. from_line p + line) (first_too_deep limit (drop (from_line p) (take (meeting_line p) new))) }
{}
