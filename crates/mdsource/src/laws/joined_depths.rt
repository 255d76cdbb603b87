//! The first line on which a container begins that lies in too many others, where a list is parted.

ghost use Rattle.std.specs.Prelude.{◌≡◌, ◌+◌, ◌≤◌, ℕ, List, ◌∷◌, ◌++◌, None, drop, length, map, option_map, take, true};
ghost use Rattle.std.specs.Option.{option_or};
ghost use Rattle.blockspec.specs.BlockLine.{document_line};
ghost use Rattle.blockspec.specs.Meetings.{joins_list};
ghost use Rattle.blockspec.specs.Nesting.{first_too_deep};
ghost use Rattle.mdsource.specs.Stops.{near_line, stops};
ghost use Rattle.mdsource.specs.Calls.{edit, put};
ghost use Rattle.mdsource.specs.Setting.{Setting, Source};
ghost use Rattle.mdsource.specs.Stretch.{from_line};

/// Where a line begins a later item of the list that stands last, the first line too deep is that of the lines before it, or else that of the lines from it on
/// alone.
pub fn parts_tell_the_first_too_deep()
    ensures { (limit : ℕ) (front : List (List ℕ)) (line : List ℕ) (later : List (List ℕ))
        → joins_list (map document_line front) (document_line line) ≡ true
        → first_too_deep limit (front ++ line ∷ later)
        ≡ option_or (first_too_deep limit front) (option_map (λ n. length front + n) (first_too_deep limit (line ∷ later))) }
{}

/// Where no container of the old text lies in too many others, the first line of the new text on which one does is the first of the lines from where reading
/// begins up to the line at which it may stop inside a list, that line with them, taken alone.
pub fn stops_tell_the_first_too_deep()
    ensures { (setting : Setting) (limit : ℕ) (old : Source) (at del : ℕ) (add : List (List ℕ)) → at + del ≤ length old.lines
        → first_too_deep limit old.lines ≡ None
        → let s = stops setting old (edit at del add) in
        let new = (put old (edit at del add)).lines in
        first_too_deep limit new
        ≡ option_map (λ line. from_line s.places + line) (first_too_deep limit (drop (from_line s.places) (take (near_line s + 1) new))) }
{}
