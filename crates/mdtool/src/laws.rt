//! What holds of the lines that replies tell.

ghost use Rattle.std.specs.Prelude.{◌≡◌, ◌+◌, ◌≤◌, ℕ, List, drop, length, map};
ghost use Rattle.blockspec.specs.BlockUnits.{begins};
ghost use Rattle.mdsource.specs.Calls.{edit, put};
ghost use Rattle.mdsource.specs.Changes.{patch_of};
ghost use Rattle.mdsource.specs.Setting.{Setting, Source};

/// Each unit behind those that come with an edit begins so many lines later than before it as the text is longer, or so many earlier as it is shorter.
pub fn units_behind_move_alike()
    ensures { (setting : Setting) (old : Source) (at del : ℕ) (add : List (List ℕ)) → at + del ≤ length old.lines
        → let patch = patch_of setting old (edit at del add) in
        let new = (put old (edit at del add)).lines in
        map (λ line. line + length old.lines) (drop (patch.first + patch.added) (begins setting.entities new))
        ≡ map (λ line. line + length new) (drop (patch.first + patch.removed) (begins setting.entities old.lines)) }
{}
