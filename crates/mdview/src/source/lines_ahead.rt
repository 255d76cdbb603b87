//! The lines that an edit would leave, one after the other.

ghost use Rattle.std.specs.Prelude.{◌≡◌, ◌≤◌, ◌++◌, drop, length, map, string_bytes, take};
ghost use Rattle.std.specs.Iterator.{YieldsFirstRef, item_count};

use mdchunks::Iter;
use std::marker::Model;

/// The lines that an edit would leave from one on: those before the edit, those that it adds, and those behind it.
#[derive(Drop)]
pub(crate) struct LinesAhead<'a> {
    /// How many of the lines of `front` stand before the edit.
    left: usize,
    front: Iter<'a, String>,
    added: Iter<'a, String>,
    back: Iter<'a, String>,
}

impl<'a> Model for LinesAhead<'a> {
    ghost use Rattle.std.specs.Prelude.{◌≤◌, ◌++◌, ℕ, List, length, map, string_bytes, take};

    ghost Value = { List (List ℕ) };

    ghost view = { λ l. map string_bytes (take l.left l.front ++ l.added ++ l.back) };

    ghost invariant = { λ l. l.left ≤ length l.front };
}

impl<'a> LinesAhead<'a> {
    /// So many lines, and then others, and then others.
    pub(crate) fn new(
        left: usize,
        front: Iter<'a, String>,
        added: Iter<'a, String>,
        back: Iter<'a, String>,
    ) -> LinesAhead<'a>
        requires { left ≤ length front }
        ensures { result ≡ map string_bytes (take left front.entry ++ added.entry ++ back.entry) }
    {
        LinesAhead {
            left,
            front,
            added,
            back,
        }
    }
}

impl<'a> Iterator for LinesAhead<'a> {
    type Item = &'a str;

    ghost next_gives = { YieldsFirstRef (λ s. s) };

    ghost remaining = { item_count (λ s. s) };

    fn next(&mut self) -> Option<&'a str> {
        if self.left > 0 {
            self.left -= 1;
            let line = self.front.next()?;
            return Some(line.as_str());
        }
        if let Some(line) = self.added.next() {
            return Some(line.as_str());
        }
        let line = self.back.next()?;
        Some(line.as_str())
    }
}
