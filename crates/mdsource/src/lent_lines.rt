//! The lines of a text, lent in order.

ghost use Rattle.std.specs.Prelude.{◌≡◌, map, string_bytes};
ghost use Rattle.std.specs.Iterator.{YieldsFirstRef, item_count};

use mdchunks::Iter;
use std::marker::Model;

/// The lines of a text without their endings, lent in order.
#[derive(Drop)]
pub struct Lines<'a> {
    rest: Iter<'a, String>,
}

impl<'a> Model for Lines<'a> {
    ghost use Rattle.std.specs.Prelude.{ℕ, List, map, string_bytes};

    ghost Value = { List (List ℕ) };

    ghost view = { λ l. map string_bytes l.rest };
}

impl<'a> Lines<'a> {
    /// These lines.
    pub fn new(rest: Iter<'a, String>) -> Lines<'a>
        ensures { result ≡ map string_bytes rest.entry }
    {
        Lines { rest }
    }
}

impl<'a> Iterator for Lines<'a> {
    type Item = &'a str;

    ghost next_gives = { YieldsFirstRef (λ s. s) };

    ghost remaining = { item_count (λ s. s) };

    fn next(&mut self) -> Option<&'a str> {
        let line = self.rest.next()?;
        Some(line.as_str())
    }
}
