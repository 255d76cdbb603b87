//! The pieces of HTML, lent in order.

ghost use Rattle.std.specs.Prelude.{◌≡◌, ◌≤◌, drop, length, map};
ghost use Rattle.mdview.specs.HeldUnit.{HeldUnit, piece_of};
ghost use Rattle.std.specs.Iterator.{YieldsFirstRef, item_count};

pub(crate) mod patch_pieces;
pub(crate) mod text_room;

use crate::held::units::HeldUnit;
use mdchunks::Iter;
use std::marker::Model;

/// The pieces of HTML, lent in order.
#[derive(Drop)]
pub struct Pieces<'a> {
    rest: Iter<'a, HeldUnit>,
}

impl<'a> Model for Pieces<'a> {
    ghost use Rattle.std.specs.Prelude.{ℕ, List, map};
    ghost use Rattle.mdview.specs.HeldUnit.{piece_of};

    ghost Value = { List (List ℕ) };

    ghost view = { λ p. map piece_of p.rest };
}

impl<'a> Pieces<'a> {
    pub(crate) fn new(rest: Iter<'a, HeldUnit>) -> Pieces<'a>
        ensures { result ≡ map piece_of rest.entry }
    {
        Pieces { rest }
    }

    /// Passes the next `n`.
    pub(crate) fn pass(&mut self, n: usize)
        requires { n ≤ length self.old }
        ensures { self.new ≡ drop n self.old }
    {
        self.rest = self.rest.ahead(n);
    }
}

impl<'a> Iterator for Pieces<'a> {
    type Item = &'a str;

    ghost next_gives = { YieldsFirstRef (λ s. s) };

    ghost remaining = { item_count (λ s. s) };

    fn next(&mut self) -> Option<&'a str> {
        let unit = self.rest.next()?;
        Some(unit.piece())
    }
}
