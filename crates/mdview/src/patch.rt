//! What an accepted edit answers: which pieces to replace.

ghost use Rattle.std.specs.Prelude.{◌≡◌, [], None, IfOk, option_map, slice_get, if◌then◌else◌, not, nat_lt, ◌+◌, ◌&&◌};
ghost use Rattle.mdsource.specs.Patch.{brings, brought};
ghost use Rattle.mdview.specs.Document.{pieces_of};

use crate::pieces::patch_pieces::{PatchPieces, is_within};
use crate::preview::Preview;
use std::alloc::{AllocError, Global};
use std::marker::Model;

/// Which pieces an edit changed: `removed` pieces at `first` gave way to `added` new ones, and those of `again` were
/// made again.
#[derive(Debug, Drop)]
pub struct Patch {
    /// The number of the first piece that gave way, from 0.
    pub first: usize,
    /// How many pieces went from there on.
    pub removed: usize,
    /// How many came in their place.
    pub added: usize,
    /// The numbers, after the edit and in ascending order, of the other pieces that were made again.
    pub again: Vec<usize>,
}

impl Model for Patch {
    ghost use Rattle.mdsource.specs.ChangedPieces.{ChangedPieces};

    ghost Value = { ChangedPieces };

    ghost view = { λ p. record { first = p.first; removed = p.removed; added = p.added; again = p.again.items } };
}

impl Patch {
    /// The pieces that the patch brings, in order, each with its number, lent without copying. Takes memory where pieces were made again.
    pub fn pieces<'a>(&self, preview: &'a Preview) -> Result<PatchPieces<'a>, AllocError>
        ensures { IfOk result (λ pieces. pieces ≡ brought self.now 0 (pieces_of preview.now)) }
    {
        let again = self.again.to_vec(preview.alloc())?;
        Ok(PatchPieces::new(
            self.first,
            self.added,
            again,
            preview.pieces(),
            preview.units(),
        ))
    }

    /// The preview's piece `i`, where the patch brings it.
    pub fn text<'a>(&self, preview: &'a Preview, i: usize) -> Option<&'a str>
        ensures { option_map (λ text. text.now) result ≡ (if brings self.now i then slice_get (pieces_of preview.now) i else None) }
    {
        if self.brings(i) {
            preview.piece(i)
        } else {
            None
        }
    }

    fn brings(&self, i: usize) -> bool
        ensures { result ≡ brings self.now i }
    {
        self.adds(i) || self.again.contains(&i)
    }

    /// Whether piece `i` is one of the `added` new ones.
    pub fn adds(&self, i: usize) -> bool
        ensures { result ≡ (not (nat_lt i self.now.first) && nat_lt i (self.now.first + self.now.added)) }
    {
        is_within(self.first, self.added, i)
    }
}
