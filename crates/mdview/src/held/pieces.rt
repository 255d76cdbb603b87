//! The piece of a unit that is held.

ghost use Rattle.std.specs.Prelude.{◌≡◌, option_map, string_bytes};

use std::marker::Model;

/// The HTML of a unit; and of a long list whose piece was made again, where its items end there.
#[derive(Drop)]
pub(crate) struct Piece {
    html: String,
    ends: Option<Box<Vec<usize>>>,
}

impl Model for Piece {
    ghost use Rattle.std.specs.Prelude.{option_map, string_bytes};
    ghost use Rattle.mdview.specs.HeldUnit.{WrittenPiece, written_piece_code};

    ghost Value = { WrittenPiece };

    ghost coded = { written_piece_code };

    ghost view = { λ p. record { html = string_bytes p.html; ends = option_map (λ ends. ends.value.items) p.ends } };
}

impl Piece {
    pub(crate) fn new(html: String, ends: Option<Box<Vec<usize>>>) -> Piece
        ensures { result ≡ record { html = string_bytes html; ends = option_map (λ ends. ends.value.items) ends } }
    {
        Piece { html, ends }
    }

    pub(crate) fn html(&self) -> &str
        ensures { result.now ≡ self.now.html }
    {
        &self.html
    }

    /// Where the items of a list end, if that is known.
    pub(crate) fn ends(&self) -> Option<&[usize]>
        ensures { option_map (λ ends. ends.now) result ≡ self.now.ends }
    {
        match &self.ends {
            Some(ends) => Some(ends.as_slice()),
            None => None,
        }
    }
}
