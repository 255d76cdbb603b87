//! What comes into a list that is held, in the place of some of its items.

use crate::held::pieces::Piece;
use crate::held::units::HeldUnit;
use mdblock::Inset;
use mdchunks::Change;
use mdinline::Parsed;

/// Items of a list that a unit which is held takes in, by the number of the unit, with what their texts read as, and the piece of the whole list then.
#[derive(Drop)]
pub(crate) struct UnitInset {
    pub(crate) unit: usize,
    pub(crate) inset: Inset,
    pub(crate) inlines: Vec<Parsed>,
    pub(crate) piece: Piece,
}

/// The unit takes the items in, with their readings, and the piece.
impl Change<HeldUnit> for UnitInset {
    ghost use Rattle.mdview.specs.UnitInsets.{FitsUnit, put_in};

    ghost can_change = { FitsUnit };

    ghost changed = { put_in };

    fn change(self, member: &mut HeldUnit) {
        member.put(self.inset, self.inlines, self.piece);
    }
}
