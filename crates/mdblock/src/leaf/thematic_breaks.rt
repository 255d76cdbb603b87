//! Thematic breaks (CommonMark 4.1).

ghost use Rattle.std.specs.Prelude.{◌≡◌, ℕ};
ghost use Rattle.blockspec.specs.BlockTree.{thematic_break};
ghost use Rattle.mdblock.specs.held.OpenLeaves.{IsOver};
ghost use Rattle.mdblock.specs.held.OpenPositions.{LeafAfterIn};

use crate::blocks::Block;
use crate::leaf::{LeafAfter, over};

/// The thematic break that a line is.
pub(crate) fn begin() -> LeafAfter
    ensures within { (n : ℕ) → LeafAfterIn n result }
    ensures step { IsOver thematic_break result }
{
    over(Block::Break)
}
