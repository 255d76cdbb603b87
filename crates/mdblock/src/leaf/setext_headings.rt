//! Headings that an underline makes of a paragraph (CommonMark 4.3).

ghost use Rattle.std.specs.Prelude.{◌≡◌, ◌≤◌, [], ◌∷◌, ◌++◌, IfOk, OnOk, length, string_bytes};
ghost use Rattle.blockspec.specs.BlockTree.{heading as heading_block};
ghost use Rattle.mdblock.specs.held.Growing.{Grows};
ghost use Rattle.mdblock.specs.held.HandedIn.{gathered_texts};
ghost use Rattle.mdblock.specs.held.OpenLeaves.{IsOver};
ghost use Rattle.mdblock.specs.held.OpenPositions.{LeafAfterIn};

use crate::blocks::Block;
use crate::gathering::Gathering;
use crate::leaf::{LeafAfter, over};
use std::alloc::AllocError;

/// The heading that an underlined paragraph is.
pub(crate) fn setext_heading(
    level: u8,
    text: String,
    gathering: &mut Gathering,
) -> Result<LeafAfter, AllocError>
    ensures within { IfOk result (λ step. LeafAfterIn (length gathering.new.texts.items) step) }
    ensures grows { Grows gathering.old gathering.new }
    ensures step { IfOk result (λ step. IsOver (heading_block level (length gathering.old.texts.items)) step) }
    ensures texts { OnOk result (gathered_texts gathering.new ≡ gathered_texts gathering.old ++ string_bytes text ∷ []) }
    ensures definitions { gathering.new.definitions ≡ gathering.old.definitions }
{
    let text = gathering.text(text)?;
    Ok(over(Block::Heading { level, text }))
}
