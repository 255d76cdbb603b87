//! Headings with a mark of their own (CommonMark 4.2).

ghost use Rattle.std.specs.Prelude.{◌≡◌, ◌≤◌, [], ◌∷◌, ◌++◌, IfOk, OnOk, length};
ghost use Rattle.mdscan.specs.Spans.{IsSpanOf, part};
ghost use Rattle.blockspec.specs.BlockLine.{rest};
ghost use Rattle.blockspec.specs.BlockTree.{heading as heading_block};
ghost use Rattle.mdblock.specs.BlockView.{block_view};
ghost use Rattle.mdblock.specs.Positions.{BlockIn};
ghost use Rattle.mdblock.specs.held.Growing.{Grows};
ghost use Rattle.mdblock.specs.held.HandedIn.{gathered_texts};

use crate::blocks::Block;
use crate::gathering::Gathering;
use crate::lines::Line;
use mdscan::AtxLine;
use std::alloc::AllocError;

/// The heading that a line is.
pub(crate) fn atx_heading(
    heading: AtxLine,
    line: &Line,
    gathering: &mut Gathering,
) -> Result<Block, AllocError>
    requires { IsSpanOf (rest line.now) heading.content }
    ensures within { IfOk result (λ block. BlockIn (length gathering.new.texts.items) (block_view block)) }
    ensures grows { Grows gathering.old gathering.new }
    ensures block { IfOk result (λ block. block_view block ≡ heading_block heading.level (length gathering.old.texts.items)) }
    ensures texts { OnOk result (gathered_texts gathering.new ≡ gathered_texts gathering.old ++ part (rest line.now) heading.content ∷ []) }
    ensures definitions { gathering.new.definitions ≡ gathering.old.definitions }
{
    let line = line.text();
    let content = &line[heading.content.start..heading.content.end];
    let text = gathering.text(String::from_str(gathering.alloc(), content)?)?;
    Ok(Block::Heading {
        level: heading.level,
        text,
    })
}
