//! A line that goes on with no open block begins one, or is blank.

ghost use Rattle.std.specs.Prelude.{◌≡◌, ◌&&◌, ◌||◌, ℕ, IsErrOf, None, OnOk, Some, false, length, true};
ghost use Rattle.blockspec.specs.BlankLines.{is_blank_line};
ghost use Rattle.blockspec.specs.LineSummary.{no_summary};
ghost use Rattle.blockspec.specs.SummaryDepth.{sinks};
ghost use Rattle.mdblock.specs.BlockView.{blocks_view, items_view};
ghost use Rattle.mdblock.specs.Positions.{BlocksIn, ItemsIn};
ghost use Rattle.mdblock.specs.declared.faults.LineFault.TheVariants.{TooDeep};
ghost use Rattle.mdblock.specs.held.ClosedViews.{found_view};
ghost use Rattle.mdblock.specs.held.Continuations.{IsBeginningOf};
ghost use Rattle.mdblock.specs.held.Growing.{Grows};
ghost use Rattle.mdblock.specs.held.LevelSteps.{BeginsBehind, BeginsBlock, HasMarksOf, IsListOf, IsQuoteOf, OpensLeaf, open_leaf_of};
ghost use Rattle.mdblock.specs.held.OpenPositions.{LeafAfterIn, LevelIn};
ghost use Rattle.mdblock.specs.held.TreesBehind.{blocks_before};

use crate::block_starts::{BlockStart, beginning};
use crate::closed_blocks::{push_block, push_found};
use crate::container::block_quotes;
use crate::container::lists::{self, OpenList};
use crate::faults::LineFault;
use crate::gathering::Gathering;
use crate::leaf::paragraphs::Paragraph;
use crate::leaf::{Leaf, LeafAfter, atx_headings};
use crate::lines::Line;
use crate::open_blocks::{Level, OpenBlock, deeper};
use mdscan::AtxLine;
use std::alloc::{AllocError, Global};

impl Level {
    /// Reads a line that no open block takes.
    #[cycle(begin)]
    #[tactic(auto, using(crate::proofs::Within::growing))]
    pub(crate) fn begin(
        &mut self,
        line: &mut Line,
        opening: Option<BlockStart>,
        room: usize,
        gathering: &mut Gathering,
    ) -> Result<(), LineFault>
        requires level { LevelIn (length gathering.old.texts.items) self.old }
        requires opening { IsBeginningOf line.old opening }
        ensures within { OnOk result (LevelIn (length gathering.new.texts.items) self.new) }
        ensures grows { Grows gathering.old gathering.new }
        ensures behind { OnOk result (BeginsBehind room self.old gathering.old line.old self.new gathering.new) }
        ensures fits { OnOk result (sinks room no_summary line.old ≡ false) }
        ensures sinks { IsErrOf result TooDeep → sinks room no_summary line.old ≡ true }
    {
        if line.is_blank() {
            self.pass_blank();
            return Ok(());
        }
        self.mark_begun();
        self.begin_block(line, opening, room, gathering)
    }

    /// Says that a block begins, behind a gap or not.
    fn mark_begun(&mut self)
        ensures { self.new ≡ record self.old { begun = true; blank = false; spaced = self.old.spaced || (self.old.begun && self.old.blank) } }
    {
        self.spaced = self.spaced || (self.begun && self.blank);
        self.begun = true;
        self.blank = false;
    }

    /// Reads the first line of a block.
    #[cycle(begin)]
    #[tactic(auto, using(crate::proofs::Within::growing))]
    fn begin_block(
        &mut self,
        line: &mut Line,
        opening: Option<BlockStart>,
        room: usize,
        gathering: &mut Gathering,
    ) -> Result<(), LineFault>
        requires level { LevelIn (length gathering.old.texts.items) self.old }
        requires opening { IsBeginningOf line.old opening }
        requires full { is_blank_line line.old ≡ false }
        ensures within { OnOk result (LevelIn (length gathering.new.texts.items) self.new) }
        ensures grows { Grows gathering.old gathering.new }
        ensures begins { OnOk result (BeginsBlock room self.old gathering.old line.old self.new gathering.new) }
        ensures fits { OnOk result (sinks room no_summary line.old ≡ false) }
        ensures sinks { IsErrOf result TooDeep → sinks room no_summary line.old ≡ true }
    {
        let Some(start) = opening else {
            return Ok(self.begin_paragraph(line, gathering)?);
        };
        let alloc = gathering.alloc();
        match start {
            BlockStart::Quote => {
                block_quotes::take_marker(line);
                let mut inner = Level::new(alloc, false);
                inner.begin(line, beginning(line), deeper(room)?, gathering)?;
                Ok(self.hold_quote(alloc, inner)?)
            }
            BlockStart::Item(marker) => {
                let needed = lists::take_marker(line, marker);
                let list = OpenList::new(alloc, marker, needed);
                let mut inner = Level::new(alloc, true);
                inner.begin(line, beginning(line), deeper(room)?, gathering)?;
                Ok(self.hold_list(alloc, inner, list)?)
            }
            BlockStart::Heading(heading) => Ok(self.begin_heading(heading, line, gathering)?),
            start => Ok(self.begin_leaf(start, line, gathering)?),
        }
    }

    /// Reads the first line of a paragraph.
    fn begin_paragraph(&mut self, line: &Line, gathering: &Gathering) -> Result<(), AllocError>
        requires opening { IsBeginningOf line.now None }
        requires full { is_blank_line line.now ≡ false }
        ensures within { OnOk result ((n : ℕ) → LevelIn n self.old → LevelIn n self.new) }
        ensures begins { OnOk result ((room : ℕ) → BeginsBlock room self.old gathering.now line.now self.new gathering.now) }
    {
        let paragraph = Paragraph::new(line, gathering)?;
        self.last = OpenBlock::Leaf(Leaf::Paragraph(paragraph));
        Ok(())
    }

    /// Reads a heading with a mark of its own.
    #[tactic(auto, using(crate::proofs::Within::growing))]
    fn begin_heading(
        &mut self,
        heading: AtxLine,
        line: &Line,
        gathering: &mut Gathering,
    ) -> Result<(), AllocError>
        requires level { LevelIn (length gathering.old.texts.items) self.old }
        requires opening { IsBeginningOf line.now (Some (BlockStart.Heading heading)) }
        requires full { is_blank_line line.now ≡ false }
        ensures within { OnOk result (LevelIn (length gathering.new.texts.items) self.new) }
        ensures grows { Grows gathering.old gathering.new }
        ensures begins { OnOk result ((room : ℕ) → BeginsBlock room self.old gathering.old line.now self.new gathering.new) }
    {
        let block = atx_headings::atx_heading(heading, line, gathering)?;
        push_block(&mut self.over, block)?;
        Ok(())
    }

    /// Reads the first line of another leaf. It stands by itself so that a container that begins takes less of the stack.
    #[inline(never)]
    fn begin_leaf(
        &mut self,
        start: BlockStart,
        line: &mut Line,
        gathering: &Gathering,
    ) -> Result<(), AllocError>
        requires opening { IsBeginningOf line.old (Some start) }
        requires leaf { OpensLeaf start }
        requires full { is_blank_line line.old ≡ false }
        ensures within { OnOk result ((n : ℕ) → LevelIn n self.old → LevelIn n self.new) }
        ensures begins { OnOk result ((room : ℕ) → BeginsBlock room self.old gathering.now line.old self.new gathering.now) }
    {
        let step = Leaf::begin(start, line, gathering)?;
        self.put(step)?;
        Ok(())
    }

    /// Puts what a line leaves of a leaf in place.
    pub(crate) fn put(&mut self, step: LeafAfter) -> Result<(), AllocError>
        ensures within { OnOk result ((n : ℕ) → BlocksIn n (blocks_view self.old.over.items) → LeafAfterIn n step → LevelIn n self.new) }
        ensures over { OnOk result (blocks_view self.new.over.items ≡ blocks_before (blocks_view self.old.over.items) (found_view step.over)) }
        ensures last { OnOk result (self.new.last ≡ open_leaf_of step.going) }
        ensures marks { OnOk result (HasMarksOf self.old self.new) }
    {
        push_found(&mut self.over, step.over)?;
        self.last = match step.going {
            Some(leaf) => OpenBlock::Leaf(leaf),
            None => OpenBlock::Shut,
        };
        Ok(())
    }

    /// Holds an open block quote of these blocks.
    fn hold_quote(&mut self, alloc: Global, inner: Level) -> Result<(), AllocError>
        ensures within { OnOk result ((n : ℕ) → BlocksIn n (blocks_view self.old.over.items) → LevelIn n inner → LevelIn n self.new) }
        ensures over { OnOk result (self.new.over ≡ self.old.over) }
        ensures last { OnOk result (IsQuoteOf inner self.new.last) }
        ensures marks { OnOk result (HasMarksOf self.old self.new) }
    {
        self.last = OpenBlock::Quote(Box::new(alloc, inner)?);
        Ok(())
    }

    /// Holds an open list whose last item has these blocks.
    fn hold_list(&mut self, alloc: Global, inner: Level, list: OpenList) -> Result<(), AllocError>
        ensures within { OnOk result ((n : ℕ) → BlocksIn n (blocks_view self.old.over.items) → LevelIn n inner → ItemsIn n (items_view list.items.items)
            → LevelIn n self.new) }
        ensures over { OnOk result (self.new.over ≡ self.old.over) }
        ensures last { OnOk result (IsListOf inner list self.new.last) }
        ensures marks { OnOk result (HasMarksOf self.old self.new) }
    {
        self.last = OpenBlock::List(Box::new(alloc, inner)?, list);
        Ok(())
    }
}
