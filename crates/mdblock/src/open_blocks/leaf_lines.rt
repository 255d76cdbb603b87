//! A line that the open leaf takes: the leaf goes on with it, ends with it, or, where it is a paragraph, turns into another block.

ghost use Rattle.std.specs.Prelude.{◌≡◌, ◌≤◌, ℕ, OnOk, false, length, true};
ghost use Rattle.mdblock.specs.held.Continuations.{ContinuesOpen};
ghost use Rattle.mdblock.specs.held.Growing.{Grows};
ghost use Rattle.mdblock.specs.held.LevelSteps.{EndsLeaf, GrowsLeaf, IsInside, IsOpenLeaf, KeepsLeaf};
ghost use Rattle.mdblock.specs.held.OpenPositions.{LevelIn};

use crate::gathering::Gathering;
use crate::leaf::{Leaf, over};
use crate::lines::Line;
use crate::open_blocks::{Continuation, Level, OpenBlock};
use std::alloc::AllocError;
use std::mem;

impl Level {
    /// Reads a line that the open leaf takes. It stands by itself so that what a line goes down through takes less of the stack.
    #[inline(never)]
    #[tactic(auto, using(crate::proofs::Within::growing))]
    pub(super) fn add_to_leaf(
        &mut self,
        line: &mut Line,
        continuation: Continuation,
        gathering: &mut Gathering,
    ) -> Result<(), AllocError>
        requires level { LevelIn (length gathering.old.texts.items) self.old }
        requires step { ContinuesOpen self.old.last line.old continuation }
        requires leaf { IsOpenLeaf self.old.last }
        requires inside { IsInside continuation }
        ensures within { OnOk result (LevelIn (length gathering.new.texts.items) self.new) }
        ensures grows { Grows gathering.old gathering.new }
        ensures adds { OnOk result (GrowsLeaf self.old gathering.old line.old self.new gathering.new) }
    {
        if !continuation.is_matched() {
            return self.turn(line, continuation, gathering);
        }
        if self.ends_with(line) {
            return self.add_last_line(line);
        }
        match &mut self.last {
            OpenBlock::Leaf(Leaf::Paragraph(paragraph)) => {
                paragraph.push_line(line)?;
                Ok(())
            }
            OpenBlock::Leaf(Leaf::Fence(fence)) => {
                fence.push_line(line)?;
                Ok(())
            }
            OpenBlock::Leaf(Leaf::Table(table)) => {
                table.push_row(line, gathering)?;
                Ok(())
            }
            OpenBlock::Leaf(Leaf::Html(html)) => {
                html.push_line(line)?;
                Ok(())
            }
            OpenBlock::Leaf(Leaf::Code(code)) => {
                code.push_line(line)?;
                Ok(())
            }
            _ => unreachable!(),
        }
    }

    /// Takes the open paragraph out, and puts in place what an underline or a delimiter row makes of it.
    #[tactic(auto, using(crate::proofs::Within::growing))]
    fn turn(
        &mut self,
        line: &Line,
        continuation: Continuation,
        gathering: &mut Gathering,
    ) -> Result<(), AllocError>
        requires level { LevelIn (length gathering.old.texts.items) self.old }
        requires step { ContinuesOpen self.old.last line.now continuation }
        requires leaf { IsOpenLeaf self.old.last }
        requires inside { IsInside continuation }
        requires turns { continuation ≡ Continuation.Matched → ⊥ }
        ensures within { OnOk result (LevelIn (length gathering.new.texts.items) self.new) }
        ensures grows { Grows gathering.old gathering.new }
        ensures adds { OnOk result (GrowsLeaf self.old gathering.old line.now self.new gathering.new) }
    {
        let first = self.is_at_front();
        match mem::replace(&mut self.last, OpenBlock::Shut) {
            OpenBlock::Leaf(Leaf::Paragraph(paragraph)) => {
                let step = paragraph.turn(continuation, line, first, gathering)?;
                self.put(step)?;
                Ok(())
            }
            _ => unreachable!(),
        }
    }

    /// Whether a line ends the open leaf and is a line of it: a closing fence, and what ends an HTML block.
    fn ends_with(&self, line: &Line) -> bool
        ensures ends { result ≡ true → EndsLeaf self.now.last line.now }
        ensures goes_on { result ≡ false → KeepsLeaf self.now.last line.now }
    {
        match &self.last {
            OpenBlock::Leaf(Leaf::Fence(fence)) => fence.closes(line),
            OpenBlock::Leaf(Leaf::Html(html)) => html.ends(line),
            _ => false,
        }
    }

    /// Reads the last line of the open leaf, which is not looked at again, and puts the block in place.
    #[tactic(auto, using(crate::proofs::Within::growing))]
    fn add_last_line(&mut self, line: &mut Line) -> Result<(), AllocError>
        requires { EndsLeaf self.old.last line.old }
        ensures within { OnOk result ((n : ℕ) → LevelIn n self.old → LevelIn n self.new) }
        ensures adds { OnOk result ((gathering : Gathering) → GrowsLeaf self.old gathering line.old self.new gathering) }
    {
        match mem::replace(&mut self.last, OpenBlock::Shut) {
            OpenBlock::Leaf(Leaf::Fence(fence)) => {
                self.put(over(fence.end()))?;
                Ok(())
            }
            OpenBlock::Leaf(Leaf::Html(html)) => {
                let step = html.add_last(line)?;
                self.put(step)?;
                Ok(())
            }
            last => {
                self.last = last;
                Ok(())
            }
        }
    }
}
