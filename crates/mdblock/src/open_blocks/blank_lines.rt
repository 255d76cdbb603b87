//! Blank lines (CommonMark 4.9): which of them are content, and which part blocks.

ghost use Rattle.std.specs.Prelude.{◌≡◌, ◌||◌, false, true};
ghost use Rattle.mdblock.specs.held.HeldLevel.{is_parted_last};
ghost use Rattle.mdblock.specs.held.LevelSteps.{IsVerbatim, MarksBlank};

use crate::open_blocks::{Level, OpenBlock};

impl Level {
    /// Reads a blank line where no block is open.
    pub(crate) fn pass_blank(&mut self)
        ensures { self.new ≡ record self.old { blank = true } }
    {
        self.blank = true;
    }

    /// Says whether the line that was read is blank, and no content of fenced code or an HTML block.
    pub(super) fn mark_blank(&mut self, blank: bool)
        ensures { MarksBlank self.old blank self.new }
    {
        if blank {
            self.blank = !self.is_verbatim();
        } else {
            self.blank = false;
        }
    }

    /// Whether a blank line that was read last is content of fenced code or an HTML block.
    fn is_verbatim(&self) -> bool
        ensures { IsVerbatim self.now.last result }
    {
        match &self.last {
            OpenBlock::Shut => false,
            OpenBlock::Leaf(leaf) => leaf.is_verbatim(),
            OpenBlock::Quote(_) => false,
            OpenBlock::List(inner, list) => list.is_open() && !inner.blank,
        }
    }

    /// Whether a gap parts two blocks of the last item of the list that stands last.
    pub(crate) fn is_parted(&self) -> bool
        ensures { result ≡ is_parted_last self.now.last }
    {
        match &self.last {
            OpenBlock::Shut => false,
            OpenBlock::Leaf(_) => false,
            OpenBlock::Quote(_) => false,
            OpenBlock::List(inner, list) => list.parts(inner.spaced),
        }
    }

    /// Whether the list that stands last is loose by a gap inside its last item, or by one behind that.
    pub(crate) fn is_loose_behind(&self) -> bool
        ensures { result ≡ (is_parted_last self.now.last || self.now.blank) }
    {
        self.is_parted() || self.blank
    }
}
