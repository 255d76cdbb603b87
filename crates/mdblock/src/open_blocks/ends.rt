//! The ends of what is open: of a block, of all blocks of a level, and of a list's item.

ghost use Rattle.std.specs.Prelude.{◌≡◌, ◌≤◌, ℕ, IfOk, OnOk, length, true};
ghost use Rattle.mdblock.specs.BlockView.{blocks_view};
ghost use Rattle.mdblock.specs.Positions.{BlocksIn};
ghost use Rattle.mdblock.specs.held.EndedItems.{EndsLastItem, KeepsNext};
ghost use Rattle.mdblock.specs.held.Growing.{Grows};
ghost use Rattle.mdblock.specs.held.HeldLevel.{ClosesAll, is_shut};
ghost use Rattle.mdblock.specs.held.LevelSteps.{EndsAll, HasMarksOf, IsClosedBehind, IsEmpty, IsOpenContainer, IsOpenLeaf};
ghost use Rattle.mdblock.specs.held.OpenPositions.{LevelIn};
ghost use Rattle.mdblock.specs.held.ReaderState.{front_blocks};

use crate::blocks::Block;
use crate::closed_blocks::{push_found_inside, push_item, push_list, push_quote};
use crate::container::list_items::end_item;
use crate::gathering::Gathering;
use crate::open_blocks::{Level, OpenBlock};
use std::alloc::{AllocError, Global};
use std::mem;

impl Level {
    /// Puts the open block, with all that is open in it, among those that are over.
    #[tactic(auto, using(crate::proofs::Within::growing))]
    fn close(&mut self, gathering: &mut Gathering) -> Result<(), AllocError>
        requires { LevelIn (length gathering.old.texts.items) self.old }
        ensures within { OnOk result (LevelIn (length gathering.new.texts.items) self.new) }
        ensures grows { Grows gathering.old gathering.new }
        ensures closes { OnOk result (ClosesAll self.old gathering.old self.new.over.items gathering.new) }
        ensures shut { OnOk result (is_shut self.new.last ≡ true) }
        ensures marks { OnOk result (HasMarksOf self.old self.new) }
    {
        match &mut self.last {
            OpenBlock::Shut => Ok(()),
            OpenBlock::Leaf(_) => self.close_leaf(false, gathering),
            OpenBlock::Quote(inner) => {
                inner.close(gathering)?;
                self.close_container()
            }
            OpenBlock::List(inner, list) => {
                if !list.is_open() {
                    return self.close_container();
                }
                inner.close(gathering)?;
                self.close_container()
            }
        }
    }

    /// Puts the open block among those that are over. `more`: whether another block comes right behind it. Most blocks are leaves.
    pub(super) fn shut(&mut self, more: bool, gathering: &mut Gathering) -> Result<(), AllocError>
        requires { LevelIn (length gathering.old.texts.items) self.old }
        ensures within { OnOk result (LevelIn (length gathering.new.texts.items) self.new) }
        ensures grows { Grows gathering.old gathering.new }
        ensures closes { OnOk result (ClosesAll self.old gathering.old self.new.over.items gathering.new) }
        ensures shut { OnOk result (is_shut self.new.last ≡ true) }
        ensures ends { OnOk result (EndsAll self.old gathering.old self.new gathering.new) }
    {
        if self.is_shut() {
            return Ok(());
        }
        if self.is_open_leaf() {
            return self.close_leaf(self.in_item && more, gathering);
        }
        self.close(gathering)
    }

    /// Whether the open block is a leaf.
    fn is_open_leaf(&self) -> bool
        ensures { result ≡ true → IsOpenLeaf self.now.last }
    {
        matches!(self.last, OpenBlock::Leaf(_))
    }

    /// Puts the open leaf among the blocks that are over. `more`: whether there is to be room for another block behind it. It stands by itself, as the
    /// next, so that a level that closes takes less of the stack.
    #[inline(never)]
    #[tactic(auto, using(crate::proofs::Within::growing))]
    fn close_leaf(&mut self, more: bool, gathering: &mut Gathering) -> Result<(), AllocError>
        requires level { LevelIn (length gathering.old.texts.items) self.old }
        requires leaf { IsOpenLeaf self.old.last }
        ensures within { OnOk result (LevelIn (length gathering.new.texts.items) self.new) }
        ensures grows { Grows gathering.old gathering.new }
        ensures closes { OnOk result (ClosesAll self.old gathering.old self.new.over.items gathering.new) }
        ensures shut { OnOk result (is_shut self.new.last ≡ true) }
        ensures marks { OnOk result (HasMarksOf self.old self.new) }
    {
        let first = self.is_at_front();
        match mem::replace(&mut self.last, OpenBlock::Shut) {
            OpenBlock::Leaf(leaf) => {
                let found = leaf.end(first, gathering)?;
                push_found_inside(&mut self.over, found, more)
            }
            last => {
                self.last = last;
                Ok(())
            }
        }
    }

    /// Puts the open container, in which all blocks are over, among the blocks that are over.
    #[inline(never)]
    fn close_container(&mut self) -> Result<(), AllocError>
        requires { IsOpenContainer self.old.last }
        ensures within { OnOk result ((n : ℕ) → LevelIn n self.old → LevelIn n self.new) }
        ensures closed { OnOk result (IsClosedBehind self.old.over.items self.old.last self.new.over.items) }
        ensures shut { OnOk result (is_shut self.new.last ≡ true) }
        ensures marks { OnOk result (HasMarksOf self.old self.new) }
    {
        match mem::replace(&mut self.last, OpenBlock::Shut) {
            OpenBlock::Shut | OpenBlock::Leaf(_) => unreachable!(),
            OpenBlock::Quote(inner) => {
                let Level { over, .. } = Box::into_inner(inner);
                push_quote(&mut self.over, over)
            }
            OpenBlock::List(inner, list) => {
                if !list.is_open() {
                    return push_list(&mut self.over, list);
                }
                let Level { over, spaced, .. } = Box::into_inner(inner);
                push_item(&mut self.over, list, over, spaced)
            }
        }
    }

    /// Takes all the blocks out, the open one included, and leaves none, of a list item or not.
    #[tactic(auto, using(crate::proofs::Within::growing))]
    pub(crate) fn take_blocks(
        &mut self,
        in_item: bool,
        gathering: &mut Gathering,
    ) -> Result<Vec<Block>, AllocError>
        requires { LevelIn (length gathering.old.texts.items) self.old }
        ensures within { IfOk result (λ blocks. BlocksIn (length gathering.new.texts.items) (blocks_view blocks.items)) }
        ensures grows { Grows gathering.old gathering.new }
        ensures closes { IfOk result (λ blocks. ClosesAll self.old gathering.old blocks.items gathering.new) }
        ensures empty { OnOk result (IsEmpty in_item self.new) }
    {
        self.shut(false, gathering)?;
        Ok(self.take_over(in_item, gathering.alloc()))
    }

    /// Takes all the blocks out where none is open, and leaves none, of a list item or not.
    fn take_over(&mut self, in_item: bool, alloc: Global) -> Vec<Block>
        requires { is_shut self.old.last ≡ true }
        ensures over { result ≡ self.old.over }
        ensures empty { IsEmpty in_item self.new }
    {
        self.in_item = in_item;
        self.begun = false;
        self.blank = false;
        self.spaced = false;
        mem::replace(&mut self.over, Vec::new(alloc))
    }

    /// The blocks that are over, and a list which stands last without the item that is open in it. That item is let go: its end would read its lines.
    pub(crate) fn into_front(self) -> Result<Vec<Block>, AllocError>
        ensures within { IfOk result (λ blocks. (n : ℕ) → LevelIn n self → BlocksIn n (blocks_view blocks.items)) }
        ensures front { IfOk result (λ blocks. blocks_view blocks.items ≡ front_blocks (blocks_view self.over.items) self.last) }
    {
        let Level { mut over, last, .. } = self;
        match last {
            OpenBlock::Shut | OpenBlock::Leaf(_) | OpenBlock::Quote(_) => Ok(over),
            OpenBlock::List(_, list) => {
                push_list(&mut over, list)?;
                Ok(over)
            }
        }
    }

    /// Ends the item that is open in a list which stands last.
    #[tactic(auto, using(crate::proofs::Within::growing))]
    pub(crate) fn end_item(&mut self, gathering: &mut Gathering) -> Result<(), AllocError>
        requires { LevelIn (length gathering.old.texts.items) self.old }
        ensures within { OnOk result (LevelIn (length gathering.new.texts.items) self.new) }
        ensures entities { gathering.new.entities.now ≡ gathering.old.entities.now }
        ensures ends { OnOk result (EndsLastItem self.old gathering.old self.new gathering.new) }
        ensures keeps { OnOk result (KeepsNext self.old self.new) }
    {
        match &mut self.last {
            OpenBlock::Shut => Ok(()),
            OpenBlock::Leaf(_) => Ok(()),
            OpenBlock::Quote(_) => Ok(()),
            OpenBlock::List(inner, list) => end_item(inner, list, gathering),
        }
    }
}
