//! The reading of a line inside a level: it goes down through the open containers that it matches, and continues what is open there or begins a block.

ghost use Rattle.std.specs.Prelude.{◌≡◌, ◌≤◌, IfErr, IfOk, IsErrOf, OnOk, false, length, true};
ghost use Rattle.mdblock.specs.declared.faults.LineFault.TheVariants.{TooDeep};
ghost use Rattle.mdblock.specs.held.Continuations.{ContinuesOpen, IsContinuationOf};
ghost use Rattle.mdblock.specs.held.Growing.{Grows};
ghost use Rattle.mdblock.specs.held.LevelSteps.{AddsButBlank, IsInside};
ghost use Rattle.mdblock.specs.held.LinesAdded.{AddsLine, ContinuesLevel, IsUnfollowed, SinksLine};
ghost use Rattle.mdblock.specs.held.OpenPositions.{LevelIn};

use crate::block_starts::beginning;
use crate::container::block_quotes;
use crate::container::list_items::{Entry, enter_item};
use crate::faults::LineFault;
use crate::gathering::Gathering;
use crate::lines::Line;
use crate::open_blocks::{Continuation, Level, OpenBlock, deeper};

/// How the reading of a line inside a level ends: a word, since of a `Result` the compiler makes no loop, and each level is a call.
#[derive(Clone, Copy)]
enum LineRead {
    /// It is read.
    Done,
    TooDeep,
    NoMemory,
}

impl Level {
    /// Reads one line more, where at most `room` containers may be open inside one another.
    pub(crate) fn read(
        &mut self,
        line: &mut Line,
        room: usize,
        gathering: &mut Gathering,
    ) -> Result<(), LineFault>
        requires { LevelIn (length gathering.old.texts.items) self.old }
        ensures within { OnOk result (LevelIn (length gathering.new.texts.items) self.new) }
        ensures grows { Grows gathering.old gathering.new }
        ensures adds { OnOk result (AddsLine room self.old gathering.old line.old self.new gathering.new) }
        ensures deep { IsErrOf result TooDeep → SinksLine room self.old gathering.old line.old }
    {
        match self.read_inside(line, room, gathering) {
            LineRead::Done => Ok(()),
            LineRead::TooDeep => Err(LineFault::TooDeep),
            LineRead::NoMemory => Err(LineFault::NoMemory),
        }
    }

    /// Reads one line more, and tells by a word how that ends: it ends with the reading inside the open container, of which the compiler makes a loop.
    #[tactic(auto, using(crate::proofs::Within::growing))]
    fn read_inside(&mut self, line: &mut Line, room: usize, gathering: &mut Gathering) -> LineRead
        requires { LevelIn (length gathering.old.texts.items) self.old }
        ensures within { result ≡ LineRead.Done → LevelIn (length gathering.new.texts.items) self.new }
        ensures grows { Grows gathering.old gathering.new }
        ensures adds { result ≡ LineRead.Done → AddsLine room self.old gathering.old line.old self.new gathering.new }
        ensures deep { result ≡ LineRead.TooDeep → SinksLine room self.old gathering.old line.old }
    {
        match &mut self.last {
            OpenBlock::Shut => self.read_unfollowed(line, room, gathering),
            OpenBlock::Leaf(_) => self.read_unfollowed(line, room, gathering),
            OpenBlock::Quote(inner) => {
                if !block_quotes::matches(line) {
                    return self.read_unfollowed(line, room, gathering);
                }
                if room < 1 {
                    return LineRead::TooDeep;
                }
                block_quotes::take_marker(line);
                self.blank = false;
                inner.read_inside(line, room - 1, gathering)
            }
            OpenBlock::List(inner, list) => {
                if !list.matches(line) {
                    return self.read_unfollowed(line, room, gathering);
                }
                if room < 1 {
                    return LineRead::TooDeep;
                }
                list.enter(line);
                self.blank = false;
                inner.read_inside(line, room - 1, gathering)
            }
        }
    }

    /// Reads a line that has neither the marker nor the indentation of the open container. It stands by itself so that the loop takes less of the stack.
    #[inline(never)]
    fn read_unfollowed(
        &mut self,
        line: &mut Line,
        room: usize,
        gathering: &mut Gathering,
    ) -> LineRead
        requires level { LevelIn (length gathering.old.texts.items) self.old }
        requires unfollowed { IsUnfollowed self.old.last line.old }
        ensures within { result ≡ LineRead.Done → LevelIn (length gathering.new.texts.items) self.new }
        ensures grows { Grows gathering.old gathering.new }
        ensures adds { result ≡ LineRead.Done → AddsLine room self.old gathering.old line.old self.new gathering.new }
        ensures deep { result ≡ LineRead.TooDeep → SinksLine room self.old gathering.old line.old }
    {
        let continuation = self.continuation(line);
        match self.add(line, continuation, room, gathering) {
            Ok(()) => LineRead::Done,
            Err(LineFault::TooDeep) => LineRead::TooDeep,
            Err(LineFault::NoMemory) => LineRead::NoMemory,
        }
    }

    /// Reads one line more, which continues what is open so, where at most `room` containers may be open inside one another.
    #[cycle(reading)]
    pub(crate) fn add(
        &mut self,
        line: &mut Line,
        continuation: Continuation,
        room: usize,
        gathering: &mut Gathering,
    ) -> Result<(), LineFault>
        requires level { LevelIn (length gathering.old.texts.items) self.old }
        requires continuation { IsContinuationOf line.old continuation }
        requires step { ContinuesOpen self.old.last line.old continuation }
        requires last { ContinuesLevel self.old line.old continuation }
        ensures within { OnOk result (LevelIn (length gathering.new.texts.items) self.new) }
        ensures grows { Grows gathering.old gathering.new }
        ensures adds { OnOk result (AddsLine room self.old gathering.old line.old self.new gathering.new) }
        ensures deep { IsErrOf result TooDeep → SinksLine room self.old gathering.old line.old }
    {
        let blank = line.is_blank();
        if let Continuation::Outside(opening) = continuation {
            self.shut(!blank, gathering)?;
            return self.begin(line, opening, room, gathering);
        }
        self.go_on(line, continuation, room, gathering)?;
        self.mark_blank(blank);
        Ok(())
    }

    /// Reads a line that the open block takes. Inside it no container has the line's marker or indentation, since the line is lazy or blank there.
    #[cycle(reading)]
    #[tactic(auto, using(crate::proofs::Within::growing))]
    fn go_on(
        &mut self,
        line: &mut Line,
        continuation: Continuation,
        room: usize,
        gathering: &mut Gathering,
    ) -> Result<(), LineFault>
        requires level { LevelIn (length gathering.old.texts.items) self.old }
        requires continuation { IsContinuationOf line.old continuation }
        requires step { ContinuesOpen self.old.last line.old continuation }
        requires last { ContinuesLevel self.old line.old continuation }
        requires inside { IsInside continuation }
        ensures within { OnOk result (LevelIn (length gathering.new.texts.items) self.new) }
        ensures grows { Grows gathering.old gathering.new }
        ensures adds { OnOk result (AddsButBlank room self.old gathering.old line.old self.new gathering.new) }
        ensures deep { IsErrOf result TooDeep → SinksLine room self.old gathering.old line.old }
    {
        match &mut self.last {
            OpenBlock::Shut => Ok(()),
            OpenBlock::Leaf(_) => Ok(self.add_to_leaf(line, continuation, gathering)?),
            OpenBlock::Quote(inner) => {
                line.make_lazy();
                let room = deeper(room)?;
                let continuation = inner.continuation(line);
                inner.add(line, continuation, room, gathering)
            }
            OpenBlock::List(inner, list) => {
                let room = deeper(room)?;
                match enter_item(inner, list, self.blank, line, continuation, gathering)? {
                    Entry::Goes => {
                        let continuation = inner.continuation(line);
                        inner.add(line, continuation, room, gathering)
                    }
                    Entry::Begins => inner.begin(line, beginning(line), room, gathering),
                    Entry::Stays => Ok(()),
                }
            }
        }
    }
}
