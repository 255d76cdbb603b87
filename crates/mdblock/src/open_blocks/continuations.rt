//! How a line continues what is open: it is one of its lines, or it ends it (CommonMark 4, 5.1, 5.2; GFM Tables (extension)).

ghost use Rattle.std.specs.Prelude.{◌≡◌, false, true};
ghost use Rattle.mdblock.specs.held.Continuations.{IsContinuationOf, ContinuesList, ContinuesOpen, begins_block, begins_item, opening_of};
ghost use Rattle.mdblock.specs.held.ContainerContinuations.{ContinuesBetween, ContinuesInItem, ContinuesInQuote, ContinuesShut};
ghost use Rattle.mdblock.specs.held.EndedItems.{IsNextIn, IsNextOf};
ghost use Rattle.mdblock.specs.held.LinesAdded.{ContinuesLevel, IsFollowed, IsUnfollowed};

use crate::block_starts::{BlockStart, beginning, continues_lazily};
use crate::container::block_quotes;
use crate::container::lists::OpenList;
use crate::lines::Line;
use crate::open_blocks::{Continuation, Level, OpenBlock};

impl Continuation {
    /// Whether it is a line of the leaf, or a blank line of the open item.
    pub(crate) fn is_matched(self) -> bool
        ensures yes { result ≡ true → self ≡ Continuation.Matched }
        ensures no { result ≡ false → self ≡ Continuation.Matched → ⊥ }
    {
        match self {
            Continuation::Matched => true,
            Continuation::Underlines(_)
            | Continuation::Delimits
            | Continuation::Lazy
            | Continuation::Between
            | Continuation::Next(_)
            | Continuation::Outside(_) => false,
        }
    }

    /// Whether a line begins a block outside of what is open.
    pub(crate) fn begins_block(&self, line: &Line) -> bool
        ensures { result ≡ begins_block self.now line.now }
    {
        match self {
            Continuation::Outside(_) => !line.is_blank(),
            Continuation::Matched
            | Continuation::Underlines(_)
            | Continuation::Delimits
            | Continuation::Lazy
            | Continuation::Between
            | Continuation::Next(_) => false,
        }
    }

    /// Whether a line begins the next item of an open list.
    pub(crate) fn begins_item(&self) -> bool
        ensures { result ≡ begins_item self.now }
    {
        match self {
            Continuation::Next(_) => true,
            Continuation::Matched
            | Continuation::Underlines(_)
            | Continuation::Delimits
            | Continuation::Lazy
            | Continuation::Between
            | Continuation::Outside(_) => false,
        }
    }

    /// What a line outside of what is open begins.
    pub(crate) fn opening(&self) -> Option<BlockStart>
        ensures { result ≡ opening_of self.now }
    {
        match self {
            Continuation::Outside(opening) => *opening,
            Continuation::Matched
            | Continuation::Underlines(_)
            | Continuation::Delimits
            | Continuation::Lazy
            | Continuation::Between
            | Continuation::Next(_) => None,
        }
    }
}

impl Level {
    /// Whether a line has the marker or the indentation of the open container.
    pub(crate) fn is_followed_by(&self, line: &Line) -> bool
        ensures yes { result ≡ true → IsFollowed self.now line.now }
        ensures no { result ≡ false → IsUnfollowed self.now.last line.now }
    {
        match &self.last {
            OpenBlock::Shut | OpenBlock::Leaf(_) => false,
            OpenBlock::Quote(_) => block_quotes::matches(line),
            OpenBlock::List(_, list) => list.matches(line),
        }
    }

    /// How a line continues the open block, which is no container that it matches.
    pub(crate) fn continuation(&self, line: &Line) -> Continuation
        ensures continuation { IsContinuationOf line.now result }
        ensures step { ContinuesOpen self.now.last line.now result }
        ensures last { IsUnfollowed self.now.last line.now → ContinuesLevel self.now line.now result }
        ensures next { IsNextIn self.now.last line.now result }
    {
        match &self.last {
            OpenBlock::Shut => outside_or_lazy(line),
            OpenBlock::Leaf(leaf) => {
                if line.is_lazy() {
                    return Continuation::Matched;
                }
                leaf.continuation(line)
            }
            OpenBlock::Quote(inner) => inner.continuation_in_quote(line),
            OpenBlock::List(inner, list) => inner.continuation_in(list, line),
        }
    }

    /// How a line without the marker continues the block quote that holds these blocks.
    fn continuation_in_quote(&self, line: &Line) -> Continuation
        ensures continuation { IsContinuationOf line.now result }
        ensures quote { ContinuesInQuote self.now line.now result }
    {
        if line.is_lazy() {
            return Continuation::Lazy;
        }
        let opening = beginning(line);
        if self.ends_in_text() && continues_lazily(line, opening) {
            return Continuation::Lazy;
        }
        Continuation::Outside(opening)
    }

    /// How a line continues the list whose last item holds these blocks.
    fn continuation_in(&self, list: &OpenList, line: &Line) -> Continuation
        ensures continuation { IsContinuationOf line.now result }
        ensures item { ContinuesInItem self.now list.now line.now result }
        ensures between { ContinuesBetween list.now line.now result }
        ensures next { IsNextOf list.now line.now result }
        ensures step { ContinuesList line.now result }
    {
        if line.is_lazy() {
            return Continuation::Lazy;
        }
        if line.is_blank() {
            if list.is_open() && self.begun {
                return Continuation::Matched;
            }
            return Continuation::Between;
        }
        let opening = beginning(line);
        if list.is_open() && self.ends_in_text() && continues_lazily(line, opening) {
            return Continuation::Lazy;
        }
        match list.next(line, opening) {
            Some(marker) => Continuation::Next(marker),
            None => Continuation::Outside(opening),
        }
    }
}

/// How a line continues where no block is open.
fn outside_or_lazy(line: &Line) -> Continuation
    ensures continuation { IsContinuationOf line.now result }
    ensures shut { ContinuesShut line.now result }
{
    if line.is_lazy() {
        return Continuation::Matched;
    }
    Continuation::Outside(beginning(line))
}
