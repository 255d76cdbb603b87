//! The lines that an edit would leave, where they stand.

ghost use Rattle.std.specs.Prelude.{◌≤◌, ◌+◌, length};

use crate::source::lines_ahead::LinesAhead;
use mdchunks::{Chunks, Iter};

/// The lines that an edit would leave: those before it, those that it adds, and those behind it. None is copied.
#[derive(Clone, Copy)]
pub(crate) struct NewText<'a> {
    lines: &'a Chunks<String>,
    at: usize,
    gone: usize,
    added: &'a [String],
    ghost within: { at + gone ≤ length lines.now.items },
}

impl<'a> NewText<'a> {
    ghost use Rattle.std.specs.Prelude.{◌≡◌, ◌<◌, ◌≤◌, ◌+◌, ◌-◌, [], Some, None, drop, get_or, if◌then◌else◌, length, map, nat_le, string_bytes};
    ghost use Rattle.mdview.specs.HeldBlocks.{old_lines};
    ghost use Rattle.mdview.specs.Lists.{replaced};
    ghost use Rattle.mdview.specs.NewText.{lines_of};

    /// What is left of the lines where `del` of them at `at` give way to others.
    pub(crate) fn new(
        lines: &'a Chunks<String>,
        at: usize,
        del: usize,
        added: &'a [String],
    ) -> NewText<'a>
        requires { at + del ≤ length lines.now.items }
        ensures new { lines_of result ≡ replaced (map string_bytes lines.now.items) at del (map string_bytes added.now) }
        ensures old { old_lines result ≡ map string_bytes lines.now.items }
        ensures at { result.at ≡ at }
        ensures gone { result.gone ≡ del }
        ensures come { length result.added.now ≡ length added.now }
    {
        NewText {
            lines,
            at,
            gone: del,
            added,
        }
    }

    pub(crate) fn len(&self) -> usize
        requires { length (lines_of self.now) ≤ 1000000 }
        ensures { result ≡ length (lines_of self.now) }
    {
        self.lines.len() - self.gone + self.added.len()
    }

    /// The lines from one on that is not behind the edit.
    pub(crate) fn lines_from(&self, from: usize) -> LinesAhead<'a>
        requires order { from ≤ self.now.at }
        requires old { length (old_lines self.now) ≤ 1000000 }
        ensures { result ≡ drop from (lines_of self.now) }
    {
        let front = self.lines.iter_from(from);
        let back = front.ahead(self.at + self.gone - from);
        LinesAhead::new(self.at - from, front, Iter::of(self.added), back)
    }

    /// The line of this number, the first of those ahead. The number serves the contract alone.
    pub(crate) fn line(&self, i: usize, ahead: &mut LinesAhead<'a>) -> &'a str
        requires within { i < length (lines_of self.now) }
        requires ahead { ahead.old ≡ drop i (lines_of self.now) }
        ensures value { result.now ≡ get_or (lines_of self.now) i [] }
        ensures ahead { ahead.new ≡ drop (i + 1) (lines_of self.now) }
    {
        ahead.next().unwrap()
    }

    /// The number that a line behind the edit has in the text before it.
    pub(crate) fn old_line(&self, i: usize) -> Option<usize>
        requires old { length (old_lines self.now) ≤ 1000000 }
        requires new { i ≤ 1000000 }
        ensures { result ≡ (if nat_le (self.now.at + length self.now.added.now) i
            then Some ((i - (self.now.at + length self.now.added.now)) + (self.now.at + self.now.gone)) else None) }
    {
        let behind = i.checked_sub(self.at)?.checked_sub(self.added.len())?;
        self.at.checked_add(self.gone)?.checked_add(behind)
    }

    /// The first line that the edit touches.
    pub(crate) fn at(&self) -> usize
        ensures within { result ≤ length (lines_of self.now) }
        ensures at { result ≡ self.now.at }
    {
        self.at
    }
}
