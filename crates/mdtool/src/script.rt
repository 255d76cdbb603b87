//! The lines and the commands of a script, as they come from a feed.
//!
//! Bytes are taken in chunks, and each is searched once for the end of its line.
ghost use Rattle.std.specs.Prelude.{◌≡◌, ◌+◌, ◌*◌, ◌-◌, ◌^◌, ◌<◌, ◌≤◌, true, false, [], MatchOption};
ghost use Rattle.std.specs.Prelude.{ℕ, List, ◌++◌, length, take, drop, OnOk, IfOk, IfSome, OnSome, if◌then◌else◌};
ghost use Rattle.mdtool.specs.Commands.{has_break};
ghost use Rattle.mdtool.specs.Pending.{Reads, Draws, HasLine, IsOver, Uses, used, fresh};
ghost use Rattle.mdtool.specs.Steps.{Steps, failures_after, NextCommand, NextTexts};

use crate::command::{Command, Header};
use crate::device::Feed;
use crate::fault::ToolFault;
use crate::header::header;
use crate::joined_lines::{ByteLines, JoinedLines};
use crate::line_breaks::{first_break, whole_lines};
use std::alloc::{AllocError, Global};
use std::marker::Model;

const CHUNK: usize = 16384;

/// A script that is read line by line. A line ends at LF alone; a last line without LF counts if it is not empty.
#[derive(Drop)]
pub struct Script {
    /// Room for the next bytes of the feed.
    chunk: [u8; CHUNK],
    taken: Vec<u8>,
    /// Where the bytes begin that no line has used yet.
    start: usize,
    /// No LF stands from `start` to here.
    searched: usize,
    is_ended: bool,
    /// How many lines were read; it stays at its greatest value.
    lines: u64,
}

impl Model for Script {
    ghost use Rattle.std.specs.Prelude.{◌≡◌, ◌-◌, ◌≤◌, ◌^◌, false, length, take, drop};
    ghost use Rattle.mdtool.specs.Commands.{has_break};
    ghost use Rattle.mdtool.specs.Pending.{Pending};

    ghost Value = { Pending };

    ghost view = { λ s. record { bytes = drop s.start s.taken.items; is_ended = s.is_ended; lines = s.lines } };

    ghost invariant = { λ s. (s.start ≤ s.searched) × (s.searched ≤ length s.taken.items)
        × (has_break (take (s.searched - s.start) (drop s.start s.taken.items)) ≡ false) };
}

impl Script {
    /// A script of which nothing is read yet.
    pub fn new(alloc: Global) -> Script
        ensures { result ≡ fresh }
    {
        Script {
            chunk: [0; CHUNK],
            taken: Vec::new(alloc),
            start: 0,
            searched: 0,
            is_ended: false,
            lines: 0,
        }
    }

    /// The next command, or nothing at the end.
    pub fn next_command<R: Feed>(
        &mut self,
        alloc: Global,
        feed: &mut R,
    ) -> Result<Option<Command>, ToolFault>
        requires { R.failures feed.old < 2 ^ 64 - 1 }
        ensures next { NextCommand result (R.left feed.old) self.old (R.left feed.new) self.new }
        ensures failures { R.failures feed.new ≡ failures_after result (R.failures feed.old) }
        ensures falls { IfOk result (λ found. OnSome found
            (R.calls_left feed.new * 16384 + length self.new.bytes < R.calls_left feed.old * 16384 + length self.old.bytes)) }
    {
        let Some(len) = self.find_line(feed)? else {
            return Ok(None);
        };
        let head = header(self.front(len));
        self.use_line(len);
        let line = self.lines;
        let Some(head) = head else {
            return Err(ToolFault::BadCommand(line));
        };
        match head {
            Header::Html => Ok(Some(Command::Html)),
            Header::Prelude { add } => {
                let lines = self.next_texts(alloc, feed, line, add)?;
                Ok(Some(Command::Prelude { lines }))
            }
            Header::Edit { at, del, add } => {
                let add = self.next_texts(alloc, feed, line, add)?;
                Ok(Some(Command::Edit { at, del, add }))
            }
        }
    }

    /// The next `count` lines, which the command in this line asks for; `Truncated` names it where there are fewer. Bytes that are no UTF-8 are read as
    /// U+FFFD. Room is made for the lines that come, and not for the number.
    fn next_texts<R: Feed>(
        &mut self,
        alloc: Global,
        feed: &mut R,
        line: u64,
        count: usize,
    ) -> Result<JoinedLines, ToolFault>
        requires { R.failures feed.old < 2 ^ 64 - 1 }
        ensures texts { NextTexts result line count (R.left feed.old) self.old (R.left feed.new) self.new }
        ensures failures { R.failures feed.new ≡ failures_after result (R.failures feed.old) }
        ensures weight { OnOk result (R.calls_left feed.new * 16384 + length self.new.bytes ≤ R.calls_left feed.old * 16384 + length self.old.bytes) }
    {
        let mut lines = ByteLines::new(alloc);
        while lines.len() < count {
            let Some(len) = self.find_line(feed)? else {
                return Err(ToolFault::Truncated(line));
            };
            lines.push(self.front(len))?;
            self.use_line(len);
            self.use_whole_lines(alloc, count, &mut lines)?;
        }
        Ok(lines.into_texts(alloc)?)
    }

    /// How long the next line is, without its LF, or nothing at the end.
    #[inline(always)]
    fn find_line<R: Feed>(&mut self, feed: &mut R) -> Result<Option<usize>, ToolFault>
        requires { R.failures feed.old < 2 ^ 64 - 1 }
        ensures steps { Steps result
            (λ found. Reads (R.left feed.old) self.old [] (R.left feed.new) self.new × MatchOption found (IsOver true self.new) (λ len. HasLine len self.new))
            (Reads (R.left feed.old) self.old [] (R.left feed.new) self.new × IsOver false self.new)
            (Draws (R.left feed.old) self.old.is_ended (R.left feed.new)) }
        ensures within { IfOk result (λ found. IfSome found (λ len. len ≤ length self.new.bytes)) }
        ensures some { IfOk result (λ found. IfSome found (λ len. 0 < length self.new.bytes)) }
        ensures failures { R.failures feed.new ≡ failures_after result (R.failures feed.old) }
        ensures weight { OnOk result (R.calls_left feed.new * 16384 + length self.new.bytes ≤ R.calls_left feed.old * 16384 + length self.old.bytes) }
    {
        loop {
            if let Some(at) = first_break(&self.taken[self.searched..]) {
                self.searched += at;
                return Ok(Some(self.searched - self.start));
            }
            self.searched = self.taken.len();
            if self.is_ended {
                let left = self.taken.len() - self.start;
                if left == 0 {
                    return Ok(None);
                }
                return Ok(Some(left));
            }
            self.take_more(feed)?;
        }
    }

    /// Takes a chunk from the feed, or finds that it has ended.
    #[inline(never)]
    fn take_more<R: Feed>(&mut self, feed: &mut R) -> Result<(), ToolFault>
        requires feed { R.failures feed.old < 2 ^ 64 - 1 }
        requires open { self.old.is_ended ≡ false }
        ensures steps { Steps result
            (λ _. Reads (R.left feed.old) self.old [] (R.left feed.new) self.new)
            (Reads (R.left feed.old) self.old [] (R.left feed.new) self.new × (self.new ≡ self.old))
            (Draws (R.left feed.old) self.old.is_ended (R.left feed.new)) }
        ensures failures { R.failures feed.new ≡ failures_after result (R.failures feed.old) }
        ensures weight { OnOk result (R.calls_left feed.new * 16384 + length self.new.bytes ≤ R.calls_left feed.old * 16384 + length self.old.bytes) }
        ensures falls { OnOk result (R.calls_left feed.new + (if self.new.is_ended then 0 else 1) < R.calls_left feed.old + 1) }
    {
        self.drop_used();
        let Ok(count) = feed.get(&mut self.chunk) else {
            return Err(ToolFault::Read);
        };
        if count == 0 {
            self.is_ended = true;
            return Ok(());
        }
        if self.taken.extend_from_slice(&self.chunk[..count]).is_err() {
            return Err(ToolFault::NoMemory);
        }
        Ok(())
    }

    /// Drops the bytes that lines have used.
    fn drop_used(&mut self)
        ensures { self.new ≡ self.old }
    {
        if self.start > 0 {
            drop_front(&mut self.taken, self.start);
            self.searched -= self.start;
            self.start = 0;
        }
    }

    /// The first bytes that no line has used yet.
    fn front(&self, len: usize) -> &[u8]
        requires { len ≤ length self.now.bytes }
        ensures { result.now ≡ take len self.now.bytes }
    {
        &self.taken[self.start..self.start + len]
    }

    /// Uses a line of this length, and its LF if it has one.
    fn use_line(&mut self, len: usize)
        requires { len ≤ length self.old.bytes }
        ensures { self.new ≡ used len self.old }
    {
        self.start += len;
        if self.start < self.taken.len() {
            self.start += 1;
        }
        self.searched = self.start;
        self.lines = self.lines.saturating_add(1);
    }

    /// Uses the whole lines at the front of what was taken, until there are so many, with one copy of their bytes.
    fn use_whole_lines(
        &mut self,
        alloc: Global,
        most: usize,
        lines: &mut ByteLines,
    ) -> Result<(), AllocError>
        requires { length lines.old ≤ most }
        ensures lines { OnOk result ((used : List (List ℕ)) × (lines.new ≡ lines.old ++ used) × Uses self.old used self.new) }
        ensures few { OnOk result (length lines.new ≤ most) }
    {
        let (lens, end) = whole_lines(alloc, &self.taken[self.start..], most - lines.len())?;
        lines.append(&self.taken[self.start..self.start + end], &lens)?;
        self.start += end;
        self.searched = self.start;
        self.lines = self.lines.saturating_add(lens.len() as u64);
        Ok(())
    }
}

/// Takes the first bytes away: the others are moved to their place.
#[tactic(auto, using(crate::proofs::Searches::moved_down))]
fn drop_front(bytes: &mut Vec<u8>, count: usize)
    requires { count ≤ length bytes.old.items }
    ensures { bytes.new.items ≡ drop count bytes.old.items }
{
    let left = bytes.len() - count;
    bytes.copy_within(count.., 0);
    bytes.truncate(left);
}
