//! Lines that come, of an edit or of a prelude: what their limits are tested on, and how they are held.
ghost use Rattle.std.specs.Prelude.{◌≡◌, ◌-◌, ◌^◌, IfOk, length, map, min, string_bytes};
ghost use Rattle.mdtext.specs.Lines.{without_nul};
ghost use Rattle.mdsource.specs.SourceLimits.{first_with_ending, size_of};

use crate::clean::{cleaned, copied};
use crate::limits::{are_plain, clean_size, first_line_break, plain_size};
use std::alloc::{AllocError, Global};
use std::marker::Model;

/// The lines that an edit or a prelude brings, and what one look at all of them told: no line ending and no U+0000 stands in any, or nothing is known of them.
/// In most texts none does, and then no line is searched again.
#[derive(Drop)]
pub struct AddedLines<'a> {
    lines: &'a [&'a str],
    are_plain: bool,
}

impl<'a> Model for AddedLines<'a> {
    ghost use Rattle.std.specs.Prelude.{◌≡◌, ℕ, List, false, map, true};
    ghost use Rattle.std.specs.List.{list_any};
    ghost use Rattle.mdsource.specs.SourceLimits.{has_special};

    ghost Value = { List (List ℕ) };

    ghost view = { λ a. map (λ line. line.now) a.lines.now };

    ghost invariant = { λ a. a.are_plain ≡ true → list_any has_special (map (λ line. line.now) a.lines.now) ≡ false };
}

impl<'a> AddedLines<'a> {
    /// These lines, each looked at once for a line ending and for U+0000. Takes no memory.
    pub fn new(lines: &'a [&'a str]) -> AddedLines<'a>
        ensures { result ≡ map (λ line. line.now) lines.now }
    {
        AddedLines {
            lines,
            are_plain: are_plain(lines),
        }
    }

    /// How many lines come. Takes no memory.
    pub fn len(&self) -> usize
        ensures { result ≡ length self.now }
    {
        self.lines.len()
    }

    /// The number of the first line that holds a line ending, from 0; nothing where none does. Takes no memory.
    pub fn first_line_break(&self) -> Option<usize>
        ensures { result ≡ first_with_ending 0 self.now }
    {
        if self.are_plain {
            return None;
        }
        first_line_break(self.lines)
    }

    /// The size of the lines in bytes, with one for each line's end, after U+FFFD stands for each U+0000 (CommonMark 2.3): up to the greatest number. Takes no
    /// memory.
    pub fn size(&self) -> usize
        ensures { result ≡ min (size_of (map without_nul self.now)) (2 ^ 64 - 1) }
    {
        if self.are_plain {
            return plain_size(self.lines);
        }
        clean_size(self.lines)
    }

    /// The lines with U+FFFD for each U+0000 (CommonMark 2.3), in a list with room for so many more lines. Refused for want of memory alone.
    pub fn cleaned(&self, alloc: Global, room: usize) -> Result<Vec<String>, AllocError>
        ensures { IfOk result (λ clean. map string_bytes clean.items ≡ map without_nul self.now) }
    {
        if self.are_plain {
            return copied(alloc, self.lines, room);
        }
        cleaned(alloc, self.lines, room)
    }
}
