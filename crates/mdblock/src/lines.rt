//! A line, as what is left of it where its containers end.

ghost use Rattle.std.specs.Prelude.{◌≡◌, ℕ, ◌+◌, ◌-◌, ◌*◌, ◌^◌, ◌<◌, ◌≤◌, ◌++◌, length, nat_le, replicate, string_bytes, true, OnOk};
ghost use Rattle.std.specs.Str.{IsCharBoundary};
ghost use Rattle.std.specs.List.{suffix_len};
ghost use Rattle.mdscan.specs.Blanks.{is_blank};
ghost use Rattle.mdtext.specs.Columns.{AreMarks, is_space_or_tab};
ghost use Rattle.blockspec.specs.BlockLine.{document_line, indentation, rest, without_columns, as_lazy, behind_marker};
ghost use Rattle.blockspec.specs.BlankLines.{is_blank_line};

use mdtext::Cursor;
use std::alloc::AllocError;
use std::marker::Model;

/// A line whose first containers have taken their marks and columns.
#[derive(Drop)]
pub(crate) struct Line<'a> {
    cursor: Cursor<'a>,
    lazy: bool,
}

impl<'a> Model for Line<'a> {
    ghost use Rattle.std.specs.Prelude.{◌≡◌, ◌+◌, ◌*◌, ◌<◌, ◌^◌, length};
    ghost use Rattle.mdtext.specs.Columns.{line_at};
    ghost use Rattle.blockspec.specs.BlockLine.{BlockLine};

    ghost Value = { BlockLine };

    ghost view = { λ l. record { line = line_at l.cursor; lazy = l.lazy } };

    ghost invariant = { λ l. l.cursor.column + l.cursor.left + 4 * length l.cursor.rest + 3 < 2 ^ 64 };
}

impl<'a> Line<'a> {
    /// A whole line.
    pub(crate) fn new(text: &'a str) -> Line<'a>
        requires { 4 * length text.now < 2 ^ 64 }
        ensures { result ≡ document_line text.now }
    {
        Line {
            cursor: Cursor::new(text),
            lazy: false,
        }
    }

    /// Whether nothing but spaces and tabs stand there (CommonMark 2.1).
    #[tactic(auto, using(crate::proofs::Skips::blank_text, crate::proofs::Skips::unindented_line))]
    pub(crate) fn is_blank(&self) -> bool
        ensures { result ≡ is_blank_line self.now }
    {
        self.cursor.text().is_empty()
    }

    /// The columns of spaces and tabs before the first other character (CommonMark 2.2).
    pub(crate) fn indent(&self) -> usize
        ensures value { result ≡ indentation self.now }
        ensures short { self.now.line.column + result + 3 < 2 ^ 64 }
    {
        self.cursor.indent()
    }

    /// Whether a block other than indented code may begin there.
    pub(crate) fn is_near_margin(&self) -> bool
        ensures { result ≡ nat_le (indentation self.now) 3 }
    {
        self.cursor.indent() <= 3
    }

    /// The text without its indentation.
    #[tactic(auto, using(crate::proofs::Skips::unindented_line))]
    pub(crate) fn text(&self) -> &'a str
        ensures { result.now ≡ rest self.now }
    {
        self.cursor.text()
    }

    /// The text with its indentation, but for columns that are left of a tab.
    pub(crate) fn whole(&self) -> &'a str
        ensures { (columns : ℕ) × (self.now.line.text ≡ replicate columns 32 ++ result.now) }
    {
        self.cursor.rest()
    }

    /// Whether a container around does not match the line, so that it continues the open paragraph (CommonMark 5.1).
    pub(crate) fn is_lazy(&self) -> bool
        ensures { result ≡ self.now.lazy }
    {
        self.lazy
    }

    /// Says that a container around does not match the line.
    pub(crate) fn make_lazy(&mut self)
        ensures { self.new ≡ as_lazy self.old }
    {
        self.lazy = true;
    }

    /// Takes columns of indentation off, or all where there are fewer.
    pub(crate) fn take_columns(&mut self, columns: usize)
        ensures { self.new ≡ without_columns self.old columns }
    {
        self.cursor.skip_columns(columns.min(self.cursor.indent()));
    }

    /// Takes the indentation and a mark of `width` bytes off, which no lazy line has.
    pub(crate) fn take_mark(&mut self, width: usize)
        requires { AreMarks width (rest self.old) }
        ensures { self.new ≡ behind_marker self.old width }
    {
        self.cursor.skip_mark(width);
        self.lazy = false;
    }

    /// Appends the text with its indentation: spaces stand for columns that are left of a tab.
    pub(crate) fn push_to(&self, out: &mut String) -> Result<(), AllocError>
        ensures { OnOk result (string_bytes out.new ≡ string_bytes out.old ++ self.now.line.text) }
    {
        push_spaces(out, self.cursor.left())?;
        out.push_str(self.cursor.rest())
    }
}

/// Finds room for a line of so many bytes with its ending. Where there is none, it finds some for later lines too, since what has a second line mostly has others:
/// for two as long, but for no more than is there with its ending, so that about half of the room at most stays empty. Where nothing is there, for one as long.
pub(crate) fn make_room(out: &mut String, length: usize) -> Result<(), AllocError>
    ensures { string_bytes out.new ≡ string_bytes out.old }
{
    if out.capacity().saturating_sub(out.len()) <= length {
        let line = length.saturating_add(1);
        let later = if out.is_empty() {
            line
        } else {
            line.saturating_mul(2).min(out.len().saturating_add(1))
        };
        out.reserve(line.saturating_add(later))?;
    }
    Ok(())
}

fn push_spaces(out: &mut String, count: usize) -> Result<(), AllocError>
    ensures { OnOk result (string_bytes out.new ≡ string_bytes out.old ++ replicate count 32) }
{
    for _ in 0..count {
        out.push_str(" ")?;
    }
    Ok(())
}

/// How many bytes a text has without the spaces and tabs at its end.
pub(crate) fn trimmed_length(text: &str) -> usize
    ensures boundary { IsCharBoundary text.now result }
    ensures value { result ≡ length text.now - suffix_len is_blank text.now }
{
    text.len() - trailing_blanks(text.as_bytes())
}

/// How many of the last bytes are spaces or tabs.
fn trailing_blanks(text: &[u8]) -> usize
    ensures count { result ≡ suffix_len is_blank text.now }
    ensures within { result ≤ length text.now }
{
    text.iter()
        .rev()
        .take_while(|byte| is_space_or_tab(**byte))
        .count()
}

pub(crate) fn is_space_or_tab(byte: u8) -> bool
    ensures { result ≡ is_space_or_tab byte }
{
    byte == b' ' || byte == b'\t'
}
