//! The place in a line up to which its containers have taken it.
ghost use Rattle.std.specs.Prelude.{◌≡◌, ◌+◌, ◌*◌, ◌-◌, ◌<◌, ◌≤◌, ◌^◌, ◌%◌, [], length, drop, true};
ghost use Rattle.std.specs.List.{prefix_len};
ghost use Rattle.mdtext.specs.Columns.{AreMarks, indent, indent_at, is_space_or_tab, line_at, skip, skip_from, strip, unindented, width};

use std::marker::Model;

/// A place in a line. Columns count from 0 at the line's beginning, and a tab reaches the next multiple of 4
/// (CommonMark 2.2). None of its calls takes memory.
#[derive(Debug, Drop)]
pub struct Cursor<'a> {
    column: usize,
    left: usize,
    rest: &'a str,
    text: &'a str,
    indent: usize,
}

impl<'a> Model for Cursor<'a> {
    ghost use Rattle.std.specs.Prelude.{◌≡◌, ◌+◌, ◌*◌, ◌<◌, ◌^◌, length};
    ghost use Rattle.mdtext.specs.Columns.{Place, indent, indent_at, line_at, unindented};

    ghost Value = { Place };

    ghost view = { λ c. record { column = c.column; left = c.left; rest = c.rest.now } };

    ghost invariant = { λ c. (c.indent ≡ c.left + indent_at (c.column + c.left) c.rest.now) × (c.column + c.left + 4 * length c.rest.now < 2 ^ 64)
        × (c.text.now ≡ unindented c.rest.now) };
}

impl<'a> Cursor<'a> {
    /// The beginning of a line.
    pub fn new(line: &'a str) -> Cursor<'a>
        requires { 4 * length line.now < 2 ^ 64 }
        ensures { result ≡ record { column = 0; left = 0; rest = line.now } }
    {
        let front = front_of(0, line.as_bytes());
        Cursor {
            column: 0,
            left: 0,
            rest: line,
            text: &line[front.bytes..],
            indent: front.columns,
        }
    }

    /// How many columns of spaces and tabs stand before the first other character.
    pub fn indent(&self) -> usize
        ensures { result ≡ indent (line_at self.now) }
    {
        self.indent
    }

    /// How many columns are left of a tab of which some are skipped.
    pub fn left(&self) -> usize
        ensures { result ≡ self.now.left }
    {
        self.left
    }

    /// The text after the columns that are left of a tab.
    pub fn rest(&self) -> &'a str
        ensures { result.now ≡ self.now.rest }
    {
        self.rest
    }

    /// The text after the spaces and tabs.
    pub fn text(&self) -> &'a str
        ensures { result.now ≡ unindented self.now.rest }
    {
        self.text
    }

    /// Goes over columns of spaces and tabs, no more than `indent` tells. Of a tab only some columns may be taken.
    #[inline]
    pub fn skip_columns(&mut self, columns: usize)
        requires { columns ≤ indent (line_at self.old) }
        ensures place { self.new ≡ skip self.old columns }
        ensures line { line_at self.new ≡ strip (line_at self.old) columns }
    {
        if columns == 0 {
            return;
        }
        if self.is_even() {
            let rest = self.rest();
            self.column += columns;
            self.rest = &rest[columns..];
            self.indent -= columns;
            return;
        }
        self.skip_widths(columns);
    }

    /// Whether each of the spaces and tabs takes one column, and none is left of a tab.
    #[inline]
    fn is_even(&self) -> bool
        ensures left { result ≡ true → self.now.left ≡ 0 }
        ensures even { result ≡ true → indent (line_at self.now) ≡ prefix_len is_space_or_tab self.now.rest }
    {
        self.left == 0 && self.rest.len() - self.text.len() == self.indent
    }

    /// Goes over columns of any spaces and tabs, one after another. Of a tab only some columns may be taken.
    #[inline(never)]
    fn skip_widths(&mut self, columns: usize)
        requires { columns ≤ indent (line_at self.old) }
        ensures place { self.new ≡ skip self.old columns }
        ensures line { line_at self.new ≡ strip (line_at self.old) columns }
    {
        let mut rest = self.rest();
        let mut column = self.column;
        let mut left = self.left;
        let mut wanted = columns;
        while left < wanted {
            wanted -= left;
            column += left;
            left = width(column, rest.as_bytes()[0]);
            rest = &rest[1..];
        }
        self.column = column + wanted;
        self.left = left - wanted;
        self.rest = rest;
        self.indent -= columns;
    }

    /// Goes over the spaces and tabs and n bytes behind them, each of which takes one column.
    pub fn skip_mark(&mut self, n: usize)
        requires { AreMarks n (unindented self.old.rest) }
        ensures { self.new ≡ record { column = self.old.column + indent (line_at self.old) + n; left = 0; rest = drop n (unindented self.old.rest) } }
    {
        let rest = &self.text()[n..];
        let column = self.column + self.indent + n;
        let front = front_of(column, rest.as_bytes());
        self.column = column;
        self.left = 0;
        self.rest = rest;
        self.text = &rest[front.bytes..];
        self.indent = front.columns;
    }
}

/// The spaces and tabs at the front of a text: how many they are, and how many columns they take.
#[derive(Clone, Copy)]
struct Front {
    bytes: usize,
    columns: usize,
}

/// The spaces and tabs at the front of a text that begins at a column.
fn front_of(column: usize, text: &[u8]) -> Front
    requires { column + 4 * length text.now < 2 ^ 64 }
    ensures bytes { result.bytes ≡ prefix_len is_space_or_tab text.now }
    ensures columns { result.columns ≡ indent_at column text.now }
{
    let mut end = column;
    for at in 0..text.len() {
        if !is_space_or_tab(text[at]) {
            return Front {
                bytes: at,
                columns: end - column,
            };
        }
        end += width(end, text[at]);
    }
    Front {
        bytes: text.len(),
        columns: end - column,
    }
}

fn is_space_or_tab(byte: u8) -> bool
    ensures { result ≡ is_space_or_tab byte }
{
    byte == b' ' || byte == b'\t'
}

// How many columns a byte takes that stands at a column.
#[tactic(auto, unfolding(crate::specs::Columns::width))]
fn width(column: usize, byte: u8) -> usize
    ensures { result ≡ width column byte }
{
    if byte == b'\t' { 4 - column % 4 } else { 1 }
}
