//! Paragraphs (CommonMark 4.8), and what becomes of their lines.

ghost use Rattle.std.specs.Prelude.{◌≡◌, ◌+◌, ◌-◌, ◌≤◌, ℕ, true, false, nat_le, List, [], ◌∷◌, ◌++◌, IfOk, IfSome, OnOk, length, take, drop, string_bytes};
ghost use Rattle.std.specs.Option.{option_map};
ghost use Rattle.std.specs.Str.{IsCharBoundary};
ghost use Rattle.mdleaf.specs.ParagraphText.{is_definitions_alone, behind_definitions, without_end_blanks};
ghost use Rattle.mdleaf.specs.ParagraphDefinitions.{leading_of};
ghost use Rattle.mdleaf.specs.Tables.{begins_table};
ghost use Rattle.blockspec.specs.BlockLine.{BlockLine, rest, indentation};
ghost use Rattle.blockspec.specs.BlankLines.{is_blank_line};
ghost use Rattle.blockspec.specs.BlockKinds.{Table as TableKind, Inside, SetextHeading};
ghost use Rattle.blockspec.specs.SetextHeadings.{begins_underline};
ghost use Rattle.blockspec.specs.Tables.{last_text};
ghost use Rattle.blockspec.specs.BlockStart.{start, start_near};
ghost use Rattle.blockspec.specs.BlockTree.{heading as heading_block};
ghost use Rattle.mdblock.specs.BlockView.{block_view};
ghost use Rattle.mdblock.specs.held.Growing.{Grows};
ghost use Rattle.mdblock.specs.held.HandedIn.{gathered_definitions, gathered_texts, left_behind, IsHandedIn};
ghost use Rattle.mdblock.specs.Positions.{BlockIn};
ghost use Rattle.mdblock.specs.held.HeldTables.{IsTableBehind, first_rows};
ghost use Rattle.mdblock.specs.held.OpenLeaves.{IsOver};
ghost use Rattle.mdblock.specs.held.OpenPositions.{LeafAfterIn};
ghost use Rattle.mdblock.specs.held.Continuations.{IsContinuationOf, IsOfLeaf, IsTurn, step_view};
ghost use Rattle.mdblock.specs.held.ParagraphLines.{HoldsLines, begins_row};
ghost use Rattle.blockspec.specs.Stretches.{Continues, IsLastLine, paragraph_step, interrupted};

use crate::block_starts::{Mode, after_underline, before_underline};
use crate::blocks::Block;
use crate::gathering::Gathering;
use crate::leaf::LeafAfter;
use crate::leaf::link_definitions::content;
use crate::leaf::setext_headings::setext_heading;
use crate::leaf::tables::Table;
use crate::leaf::task_list_items::take_task;
use crate::lines::{Line, make_room, trimmed_length};
use crate::open_blocks::Continuation;
use mdleaf::{begins_table, is_only_definitions, table_header};
use mdscan::setext;
use std::alloc::AllocError;
use std::marker::Model;

/// An open paragraph: its lines without their indentation, joined by LF, and where the last one begins.
#[derive(Drop)]
pub(crate) struct Paragraph {
    text: String,
    last: usize,
}

impl Model for Paragraph {
    ghost use Rattle.std.specs.Prelude.{◌≡◌, ◌-◌, ◌<◌, slice_index, string_bytes};
    ghost use Rattle.std.specs.Str.{IsCharBoundary};
    ghost use Rattle.mdblock.specs.held.ParagraphLines.{HeldText};

    ghost Value = { HeldText };

    ghost view = { λ p. record { text = string_bytes p.text; last = p.last } };

    ghost invariant = { λ p. IsCharBoundary (string_bytes p.text) p.last × (0 < p.last → slice_index (string_bytes p.text) (p.last - 1) ≡ 10) };
}

impl Paragraph {
    /// The paragraph of one line.
    pub(crate) fn new(line: &Line, gathering: &Gathering) -> Result<Paragraph, AllocError>
        ensures { IfOk result (HoldsLines (line.now ∷ [])) }
    {
        Ok(Paragraph {
            text: String::from_str(gathering.alloc(), line.text())?,
            last: 0,
        })
    }

    /// How a line continues the paragraph, all of whose containers match it, or that is lazy.
    pub(crate) fn continuation(&self, line: &Line) -> Continuation
        ensures continuation { IsContinuationOf line.now result }
        ensures leaf { IsOfLeaf result }
        ensures row { result ≡ Continuation.Delimits → begins_table (drop self.now.last self.now.text) (rest line.now) ≡ true }
        ensures step { (lines : List BlockLine) → HoldsLines lines self.now
            → step_view (length lines) result ≡ paragraph_step line.now.lazy (is_blank_line line.now) (start Inside lines line.now) }
    {
        if line.is_lazy() {
            return Continuation::Matched;
        }
        if line.is_blank() {
            return Continuation::Outside(None);
        }
        if line.is_near_margin() {
            return self.continuation_at_margin(line);
        }
        Continuation::Matched
    }

    fn continuation_at_margin(&self, line: &Line) -> Continuation
        requires blank { is_blank_line line.now ≡ false }
        requires near { nat_le (indentation line.now) 3 ≡ true }
        ensures continuation { IsContinuationOf line.now result }
        ensures leaf { IsOfLeaf result }
        ensures row { result ≡ Continuation.Delimits → begins_table (drop self.now.last self.now.text) (rest line.now) ≡ true }
        ensures step { (lines : List BlockLine) → HoldsLines lines self.now → step_view (length lines) result ≡ interrupted (start_near Inside lines line.now) }
    {
        if let Some(opening) = before_underline(line, Mode::Inside) {
            return Continuation::Outside(Some(opening));
        }
        if let Some(level) = self.underline(line) {
            return Continuation::Underlines(level);
        }
        if let Some(opening) = after_underline(line, Mode::Inside) {
            return Continuation::Outside(Some(opening));
        }
        if self.is_delimited(line) {
            return Continuation::Delimits;
        }
        Continuation::Matched
    }

    /// The level of the heading that a line makes of the paragraph (CommonMark 4.3).
    fn underline(&self, line: &Line) -> Option<u8>
        ensures { (lines : List BlockLine) → HoldsLines lines self.now → option_map SetextHeading result ≡ begins_underline Inside lines line.now }
    {
        match setext(line.text()) {
            Some(level) => {
                if self.is_definitions() {
                    return None;
                }
                Some(level)
            }
            None => None,
        }
    }

    /// Whether the text is link reference definitions and nothing else (CommonMark 4.7).
    fn is_definitions(&self) -> bool
        ensures { result ≡ is_definitions_alone (without_end_blanks self.now.text) }
    {
        let text = self.text.as_str();
        is_only_definitions(&text[..trimmed_length(text)])
    }

    /// Whether a line is a delimiter row that makes a table of the last line.
    fn is_delimited(&self, line: &Line) -> bool
        ensures row { result ≡ true → begins_table (drop self.now.last self.now.text) (rest line.now) ≡ true }
        ensures lines { (lines : List BlockLine) → HoldsLines lines self.now → result ≡ begins_table (last_text lines) (rest line.now) }
    {
        may_delimit(line.text()) && begins_table(self.last_line(), line.text())
    }

    fn last_line(&self) -> &str
        ensures { result.now ≡ drop self.now.last self.now.text }
    {
        let text = self.text.as_str();
        &text[self.last..]
    }

    /// The heading that an underline makes of the paragraph.
    fn turn_into_heading(
        self,
        level: u8,
        gathering: &mut Gathering,
    ) -> Result<LeafAfter, AllocError>
        ensures within { IfOk result (λ step. LeafAfterIn (length gathering.new.texts.items) step) }
        ensures grows { Grows gathering.old gathering.new }
        ensures step { IfOk result (λ step. IsOver (heading_block level (length gathering.old.texts.items)) step) }
        ensures texts { OnOk result (gathered_texts gathering.new ≡ gathered_texts gathering.old ++ behind_definitions (without_end_blanks self.text) ∷ []) }
        ensures found { OnOk result (gathered_definitions gathering.new
            ≡ gathered_definitions gathering.old ++ leading_of gathering.old.entities.now (without_end_blanks self.text)) }
    {
        let text = content(self.text, gathering)?;
        setext_heading(level, text, gathering)
    }

    /// The heading or the table that an underline or a delimiter row makes of the paragraph.
    pub(crate) fn turn(
        self,
        continuation: Continuation,
        line: &Line,
        first: bool,
        gathering: &mut Gathering,
    ) -> Result<LeafAfter, AllocError>
        requires turn { IsTurn continuation }
        requires step { (lines : List BlockLine) → HoldsLines lines self
            → step_view (length lines) continuation ≡ paragraph_step line.now.lazy (is_blank_line line.now) (start Inside lines line.now) }
        requires row { continuation ≡ Continuation.Delimits → begins_table (drop self.last self.text) (rest line.now) ≡ true }
        ensures within { IfOk result (λ step. LeafAfterIn (length gathering.new.texts.items) step) }
        ensures grows { Grows gathering.old gathering.new }
        ensures underlined { (lines : List BlockLine) (level : ℕ) → HoldsLines lines self
            → paragraph_step line.now.lazy (is_blank_line line.now) (start Inside lines line.now) ≡ IsLastLine (SetextHeading level)
            → IfOk result (λ step. IsOver (heading_block level (length gathering.old.texts.items)) step) }
        ensures underlined_texts { (lines : List BlockLine) (level : ℕ) → HoldsLines lines self
            → paragraph_step line.now.lazy (is_blank_line line.now) (start Inside lines line.now) ≡ IsLastLine (SetextHeading level)
            → OnOk result ((gathered_texts gathering.new ≡ gathered_texts gathering.old ++ behind_definitions (without_end_blanks self.text) ∷ [])
            × (gathered_definitions gathering.new ≡ gathered_definitions gathering.old
            ++ leading_of gathering.old.entities.now (without_end_blanks self.text))) }
        ensures delimited { (lines : List BlockLine) (above : ℕ) → HoldsLines lines self
            → paragraph_step line.now.lazy (is_blank_line line.now) (start Inside lines line.now) ≡ Continues (TableKind above)
            → IfOk result (IsTableBehind first (take (self.last - 1) self.text) (first_rows (last_text lines) (rest line.now))
            (gathered_texts gathering.old) (gathered_texts gathering.new)) }
        ensures delimited_found { (lines : List BlockLine) (above : ℕ) → HoldsLines lines self
            → paragraph_step line.now.lazy (is_blank_line line.now) (start Inside lines line.now) ≡ Continues (TableKind above)
            → OnOk result (gathered_definitions gathering.new ≡ gathered_definitions gathering.old
            ++ leading_of gathering.old.entities.now (without_end_blanks (take (self.last - 1) self.text))) }
    {
        match continuation {
            Continuation::Underlines(level) => self.turn_into_heading(level, gathering),
            Continuation::Delimits => self.turn_into_table(line.text(), first, gathering),
            _ => unreachable!(),
        }
    }

    /// Appends one line more.
    pub(crate) fn push_line(&mut self, line: &Line) -> Result<(), AllocError>
        ensures text { OnOk result (self.new.text ≡ self.old.text ++ 10 ∷ rest line.now) }
        ensures last { OnOk result (self.new.last ≡ length self.old.text + 1) }
    {
        make_room(&mut self.text, line.text().len())?;
        self.text.push_str("\n")?;
        self.last = self.text.len();
        self.text.push_str(line.text())
    }

    /// The table whose header row is the last line, behind a paragraph of the other lines.
    fn turn_into_table(
        self,
        delimiters: &str,
        first: bool,
        gathering: &mut Gathering,
    ) -> Result<LeafAfter, AllocError>
        requires { begins_table (drop self.last self.text) delimiters.now ≡ true }
        ensures within { IfOk result (λ step. LeafAfterIn (length gathering.new.texts.items) step) }
        ensures grows { Grows gathering.old gathering.new }
        ensures table { IfOk result (IsTableBehind first (take (self.last - 1) self.text) (first_rows (drop self.last self.text) delimiters.now)
            (gathered_texts gathering.old) (gathered_texts gathering.new)) }
        ensures found { OnOk result (gathered_definitions gathering.new ≡ gathered_definitions gathering.old
            ++ leading_of gathering.old.entities.now (without_end_blanks (take (self.last - 1) self.text))) }
    {
        let Some(header) = table_header(gathering.alloc(), self.last_line(), delimiters)? else {
            unreachable!()
        };
        let over = self.without_last().end(first, gathering)?;
        let table = Table::new(header, gathering)?;
        Ok(table.behind(over))
    }

    /// The text of the lines but the last one.
    fn without_last(self) -> Paragraph
        ensures { result.text ≡ take (self.last - 1) self.text }
    {
        let mut text = self.text;
        text.truncate(self.last.saturating_sub(1));
        Paragraph { text, last: 0 }
    }

    /// What the paragraph is at its end: its definitions are handed in, and it is a block where anything follows them.
    pub(crate) fn end(
        self,
        first: bool,
        gathering: &mut Gathering,
    ) -> Result<Option<Block>, AllocError>
        ensures within { IfOk result (λ found. IfSome found (λ block. BlockIn (length gathering.new.texts.items) (block_view block))) }
        ensures grows { Grows gathering.old gathering.new }
        ensures left { IfOk result (λ found. IsHandedIn (left_behind first (behind_definitions (without_end_blanks self.text)))
            (gathered_texts gathering.old) (gathered_texts gathering.new) found) }
        ensures found { OnOk result (gathered_definitions gathering.new
            ≡ gathered_definitions gathering.old ++ leading_of gathering.old.entities.now (without_end_blanks self.text)) }
    {
        let mut text = content(self.text, gathering)?;
        if text.is_empty() {
            return Ok(None);
        }
        let task = take_task(&mut text, first)?;
        let text = gathering.text(text)?;
        Ok(Some(Block::Paragraph { text, task }))
    }
}

/// Whether a line without its indentation begins as a delimiter row of a table does: most lines of text need no closer look.
fn may_delimit(text: &str) -> bool
    ensures { result ≡ begins_row text.now }
{
    matches!(text.as_bytes(), [b'|' | b'-' | b':', ..])
}
