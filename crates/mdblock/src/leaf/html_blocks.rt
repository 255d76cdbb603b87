//! HTML blocks (CommonMark 4.6).

ghost use Rattle.std.specs.Prelude.{◌≡◌, ℕ, ◌||◌, nat_lt, not, true, List, [], ◌∷◌, ◌++◌, IfOk, OnOk, string_bytes};
ghost use Rattle.blockspec.specs.BlockLine.{BlockLine};
ghost use Rattle.blockspec.specs.BlankLines.{is_blank_line};
ghost use Rattle.blockspec.specs.BlockTree.{html_block};
ghost use Rattle.mdblock.specs.BlockView.{block_view};
ghost use Rattle.mdblock.specs.held.OpenLeaves.{IsHtmlOf, IsHtmlStep};
ghost use Rattle.mdblock.specs.held.OpenPositions.{LeafAfterIn};
ghost use Rattle.mdblock.specs.Positions.{BlockIn};
ghost use Rattle.blockspec.specs.Stretches.{ends_html};

use crate::blocks::Block;
use crate::gathering::Gathering;
use crate::leaf::{Leaf, LeafAfter, going, over};
use crate::lines::{Line, make_room};
use mdscan::html_end;
use std::alloc::AllocError;

/// An open HTML block: which of the seven kinds it is, and its lines, joined by LF.
#[derive(Drop)]
pub(crate) struct HtmlBlock {
    kind: u8,
    body: String,
}

/// The block that a line begins.
pub(crate) fn begin(kind: u8, line: &Line, gathering: &Gathering) -> Result<LeafAfter, AllocError>
    ensures within { (n : ℕ) → IfOk result (λ step. LeafAfterIn n step) }
    ensures step { IfOk result (λ step. IsHtmlStep (ends_html kind line.now) kind (line.now ∷ []) step) }
{
    let mut body = String::new(gathering.alloc());
    line.push_to(&mut body)?;
    Ok(HtmlBlock { kind, body }.after(line))
}

impl HtmlBlock {
    /// Whether a line goes on with the block.
    pub(crate) fn takes(&self, line: &Line) -> bool
        ensures { result ≡ (nat_lt self.now.kind 6 || not (is_blank_line line.now)) }
    {
        self.kind < 6 || !line.is_blank()
    }

    /// Reads the line that ends the block. It is inlined, so that what it leaves is not copied.
    #[inline(always)]
    pub(crate) fn add_last(mut self, line: &Line) -> Result<LeafAfter, AllocError>
        requires { ends_html self.kind line.now ≡ true }
        ensures within { (n : ℕ) → IfOk result (λ step. LeafAfterIn n step) }
        ensures step { (first : BlockLine) (later : List BlockLine) → IsHtmlOf self.kind (first ∷ later) self
            → IfOk result (λ step. IsHtmlStep (ends_html self.kind line.now) self.kind (first ∷ later ++ line.now ∷ []) step) }
    {
        self.push_line(line)?;
        Ok(over(self.end()))
    }

    /// Appends a line of the block.
    pub(crate) fn push_line(&mut self, line: &Line) -> Result<(), AllocError>
        ensures kind { self.new.kind ≡ self.old.kind }
        ensures step { OnOk result ((kind : ℕ) (first : BlockLine) (later : List BlockLine) → IsHtmlOf kind (first ∷ later) self.old
            → IsHtmlOf kind (first ∷ later ++ line.now ∷ []) self.new) }
    {
        make_room(&mut self.body, line.whole().len())?;
        self.body.push_str("\n")?;
        line.push_to(&mut self.body)?;
        Ok(())
    }

    /// Whether a line holds what ends the block.
    pub(crate) fn ends(&self, line: &Line) -> bool
        ensures { result ≡ ends_html self.now.kind line.now }
    {
        html_end(self.kind, line.whole())
    }

    /// What a line that was read leaves: it may be the last one.
    fn after(self, line: &Line) -> LeafAfter
        ensures within { (n : ℕ) → LeafAfterIn n result }
        ensures step { (lines : List BlockLine) → IsHtmlOf self.kind lines self → IsHtmlStep (ends_html self.kind line.now) self.kind lines result }
    {
        if self.ends(line) {
            over(self.end())
        } else {
            going(Leaf::Html(self))
        }
    }

    /// What the block is at its end.
    pub(crate) fn end(self) -> Block
        ensures within { (n : ℕ) → BlockIn n (block_view result) }
        ensures value { block_view result ≡ html_block (string_bytes self.body) }
    {
        Block::Html(self.body)
    }
}
