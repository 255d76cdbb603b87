//! Indented code (CommonMark 4.4).

ghost use Rattle.std.specs.Prelude.{◌≡◌, ℕ, List, [], ◌∷◌, ◌++◌, IfOk, OnOk, string_bytes};
ghost use Rattle.blockspec.specs.BlockLine.{BlockLine};
ghost use Rattle.blockspec.specs.BlockTree.{code_block};
ghost use Rattle.mdblock.specs.BlockView.{block_view};
ghost use Rattle.mdblock.specs.held.OpenLeaves.{IsCodeOf, IsCodeLeaf, IsGoing};
ghost use Rattle.mdblock.specs.held.OpenPositions.{LeafAfterIn};
ghost use Rattle.mdblock.specs.Positions.{BlockIn};
ghost use Rattle.blockspec.specs.Stretches.{is_code};

use crate::blocks::Block;
use crate::gathering::Gathering;
use crate::leaf::{Leaf, LeafAfter, going};
use crate::lines::Line;
use std::alloc::{AllocError, Global};

/// Open indented code: its lines up to the last that is not blank, and the blank ones after it, each with LF.
#[derive(Drop)]
pub(crate) struct IndentedCode {
    body: String,
    blanks: String,
}

/// The code that a line begins.
pub(crate) fn begin(line: &mut Line, gathering: &Gathering) -> Result<LeafAfter, AllocError>
    ensures within { (n : ℕ) → IfOk result (λ step. LeafAfterIn n step) }
    ensures step { IfOk result (λ step. IsGoing (IsCodeLeaf (line.old ∷ [])) step) }
{
    let mut code = IndentedCode {
        body: String::new(gathering.alloc()),
        blanks: String::new(gathering.alloc()),
    };
    code.push_line(line)?;
    Ok(going(Leaf::Code(code)))
}

impl IndentedCode {
    /// Whether a line goes on with the code.
    pub(crate) fn takes(&self, line: &Line) -> bool
        ensures { result ≡ is_code line.now }
    {
        line.is_blank() || line.indent() >= 4
    }

    /// Appends a line of the code.
    pub(crate) fn push_line(&mut self, line: &mut Line) -> Result<(), AllocError>
        ensures { OnOk result ((lines : List BlockLine) → IsCodeOf lines self.old → IsCodeOf (lines ++ line.old ∷ []) self.new) }
    {
        let blank = line.is_blank();
        line.take_columns(4);
        line.push_to(&mut self.blanks)?;
        self.blanks.push_str("\n")?;
        if blank {
            return Ok(());
        }
        self.body.push_str(self.blanks.as_str())?;
        self.blanks.clear();
        Ok(())
    }

    /// What the code is at its end: blank lines there are no part of it.
    pub(crate) fn end(self, alloc: Global) -> Block
        ensures within { (n : ℕ) → BlockIn n (block_view result) }
        ensures value { block_view result ≡ code_block [] [] (string_bytes self.body) }
    {
        Block::Code {
            lang: String::new(alloc),
            meta: String::new(alloc),
            body: self.body,
        }
    }
}
