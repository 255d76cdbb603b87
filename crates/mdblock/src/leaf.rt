//! Blocks that hold no other blocks: what begins each, which lines it takes, what it keeps, and what it is at its end.

ghost use Rattle.std.specs.Prelude.{◌≡◌, ◌≤◌, ℕ, List, [], ◌++◌, IfOk, IfSome, OnOk, None, Some, length, not};
ghost use Rattle.mdtext.specs.EntityTable.{EntityTable};
ghost use Rattle.blockspec.specs.BlockLine.{BlockLine, rest};
ghost use Rattle.blockspec.specs.BlockKinds.{Kind};
ghost use Rattle.mdblock.specs.BlockView.{block_view};
ghost use Rattle.mdblock.specs.held.Continuations.{IsContinuationOf, ContinuesLeaf, IsOfLeaf, IsPlain, goes_on};
ghost use Rattle.mdblock.specs.held.Growing.{Grows};
ghost use Rattle.mdblock.specs.held.HandedIn.{gathered_texts, gathered_definitions};
ghost use Rattle.blockspec.specs.Laziness.{Tip};
ghost use Rattle.mdblock.specs.held.LeafEnds.{IsEndOf, IsTableEnd, is_paragraph, end_definitions};
ghost use Rattle.mdblock.specs.held.LevelSteps.{OpensLeaf, is_content};
ghost use Rattle.mdblock.specs.held.OpenLeaves.{IsBegun, begun_texts, IsLeafOf};
ghost use Rattle.mdblock.specs.held.StartKind.{opened_kind};
ghost use Rattle.mdblock.specs.Positions.{BlockIn};
ghost use Rattle.blockspec.specs.Stretches.{step};
ghost use Rattle.blockspec.specs.UnitBegin.{is_stop};
ghost use Rattle.mdblock.specs.held.OpenPositions.{LeafIn, LeafAfterIn};
ghost use Rattle.mdblock.specs.held.StartSpans.{IsStartOf};

pub(crate) mod atx_headings;
pub(crate) mod fenced_code;
pub(crate) mod html_blocks;
pub(crate) mod indented_code;
pub(crate) mod link_definitions;
pub(crate) mod paragraphs;
pub(crate) mod setext_headings;
pub(crate) mod tables;
pub(crate) mod task_list_items;
pub(crate) mod thematic_breaks;

use crate::block_starts::{BlockStart, beginning};
use crate::blocks::Block;
use crate::gathering::Gathering;
use crate::lines::Line;
use crate::open_blocks::Continuation;
use fenced_code::Fence;
use html_blocks::HtmlBlock;
use indented_code::IndentedCode;
use paragraphs::Paragraph;
use std::alloc::AllocError;
use tables::Table;

/// An open leaf.
#[derive(Drop)]
pub(crate) enum Leaf {
    Paragraph(Paragraph),
    Fence(Fence),
    Html(HtmlBlock),
    Code(IndentedCode),
    Table(Table),
}

/// What a line leaves of a leaf: a block that is over, and a leaf that is open behind it.
#[derive(Drop)]
pub(crate) struct LeafAfter {
    pub(crate) over: Option<Block>,
    pub(crate) going: Option<Leaf>,
}

impl Leaf {
    /// The leaf that a line begins, where that is neither a paragraph nor a heading.
    pub(crate) fn begin(
        start: BlockStart,
        line: &mut Line,
        gathering: &Gathering,
    ) -> Result<LeafAfter, AllocError>
        requires leaf { OpensLeaf start }
        requires start { IsStartOf (rest line.old) start }
        ensures within { (n : ℕ) → IfOk result (λ step. LeafAfterIn n step) }
        ensures step { (texts : ℕ) → IfOk result (λ step. IsBegun gathering.now.entities.now texts (opened_kind line.old (Some start)) line.old step) }
        ensures no_texts { begun_texts (opened_kind line.old (Some start)) ≡ [] }
    {
        match start {
            BlockStart::Fence(fence) => fenced_code::begin(fence, line, gathering),
            BlockStart::Html(kind) => html_blocks::begin(kind, line, gathering),
            BlockStart::Break => Ok(thematic_breaks::begin()),
            BlockStart::Code => indented_code::begin(line, gathering),
            BlockStart::Quote | BlockStart::Item(_) | BlockStart::Heading(_) => unreachable!(),
        }
    }

    /// Whether it is a paragraph.
    pub(crate) fn is_text(&self) -> bool
        ensures { result ≡ is_paragraph self.now }
    {
        match self {
            Leaf::Paragraph(_) => true,
            Leaf::Fence(_) | Leaf::Html(_) | Leaf::Code(_) | Leaf::Table(_) => false,
        }
    }

    /// Whether it is fenced code or an HTML block, whose lines are content whatever they hold.
    pub(crate) fn is_verbatim(&self) -> bool
        ensures { result ≡ is_content self.now }
    {
        match self {
            Leaf::Fence(_) | Leaf::Html(_) => true,
            Leaf::Paragraph(_) | Leaf::Code(_) | Leaf::Table(_) => false,
        }
    }

    /// How a line, all of whose containers match it, continues the leaf.
    pub(crate) fn continuation(&self, line: &Line) -> Continuation
        ensures continuation { IsContinuationOf line.now result }
        ensures step { ContinuesLeaf self.now line.now result }
        ensures leaf { IsOfLeaf result }
        ensures takes { (entities : EntityTable) (kind : Kind) (first : BlockLine) (later : List BlockLine) → IsLeafOf entities self.now kind first later
            → (tip : List BlockLine → Tip) → goes_on result ≡ not (is_stop (step tip kind first later line.now)) }
    {
        match self {
            Leaf::Paragraph(paragraph) => paragraph.continuation(line),
            Leaf::Fence(fence) => matched_if(fence.takes(line), line),
            Leaf::Html(html) => matched_if(html.takes(line), line),
            Leaf::Code(code) => matched_if(code.takes(line), line),
            Leaf::Table(table) => matched_if(table.takes(line), line),
        }
    }

    /// What the leaf is at its end. `first`: whether it may be the first block of a list item. It is inlined, since a level that closes takes less of the stack
    /// so.
    #[inline(always)]
    pub(crate) fn end(
        self,
        first: bool,
        gathering: &mut Gathering,
    ) -> Result<Option<Block>, AllocError>
        requires { LeafIn (length gathering.old.texts.items) self }
        ensures within { IfOk result (λ found. IfSome found (λ block. BlockIn (length gathering.new.texts.items) (block_view block))) }
        ensures grows { Grows gathering.old gathering.new }
        ensures left { (kind : Kind) (begin : BlockLine) (later : List BlockLine) → IsLeafOf gathering.old.entities.now self kind begin later
            → IfOk result (IsEndOf gathering.old.entities.now first kind begin later (gathered_texts gathering.old) (gathered_texts gathering.new)) }
        ensures rows { IfOk result (IsTableEnd self (gathered_texts gathering.old) (gathered_texts gathering.new)
            (gathered_definitions gathering.old) (gathered_definitions gathering.new)) }
        ensures found { (kind : Kind) (begin : BlockLine) (later : List BlockLine) → IsLeafOf gathering.old.entities.now self kind begin later
            → OnOk result (gathered_definitions gathering.new
            ≡ gathered_definitions gathering.old ++ end_definitions gathering.old.entities.now kind begin later) }
    {
        match self {
            Leaf::Paragraph(paragraph) => paragraph.end(first, gathering),
            Leaf::Fence(fence) => Ok(Some(fence.end())),
            Leaf::Html(html) => Ok(Some(html.end())),
            Leaf::Code(code) => Ok(Some(code.end(gathering.alloc()))),
            Leaf::Table(table) => Ok(Some(table.end())),
        }
    }
}

/// How a line continues a leaf that takes it or does not.
fn matched_if(takes: bool, line: &Line) -> Continuation
    ensures continuation { IsContinuationOf line.now result }
    ensures plain { IsPlain result }
    ensures takes { goes_on result ≡ takes }
    ensures leaf { IsOfLeaf result }
{
    if takes {
        return Continuation::Matched;
    }
    Continuation::Outside(beginning(line))
}

/// A block that is over with its line.
pub(crate) fn over(block: Block) -> LeafAfter
    ensures value { result ≡ record { over = Some block; going = None } }
    ensures within { (n : ℕ) → BlockIn n (block_view block) → LeafAfterIn n result }
{
    LeafAfter {
        over: Some(block),
        going: None,
    }
}

/// A leaf that stays open.
pub(crate) fn going(leaf: Leaf) -> LeafAfter
    ensures value { result ≡ record { over = None; going = Some leaf } }
    ensures within { (n : ℕ) → LeafIn n leaf → LeafAfterIn n result }
{
    LeafAfter {
        over: None,
        going: Some(leaf),
    }
}
