//! Fenced code (CommonMark 4.5).

ghost use Rattle.std.specs.Prelude.{◌≡◌, ℕ, ◌≤◌, not, true, List, [], ◌∷◌, ◌++◌, IfOk, OnOk, length, string_bytes};
ghost use Rattle.std.specs.List.{prefix_len};
ghost use Rattle.mdtext.specs.EntityTable.{EntityTable};
ghost use Rattle.mdleaf.specs.CodeLanguage.{behind_word, code_language, code_meta, ends_language};
ghost use Rattle.mdscan.specs.Spans.{part};
ghost use Rattle.mdscan.specs.Spans.{IsSpanOf};
ghost use Rattle.blockspec.specs.BlockLine.{BlockLine, rest, indentation};
ghost use Rattle.blockspec.specs.BlockTree.{code_block};
ghost use Rattle.mdblock.specs.BlockView.{block_view};
ghost use Rattle.mdblock.specs.held.OpenLeaves.{IsFenceOf, IsFenceLeaf, IsGoing};
ghost use Rattle.mdblock.specs.held.OpenPositions.{LeafAfterIn};
ghost use Rattle.mdblock.specs.Positions.{BlockIn};
ghost use Rattle.blockspec.specs.Stretches.{closes};

use crate::blocks::Block;
use crate::gathering::Gathering;
use crate::leaf::{Leaf, LeafAfter, going};
use crate::lines::{Line, make_room};
use mdscan::{FenceLine, fence_end};
use mdtext::unescape;
use std::alloc::AllocError;

/// Open fenced code: its fence, what its lines lose of their indentation, and what it has so far.
#[derive(Drop)]
pub(crate) struct Fence {
    mark: u8,
    length: usize,
    indent: usize,
    /// Apart, since each open level has room for a leaf.
    info: Box<Info>,
    body: String,
}

/// An info string, after escapes and references: its first word, and what stands behind that.
#[derive(Drop)]
struct Info {
    lang: String,
    meta: String,
}

/// The code that a line opens.
pub(crate) fn begin(
    fence: FenceLine,
    line: &Line,
    gathering: &Gathering,
) -> Result<LeafAfter, AllocError>
    requires { IsSpanOf (rest line.now) fence.info }
    ensures within { (n : ℕ) → IfOk result (λ step. LeafAfterIn n step) }
    ensures step { IfOk result (λ step. IsGoing (IsFenceLeaf gathering.now.entities.now
        (indentation line.now) fence.mark fence.length (part (rest line.now) fence.info) []) step) }
{
    let text = line.text();
    let info = read_info(&text[fence.info.start..fence.info.end], gathering)?;
    Ok(going(Leaf::Fence(Fence {
        mark: fence.mark,
        length: fence.length,
        indent: line.indent(),
        info: Box::new(gathering.alloc(), info)?,
        body: String::new(gathering.alloc()),
    })))
}

impl Fence {
    /// Whether a line goes on with the code: any line does, and a closing fence is the last.
    pub(crate) fn takes(&self, _line: &Line) -> bool
        ensures { result ≡ true }
    {
        true
    }

    /// Whether a line is the closing fence.
    pub(crate) fn closes(&self, line: &Line) -> bool
        ensures { result ≡ closes self.now.mark self.now.length line.now }
    {
        line.is_near_margin() && fence_end(line.text(), self.mark, self.length)
    }

    /// Appends a line of the code. It is inlined, since each line goes this way.
    #[inline(always)]
    pub(crate) fn push_line(&mut self, line: &mut Line) -> Result<(), AllocError>
        ensures step { OnOk result ((entities : EntityTable) (info : List ℕ) (later : List BlockLine)
            → IsFenceOf entities self.old.indent self.old.mark self.old.length info later self.old
            → IsFenceOf entities self.old.indent self.old.mark self.old.length info (later ++ line.old ∷ []) self.new) }
    {
        line.take_columns(self.indent);
        make_room(&mut self.body, line.whole().len())?;
        line.push_to(&mut self.body)?;
        self.body.push_str("\n")
    }

    /// What the code is at its end.
    pub(crate) fn end(self) -> Block
        ensures within { (n : ℕ) → BlockIn n (block_view result) }
        ensures value { block_view result ≡ code_block (string_bytes self.info.value.lang) (string_bytes self.info.value.meta) (string_bytes self.body) }
    {
        let info = Box::into_inner(self.info);
        Block::Code {
            lang: info.lang,
            meta: info.meta,
            body: self.body,
        }
    }
}

/// Replaces escapes and references, and parts the first word from what stands behind it.
fn read_info(info: &str, gathering: &Gathering) -> Result<Info, AllocError>
    ensures lang { IfOk result (λ read. string_bytes read.lang ≡ code_language gathering.now.entities.now info.now) }
    ensures meta { IfOk result (λ read. string_bytes read.meta ≡ code_meta gathering.now.entities.now info.now) }
{
    let mut lang = String::new(gathering.alloc());
    unescape(info, gathering.entities(), &mut lang)?;
    let end = word_length(lang.as_bytes());
    let meta = String::from_str(gathering.alloc(), behind_word(&lang, end))?;
    lang.truncate(end);
    Ok(Info { lang, meta })
}

/// What stands behind the first word, which is so long, and the character that ends it.
fn behind_word(text: &str, end: usize) -> &str
    requires { end ≡ prefix_len (λ b. not (ends_language b)) text.now }
    ensures { result.now ≡ behind_word text.now }
{
    if end == text.len() {
        return "";
    }
    &text[end + 1..]
}

/// How long the word is that a text begins with.
fn word_length(text: &[u8]) -> usize
    ensures { result ≡ prefix_len (λ b. not (ends_language b)) text.now }
{
    text.iter()
        .take_while(|byte| !ends_language(**byte))
        .count()
}

fn ends_language(byte: u8) -> bool
    ensures { result ≡ ends_language byte }
{
    byte == b' ' || (9 <= byte && byte <= 13)
}
