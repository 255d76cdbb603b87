//! What a reader hands to its sink: a leaf or a run at once where nothing is pending before it, and all tokens where they are settled.

ghost use Rattle.std.specs.Prelude.{◌≡◌, ◌+◌, ◌∷◌, ◌++◌, [], ℕ, List, All, OnOk, true};
ghost use Rattle.std.specs.Str.{IsCharBoundary};
ghost use Rattle.mdscan.specs.Spans.{IsEndAfter, part};
ghost use Rattle.mdpair.specs.Neighbours.{run_at};
ghost use Rattle.inlinespec.specs.InlineEvents.{Event, SoftBreak, written};
ghost use Rattle.inlinespec.specs.Pieces as piece;
ghost use Rattle.mdinline.specs.declared.tokens.Token.TheVariants as kept;
ghost use Rattle.mdinline.specs.held.LeafEvents.{IsTokenOf, leaf_events, tokens_events};
ghost use Rattle.mdinline.specs.held.PutLeaves.{PutsLeaf, Stays};
ghost use Rattle.mdinline.specs.held.ReadPending.{HoldsPieces, is_leaf};

use crate::handing::{Source, hand_leaf, hand_out, part};
use crate::readers::TextReader;
use crate::sinks::InlineSink;
use crate::tokens::Token;
use mdpair::DelimiterRun;
use mdscan::Span;
use std::alloc::AllocError;

impl<'a> TextReader<'a> {
    /// Hands text in which HTML escapes nothing to the sink, where nothing is pending before it.
    pub(super) fn put_text<S: InlineSink>(
        &mut self,
        text: &str,
        span: Span,
        sink: &mut S,
    ) -> Result<(), AllocError>
        requires token { IsTokenOf text.now (kept.Plain span) }
        requires tokens { All (IsTokenOf text.now) self.old.pending.tokens.items }
        ensures tokens { OnOk result (All (IsTokenOf text.now) self.new.pending.tokens.items) }
        ensures takes { OnOk result ((es : List Event) × S.takes sink.old es sink.new
            × PutsLeaf self.old.entities.now text.now (written (part text.now span)) es self.old.pending self.new.pending) }
        ensures stays { Stays self.old self.new }
    {
        if !self.pending.is_empty() {
            self.pending.leaf(Token::Plain(span))?;
            return Ok(());
        }
        sink.plain(part(text, span))?;
        Ok(())
    }

    /// Hands text that HTML may escape to the sink, where nothing is pending before it.
    pub(super) fn put_mark<S: InlineSink>(
        &mut self,
        text: &str,
        span: Span,
        sink: &mut S,
    ) -> Result<(), AllocError>
        requires token { IsTokenOf text.now (kept.Text span) }
        requires tokens { All (IsTokenOf text.now) self.old.pending.tokens.items }
        ensures tokens { OnOk result (All (IsTokenOf text.now) self.new.pending.tokens.items) }
        ensures takes { OnOk result ((es : List Event) × S.takes sink.old es sink.new
            × PutsLeaf self.old.entities.now text.now (written (part text.now span)) es self.old.pending self.new.pending) }
        ensures stays { Stays self.old self.new }
    {
        if !self.pending.is_empty() {
            self.pending.leaf(Token::Text(span))?;
            return Ok(());
        }
        sink.text(part(text, span))?;
        Ok(())
    }

    /// Hands a soft line break to the sink, where nothing is pending before it.
    pub(super) fn put_break<S: InlineSink>(&mut self, sink: &mut S) -> Result<(), AllocError>
        ensures tokens { OnOk result ((text : List ℕ) → All (IsTokenOf text) self.old.pending.tokens.items
            → All (IsTokenOf text) self.new.pending.tokens.items) }
        ensures takes { OnOk result ((es : List Event) × S.takes sink.old es sink.new × ((text : List ℕ)
            → PutsLeaf self.old.entities.now text (SoftBreak ∷ []) es self.old.pending self.new.pending)) }
        ensures stays { Stays self.old self.new }
    {
        if !self.pending.is_empty() {
            self.pending.leaf(Token::SoftBreak)?;
            return Ok(());
        }
        sink.soft_break()?;
        Ok(())
    }

    /// Hands a leaf to the sink, where nothing is pending before it.
    pub(super) fn put<S: InlineSink>(
        &mut self,
        text: &str,
        token: Token<'a>,
        sink: &mut S,
    ) -> Result<(), AllocError>
        requires token { IsTokenOf text.now token }
        requires tokens { All (IsTokenOf text.now) self.old.pending.tokens.items }
        ensures handed { self.old.pending.tokens.items ≡ []
            → OnOk result (S.takes sink.old (leaf_events self.old.entities.now text.now token.entry) sink.new) }
        ensures idle { self.old.pending.tokens.items ≡ [] → self.new.pending ≡ self.old.pending }
        ensures tokens { OnOk result (All (IsTokenOf text.now) self.new.pending.tokens.items) }
        ensures takes { OnOk result ((es : List Event) × S.takes sink.old es sink.new × (is_leaf token.entry ≡ true
            → PutsLeaf self.old.entities.now text.now (leaf_events self.old.entities.now text.now token.entry) es self.old.pending self.new.pending)) }
        ensures stays { Stays self.old self.new }
    {
        if !self.pending.is_empty() {
            self.pending.leaf(token)?;
            return Ok(());
        }
        let source = Source {
            text,
            entities: self.entities,
            begun: &[],
        };
        hand_leaf(&source, token, &mut self.scratch, sink)?;
        Ok(())
    }

    /// A run that opens nothing is text where nothing is pending before it.
    pub(super) fn run<S: InlineSink>(
        &mut self,
        text: &str,
        at: usize,
        run: DelimiterRun,
        sink: &mut S,
    ) -> Result<(), AllocError>
        requires run { Some run ≡ run_at text.now at }
        requires end { IsEndAfter text.now at (at + run.length) }
        requires whole { IsCharBoundary text.now at }
        requires tokens { All (IsTokenOf text.now) self.old.pending.tokens.items }
        ensures tokens { OnOk result (All (IsTokenOf text.now) self.new.pending.tokens.items) }
        ensures takes { OnOk result ((es : List Event) × S.takes sink.old es sink.new × ((handed : List Event) (ps : List piece.Piece)
            → HoldsPieces self.old.entities.now text.now handed self.old.pending ps
            → HoldsPieces self.old.entities.now text.now (handed ++ es) self.new.pending (piece.Run run ∷ ps))) }
        ensures stays { Stays self.old self.new }
    {
        if !run.can_open && self.pending.is_empty() {
            let span = Span {
                start: at,
                end: at + run.length,
            };
            self.put(text, Token::Plain(span), sink)?;
            return Ok(());
        }
        self.pending.run(run)?;
        Ok(())
    }

    /// Hands out what was read, where nothing is pending any more.
    pub(super) fn flush_if_idle<S: InlineSink>(
        &mut self,
        text: &str,
        sink: &mut S,
    ) -> Result<(), AllocError>
        requires { All (IsTokenOf text.now) self.old.pending.tokens.items }
        ensures tokens { OnOk result (All (IsTokenOf text.now) self.new.pending.tokens.items) }
        ensures takes { OnOk result ((es : List Event) × S.takes sink.old es sink.new × ((handed : List Event) (ps : List piece.Piece)
            → HoldsPieces self.old.entities.now text.now handed self.old.pending ps
            → HoldsPieces self.old.entities.now text.now (handed ++ es) self.new.pending ps)) }
        ensures openings { OnOk result (self.new.pending.openings ≡ self.old.pending.openings) }
        ensures scanner { self.new.scanner ≡ self.old.scanner }
        ensures entities { self.new.entities ≡ self.old.entities }
    {
        if self.pending.is_idle() {
            self.flush(text, sink)?;
            return Ok(());
        }
        Ok(())
    }

    /// Hands out all tokens.
    pub(super) fn flush<S: InlineSink>(
        &mut self,
        text: &str,
        sink: &mut S,
    ) -> Result<(), AllocError>
        requires { All (IsTokenOf text.now) self.old.pending.tokens.items }
        ensures handed { OnOk result (S.takes sink.old (tokens_events self.old.entities.now text.now self.old.pending.begun.items
            self.old.pending.tokens.items) sink.new) }
        ensures tokens { OnOk result (self.new.pending.tokens.items ≡ []) }
        ensures openings { OnOk result (self.new.pending.openings ≡ self.old.pending.openings) }
        ensures runs { OnOk result (self.new.pending.runs ≡ self.old.pending.runs) }
        ensures places { OnOk result (self.new.pending.places ≡ self.old.pending.places) }
        ensures scanner { self.new.scanner ≡ self.old.scanner }
        ensures entities { self.new.entities ≡ self.old.entities }
    {
        let source = Source {
            text,
            entities: self.entities,
            begun: self.pending.begun(),
        };
        hand_out(&source, self.pending.tokens(), &mut self.scratch, sink)?;
        self.pending.handed_out();
        Ok(())
    }
}
