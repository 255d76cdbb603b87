//! The reading of texts (CommonMark 6; GFM Strikethrough (extension)).

ghost use Rattle.std.specs.Prelude.{◌≡◌, ◌++◌, ◌<◌, ◌≤◌, [], ℕ, List, All, IfOk, IsErrOf, OnOk, length, reverse};
ghost use Rattle.std.specs.Str.{IsCharBoundary};
ghost use Rattle.mdscan.specs.Spans.{IsEndAfter};
ghost use Rattle.inlinespec.specs.InlineEvents.{Event};
ghost use Rattle.inlinespec.specs.Nesting.{nest};
ghost use Rattle.inlinespec.specs.Pieces as piece;
ghost use Rattle.inlinespec.specs.Emphasis as emphasis;
ghost use Rattle.inlinespec.specs.TextReading.{asks_of, reading};
ghost use Rattle.inlinespec.specs.TextTree.{events_of, inl};
ghost use Rattle.mdinline.specs.declared.faults.InlineFault.TheVariants.{TooDeep};
ghost use Rattle.mdinline.specs.held.Brackets.{AreBracketsOf};
ghost use Rattle.mdinline.specs.held.LeafEvents.{IsTokenOf};
ghost use Rattle.mdinline.specs.held.ReadPending.{HoldsPieces};
ghost use Rattle.mdinline.specs.held.ReadSteps.{LeadsTo};
ghost use Rattle.mdinline.specs.held.ReadTo.{IsReadTo};

mod brackets;
mod handed_tokens;

use crate::asked::AsksLabels;
use crate::bracket_stack::bracket_at;
use crate::delimiters::delimiters_at;
use crate::faults::InlineFault;
use crate::handing::Scratch;
use crate::labels::Labels;
use crate::limits::LimitedSink;
use crate::line_breaks::soft_break_end;
use crate::pending::Pending;
use crate::scanner::Scanner;
use crate::sinks::InlineSink;
use crate::texts::{begins_mark, begins_text, plain_end};
use crate::trees::TreeRoom;
use mdscan::Span;
use mdtext::{Entities, Label};
use std::alloc::{AllocError, Global};

/// Reads inline texts, and keeps from one to the next what a text needs.
#[derive(Drop)]
pub struct TextReader<'a> {
    pub(crate) alloc: Global,
    entities: &'a Entities,
    scanner: Scanner,
    /// What was read and not handed out yet.
    pending: Pending<'a>,
    label: Label,
    scratch: Scratch,
    /// Room for a tree.
    pub(crate) room: TreeRoom,
}

impl<'a> TextReader<'a> {
    /// A reader of texts. Takes no memory.
    pub fn new(alloc: Global, entities: &'a Entities) -> TextReader<'a>
        ensures { result.entities.now ≡ entities.now }
    {
        TextReader {
            alloc,
            entities,
            scanner: Scanner::new(),
            pending: Pending::new(alloc),
            label: Label::new(alloc),
            scratch: Scratch::new(alloc),
            room: TreeRoom::new(alloc),
        }
    }

    /// Hands the inlines of a text to a sink (CommonMark 6), answers the sink, and tells the labels that are looked up: the events and the labels of the
    /// definition's reading. `TooDeep` where more than `limit` spans lie in one another, `NoMemory` where a growth is refused,
    /// by the sink or by what is asked too. After a fault the sink is gone, and what was told is of no use; the reader reads the next text as a new one does.
    pub fn read_into<L: Labels, A: AsksLabels, S: InlineSink + Drop>(
        &mut self,
        text: &str,
        labels: &'a L,
        asked: &mut A,
        sink: S,
        limit: usize,
    ) -> Result<S, InlineFault>
        ensures takes { IfOk result (λ taken. S.takes sink (events_of (reading self.old.entities.now (L.target labels.now) text.now)) taken) }
        ensures asks { OnOk result (A.asks asked.old (asks_of (reading self.old.entities.now (L.target labels.now) text.now)) asked.new) }
        ensures within { OnOk result (nest (inl self.old.entities.now (L.target labels.now) text.now) ≤ limit) }
        ensures too_deep { IsErrOf result TooDeep → limit < nest (inl self.old.entities.now (L.target labels.now) text.now) }
        ensures entities { self.new.entities ≡ self.old.entities }
    {
        let mut sink = LimitedSink::new(sink, limit);
        self.read_all(text, labels, asked, &mut sink)?;
        if sink.is_too_deep() {
            return Err(InlineFault::TooDeep);
        }
        Ok(sink.into_sink())
    }

    /// Hands all inlines of a text to the sink, and tells the labels that are looked up. After a fault what the sink has is of no use.
    fn read_all<L: Labels, A: AsksLabels, S: InlineSink>(
        &mut self,
        text: &str,
        labels: &'a L,
        asked: &mut A,
        sink: &mut S,
    ) -> Result<(), AllocError>
        ensures takes { OnOk result (S.takes sink.old (events_of (reading self.old.entities.now (L.target labels.now) text.now)) sink.new) }
        ensures asks { OnOk result (A.asks asked.old (asks_of (reading self.old.entities.now (L.target labels.now) text.now)) asked.new) }
        ensures entities { self.new.entities ≡ self.old.entities }
    {
        self.begin();
        let mut at = 0;
        while at < text.len() {
            at = self.step(text, at, labels, asked, sink)?;
        }
        self.end(text, sink)?;
        Ok(())
    }

    /// Hands out what is still pending at the end of a text: nothing in most texts.
    fn end<S: InlineSink>(&mut self, text: &str, sink: &mut S) -> Result<(), AllocError>
        requires { All (IsTokenOf text.now) self.old.pending.tokens.items }
        ensures takes { OnOk result ((es : List Event) × S.takes sink.old es sink.new × ((handed : List Event) (ps : List piece.Piece)
            → HoldsPieces self.old.entities.now text.now handed self.old.pending ps → emphasis.settled (reverse ps) ≡ handed ++ es)) }
        ensures entities { self.new.entities ≡ self.old.entities }
    {
        if self.pending.is_empty() {
            return Ok(());
        }
        self.pending.settle(0)?;
        self.flush(text, sink)?;
        Ok(())
    }

    /// Forgets what was read before.
    fn begin(&mut self)
        ensures tokens { self.new.pending.tokens.items ≡ [] }
        ensures unused { self.new.pending.openings.unused.items ≡ [] }
        ensures entities { self.new.entities ≡ self.old.entities }
        ensures reads { (text : List ℕ) → IsReadTo self.old.entities.now text 0 [] self.new [] }
    {
        self.scanner = Scanner::new();
        self.pending.clear();
    }

    /// Reads what stands at a place, and answers where that ends.
    fn step<L: Labels, A: AsksLabels, S: InlineSink>(
        &mut self,
        text: &str,
        at: usize,
        labels: &'a L,
        asked: &mut A,
        sink: &mut S,
    ) -> Result<usize, AllocError>
        requires whole { IsCharBoundary text.now at }
        requires inside { at < length text.now }
        requires brackets { AreBracketsOf text.now at self.old.pending.openings.unused.items }
        requires tokens { All (IsTokenOf text.now) self.old.pending.tokens.items }
        ensures end { IfOk result (λ end. IsEndAfter text.now at end) }
        ensures brackets { IfOk result (λ end. AreBracketsOf text.now end self.new.pending.openings.unused.items) }
        ensures tokens { OnOk result (All (IsTokenOf text.now) self.new.pending.tokens.items) }
        ensures reads { IfOk result (λ end. (es : List Event) × S.takes sink.old es sink.new × ((handed : List Event) (ps : List piece.Piece)
            → IsReadTo self.old.entities.now text.now at handed self.old ps → ((looked : List (List ℕ)) × (next : List piece.Piece)
            × LeadsTo self.old.entities.now (L.target labels.now) text.now at ps looked end next × A.asks asked.old looked asked.new
            × IsReadTo self.old.entities.now text.now end (handed ++ es) self.new next))) }
        ensures entities { self.new.entities ≡ self.old.entities }
    {
        if begins_text(text, at) {
            let end = plain_end(text, at);
            self.put_text(text, Span { start: at, end }, sink)?;
            return Ok(end);
        }
        if begins_mark(text, at) {
            let end = at + 1;
            self.put_mark(text, Span { start: at, end }, sink)?;
            return Ok(end);
        }
        let bytes = text.as_bytes();
        if bytes[at] == b'\n' {
            let end = soft_break_end(text, at);
            self.put_break(sink)?;
            return Ok(end);
        }
        if let Some(run) = delimiters_at(text, at, self.entities) {
            self.run(text, at, run, sink)?;
            return Ok(at + run.length);
        }
        if let Some(bracket) = bracket_at(bytes, at) {
            let end = self.bracket(text, at, bracket, labels, asked, sink)?;
            return Ok(end);
        }
        let found = self.scanner.leaf(self.alloc, text, at, self.entities)?;
        self.put(text, found.token, sink)?;
        Ok(found.end)
    }
}
