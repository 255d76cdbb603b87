//! The brackets of a text: one opens, and a `]` makes a link or an image of the nearest one that opens, or is text (CommonMark 6.3, 6.4).

ghost use Rattle.std.specs.Prelude.{◌≡◌, ◌+◌, ◌-◌, ◌++◌, ◌<◌, true, List, All, IfOk, IfSome, OnOk, option_map, slice_index};
ghost use Rattle.std.specs.Str.{IsCharBoundary};
ghost use Rattle.mdtext.specs.EntityTable.{EntityTable};
ghost use Rattle.mdscan.specs.Spans.{IsEndAfter};
ghost use Rattle.inlinespec.specs.InlineEvents.{Event};
ghost use Rattle.inlinespec.specs.Pieces as piece;
ghost use Rattle.inlinespec.specs.Links.{Opened, nearest_opener};
ghost use Rattle.inlinespec.specs.TextReading.{after_deed, closing, item_by, spent};
ghost use Rattle.mdinline.specs.held.Brackets.{AreBracketsOf, IsLinkEnd};
ghost use Rattle.mdinline.specs.held.FoundLinks.{IsLinkOf};
ghost use Rattle.mdinline.specs.held.LeafEvents.{IsGoalOf, IsTokenOf};
ghost use Rattle.mdinline.specs.held.ReadPending.{HoldsPieces, HoldsTaken};
ghost use Rattle.mdinline.specs.held.Recognised.{kind_of};
ghost use Rattle.mdinline.specs.held.UnusedOpeners.{AreOpenersOf, IsTaken};

use crate::asked::AsksLabels;
use crate::bracket_stack::{Bracket, BracketKind, Opening};
use crate::labels::Labels;
use crate::links::{FoundLink, link_of};
use crate::readers::TextReader;
use crate::sinks::InlineSink;
use crate::tokens::Token;
use mdscan::Span;
use std::alloc::AllocError;

impl<'a> TextReader<'a> {
    /// Reads the bracket at a place.
    pub(super) fn bracket<L: Labels, A: AsksLabels, S: InlineSink>(
        &mut self,
        text: &str,
        at: usize,
        bracket: Bracket,
        labels: &'a L,
        asked: &mut A,
        sink: &mut S,
    ) -> Result<usize, AllocError>
        requires at { IsCharBoundary text.now at }
        requires bracket { IsEndAfter text.now at bracket.end }
        requires mark { slice_index text.now at < 128 }
        requires closing { bracket.kind ≡ BracketKind.Closing → slice_index text.now at ≡ 93 }
        requires brackets { AreBracketsOf text.now at self.old.pending.openings.unused.items }
        requires tokens { All (IsTokenOf text.now) self.old.pending.tokens.items }
        ensures end { IfOk result (λ end. IsEndAfter text.now at end) }
        ensures brackets { IfOk result (λ end. AreBracketsOf text.now end self.new.pending.openings.unused.items) }
        ensures tokens { OnOk result (All (IsTokenOf text.now) self.new.pending.tokens.items) }
        ensures takes { OnOk result ((es : List Event) × S.takes sink.old es sink.new × ((handed : List Event) (ps : List piece.Piece)
            → AreOpenersOf ps self.old.pending.openings → HoldsPieces self.old.entities.now text.now handed self.old.pending ps
            → HoldsPieces self.old.entities.now text.now (handed ++ es) self.new.pending (after_deed
            (item_by self.old.entities.now (L.target labels.now) text.now at ps (bracket.end - at) (kind_of bracket.kind)).deed ps))) }
        ensures size { (ps : List piece.Piece) → AreOpenersOf ps self.old.pending.openings
            → IfOk result (λ end. (entities : EntityTable)
            → end ≡ at + (item_by entities (L.target labels.now) text.now at ps (bracket.end - at) (kind_of bracket.kind)).size) }
        ensures asks { (ps : List piece.Piece) → AreOpenersOf ps self.old.pending.openings
            → OnOk result ((entities : EntityTable)
            → A.asks asked.old (item_by entities (L.target labels.now) text.now at ps (bracket.end - at) (kind_of bracket.kind)).asks asked.new) }
        ensures openers { (ps : List piece.Piece) → AreOpenersOf ps self.old.pending.openings
            → OnOk result ((entities : EntityTable) → AreOpenersOf (after_deed
            (item_by entities (L.target labels.now) text.now at ps (bracket.end - at) (kind_of bracket.kind)).deed ps) self.new.pending.openings) }
        ensures scanner { self.new.scanner ≡ self.old.scanner }
        ensures entities { self.new.entities ≡ self.old.entities }
    {
        match bracket.kind {
            BracketKind::Link => self.pending.open(false, bracket.end)?,
            BracketKind::Image => self.pending.open(true, bracket.end)?,
            BracketKind::Closing => {
                let end = self.close(text, at, labels, asked, sink)?;
                self.flush_if_idle(text, sink)?;
                return Ok(end);
            }
        }
        Ok(bracket.end)
    }

    /// The `]` at a place uses up the nearest unused bracket, and answers where the link or the image ends that it makes. If it makes none, it is text.
    #[tactic(auto, using(crate::proofs::BracketPlaces::brackets_later, crate::proofs::BracketPlaces::link_end))]
    fn close<L: Labels, A: AsksLabels, S: InlineSink>(
        &mut self,
        text: &str,
        at: usize,
        labels: &'a L,
        asked: &mut A,
        sink: &mut S,
    ) -> Result<usize, AllocError>
        requires at { IsCharBoundary text.now at }
        requires after { IsEndAfter text.now at (at + 1) }
        requires mark { slice_index text.now at ≡ 93 }
        requires brackets { AreBracketsOf text.now at self.old.pending.openings.unused.items }
        requires tokens { All (IsTokenOf text.now) self.old.pending.tokens.items }
        ensures end { IfOk result (λ end. IsEndAfter text.now at end) }
        ensures brackets { IfOk result (λ end. AreBracketsOf text.now end self.new.pending.openings.unused.items) }
        ensures tokens { OnOk result (All (IsTokenOf text.now) self.new.pending.tokens.items) }
        ensures takes { OnOk result ((es : List Event) × S.takes sink.old es sink.new × ((handed : List Event) (ps : List piece.Piece)
            → AreOpenersOf ps self.old.pending.openings → HoldsPieces self.old.entities.now text.now handed self.old.pending ps
            → HoldsPieces self.old.entities.now text.now (handed ++ es) self.new.pending (after_deed
            (closing self.old.entities.now (L.target labels.now) text.now at (nearest_opener ps)).deed ps))) }
        ensures size { (ps : List piece.Piece) → AreOpenersOf ps self.old.pending.openings
            → IfOk result (λ end. (entities : EntityTable)
            → end ≡ at + (closing entities (L.target labels.now) text.now at (nearest_opener ps)).size) }
        ensures asks { (ps : List piece.Piece) → AreOpenersOf ps self.old.pending.openings
            → OnOk result ((entities : EntityTable)
            → A.asks asked.old (closing entities (L.target labels.now) text.now at (nearest_opener ps)).asks asked.new) }
        ensures openers { (ps : List piece.Piece) → AreOpenersOf ps self.old.pending.openings → OnOk result ((entities : EntityTable)
            → AreOpenersOf (after_deed (closing entities (L.target labels.now) text.now at (nearest_opener ps)).deed ps) self.new.pending.openings) }
        ensures scanner { self.new.scanner ≡ self.old.scanner }
        ensures entities { self.new.entities ≡ self.old.entities }
    {
        match self.find_link(text, at, labels, asked)? {
            Some((opening, found)) => {
                self.pending.link(opening, found.goal)?;
                Ok(found.end)
            }
            None => {
                let span = Span {
                    start: at,
                    end: at + 1,
                };
                self.put(text, Token::Plain(span), sink)?;
                Ok(at + 1)
            }
        }
    }

    /// Uses up the nearest unused bracket for the `]` at a place, and answers it with what makes a link or an image of it, if anything does.
    fn find_link<L: Labels, A: AsksLabels>(
        &mut self,
        text: &str,
        at: usize,
        labels: &'a L,
        asked: &mut A,
    ) -> Result<Option<(Opening, FoundLink<'a>)>, AllocError>
        requires at { IsCharBoundary text.now at }
        requires after { IsCharBoundary text.now (at + 1) }
        requires brackets { AreBracketsOf text.now at self.old.pending.openings.unused.items }
        ensures end { IfOk result (λ found. IfSome found (λ found. IsLinkEnd text.now (at + 1) found.1.end)) }
        ensures goal { IfOk result (λ found. IfSome found (λ found. IsGoalOf text.now found.1.goal)) }
        ensures brackets { OnOk result (AreBracketsOf text.now at self.new.pending.openings.unused.items) }
        ensures value { (ps : List piece.Piece) → AreOpenersOf ps self.old.pending.openings → IfOk result (λ found. (entities : EntityTable)
            → IsLinkOf entities text.now at (closing entities (L.target labels.now) text.now at (nearest_opener ps)) (option_map (λ found. found.1) found)) }
        ensures asks { (ps : List piece.Piece) → AreOpenersOf ps self.old.pending.openings
            → OnOk result ((entities : EntityTable)
            → A.asks asked.old (closing entities (L.target labels.now) text.now at (nearest_opener ps)).asks asked.new) }
        ensures taken { (ps : List piece.Piece) → AreOpenersOf ps self.old.pending.openings
            → IfOk result (λ found. IfSome found (λ found. (o : Opened) × IsTaken ps (found.0, true) o)) }
        ensures openers { (ps : List piece.Piece) → AreOpenersOf ps self.old.pending.openings
            → OnOk result (AreOpenersOf (spent ps) self.new.pending.openings) }
        ensures tokens { self.new.pending.tokens ≡ self.old.pending.tokens }
        ensures pieces { (handed : List Event) (ps : List piece.Piece) → HoldsPieces self.old.entities.now text.now handed self.old.pending ps
            → HoldsPieces self.old.entities.now text.now handed self.new.pending (spent ps) }
        ensures opened { (handed : List Event) (ps : List piece.Piece) → HoldsPieces self.old.entities.now text.now handed self.old.pending ps
            → IfOk result (λ found. IfSome found (λ found. HoldsTaken self.old.entities.now text.now handed found.0 self.new.pending ps)) }
        ensures scanner { self.new.scanner ≡ self.old.scanner }
        ensures entities { self.new.entities ≡ self.old.entities }
    {
        let Some((opening, is_live)) = self.pending.take() else {
            return Ok(None);
        };
        if !is_live {
            return Ok(None);
        }
        match link_of(
            self.alloc,
            text,
            opening.begin,
            at,
            labels,
            asked,
            &mut self.label,
        )? {
            Some(found) => Ok(Some((opening, found))),
            None => Ok(None),
        }
    }
}
