//! What was read of a text and not handed out yet (CommonMark 6; GFM Strikethrough (extension)).

ghost use Rattle.std.specs.Prelude.{◌≡◌, ◌+◌, ◌∷◌, ◌++◌, ◌==◌, ◌&&◌, ◌≤◌, ◌<◌, [], true, ℕ, List, All};
ghost use Rattle.std.specs.Prelude.{IfSome, MatchOption, OnOk, length, map, set, slice_index_or};
ghost use Rattle.std.specs.Str.{IsCharBoundary};
ghost use Rattle.mdtext.specs.EntityTable.{EntityTable};
ghost use Rattle.mdpair.specs.Pairings.{KeepsLittle};
ghost use Rattle.inlinespec.specs.InlineEvents.{Event};
ghost use Rattle.inlinespec.specs.LabelMap.{LinkTarget};
ghost use Rattle.inlinespec.specs.Pieces as piece;
ghost use Rattle.inlinespec.specs.Links.{Opened, linked, nearest_opener};
ghost use Rattle.inlinespec.specs.TextReading.{spent};
ghost use Rattle.mdinline.specs.declared.tokens.PairedRun.{PairedRun as Left};
ghost use Rattle.mdinline.specs.declared.tokens.Token.TheVariants as kept;
ghost use Rattle.mdinline.specs.held.Brackets.{AreBracketsOf};
ghost use Rattle.mdinline.specs.held.LeafEvents.{IsGoalOf, IsTokenOf, goal_target, leaf_events};
ghost use Rattle.mdinline.specs.held.KeptRoom.{HasSmallRoom};
ghost use Rattle.mdinline.specs.held.ReadMarks.{marked, marks_back, ones};
ghost use Rattle.mdinline.specs.held.ReadPending.{AreRunsAt, ChangesTokens, HasSpansOf, HoldsPieces, HoldsTaken, IsKept, IsPaired};
ghost use Rattle.mdinline.specs.held.ReadPending.{IsSettled, IsSpanned, KnowsPaired, is_leaf, paired_piece, shown_pieces};
ghost use Rattle.mdinline.specs.held.UnusedOpeners.{AreOpenersOf, IsTaken, openers};

use crate::bracket_stack::{BracketStack, Opening};
use crate::emphasis::{append_unpaired, take_all};
use crate::tokens::{Begun, Goal, PairedRun, Token};
use mdpair::{DelimiterRun, Pairing};
use std::alloc::{AllocError, Global};

/// What was read of a text and not handed out yet.
#[derive(Drop)]
pub(crate) struct Pending<'a> {
    /// There is none while no run and no bracket is pending.
    tokens: Vec<Token<'a>>,
    /// The delimiter runs that are not paired yet, and their places among the tokens.
    runs: Vec<DelimiterRun>,
    places: Vec<usize>,
    openings: BracketStack,
    pairing: Pairing,
    /// What matches leave of the runs that are being paired.
    paired: Vec<PairedRun>,
    /// The spans that begin at runs that are paired.
    begun: Vec<Begun>,
}

impl<'a> Pending<'a> {
    pub(crate) fn new(alloc: Global) -> Pending<'a> {
        Pending {
            tokens: Vec::new(alloc),
            runs: Vec::new(alloc),
            places: Vec::new(alloc),
            openings: BracketStack::new(alloc),
            pairing: Pairing::new(alloc),
            paired: Vec::new(alloc),
            begun: Vec::new(alloc),
        }
    }

    /// Forgets what was read before.
    pub(crate) fn clear(&mut self)
        ensures tokens { self.new.tokens.items ≡ [] }
        ensures unused { self.new.openings.unused.items ≡ [] }
        ensures none { AreOpenersOf [] self.new.openings }
        ensures pieces { (entities : EntityTable) (text : List ℕ) → HoldsPieces entities text [] self.new [] }
    {
        self.tokens.clear();
        self.runs.clear();
        self.places.clear();
        self.openings.clear();
        self.begun.clear();
    }

    pub(crate) fn is_empty(&self) -> bool
        ensures { result ≡ (length self.now.tokens.items == 0) }
    {
        self.tokens.is_empty()
    }

    /// Whether no run and no bracket is pending.
    pub(crate) fn is_idle(&self) -> bool
        ensures { result ≡ ((length self.now.runs.items == 0) && (length self.now.openings.unused.items == 0)) }
    {
        self.runs.is_empty() && self.openings.is_empty()
    }

    pub(crate) fn tokens(&self) -> &[Token<'a>]
        ensures { result.now ≡ self.now.tokens.items }
    {
        &self.tokens
    }

    /// The spans that begin at runs that are paired.
    pub(crate) fn begun(&self) -> &[Begun]
        ensures { result.now ≡ self.now.begun.items }
    {
        &self.begun
    }

    /// Forgets what was handed out.
    pub(crate) fn handed_out(&mut self)
        ensures tokens { self.new.tokens.items ≡ [] }
        ensures openings { self.new.openings ≡ self.old.openings }
        ensures runs { self.new.runs ≡ self.old.runs }
        ensures places { self.new.places ≡ self.old.places }
    {
        self.tokens.clear();
        self.begun.clear();
    }

    /// Keeps a leaf.
    pub(crate) fn leaf(&mut self, token: Token<'a>) -> Result<(), AllocError>
        ensures tokens { OnOk result (self.new.tokens.items ≡ self.old.tokens.items ++ token.entry ∷ []) }
        ensures openings { self.new.openings ≡ self.old.openings }
        ensures pieces { OnOk result ((entities : EntityTable) (text : List ℕ) (handed : List Event) (ps qs : List piece.Piece)
            → is_leaf token.entry ≡ true → openers qs ≡ [] → ones (leaf_events entities text token.entry) ≡ marks_back qs
            → HoldsPieces entities text handed self.old ps → HoldsPieces entities text handed self.new (qs ++ ps)) }
    {
        self.tokens.push(token)?;
        Ok(())
    }

    /// Keeps a run. It is inlined, so that the run is put among the tokens from where it was found, and is not handed over in memory.
    #[inline(always)]
    pub(crate) fn run(&mut self, run: DelimiterRun) -> Result<(), AllocError>
        ensures tokens { OnOk result (self.new.tokens.items ≡ self.old.tokens.items ++ kept.Run run ∷ []) }
        ensures openings { self.new.openings ≡ self.old.openings }
        ensures pieces { OnOk result ((entities : EntityTable) (text : List ℕ) (handed : List Event) (ps : List piece.Piece)
            → HoldsPieces entities text handed self.old ps → HoldsPieces entities text handed self.new (piece.Run run ∷ ps)) }
    {
        self.places.push(self.tokens.len())?;
        self.tokens.push(Token::Run(run))?;
        self.runs.push(run)?;
        Ok(())
    }

    /// Keeps an opening bracket, behind which the text begins at a place.
    pub(crate) fn open(&mut self, is_image: bool, begin: usize) -> Result<(), AllocError>
        ensures openers { OnOk result ((ps : List piece.Piece) → AreOpenersOf ps self.old.openings
            → AreOpenersOf (piece.Opening is_image begin ∷ ps) self.new.openings) }
        ensures brackets { OnOk result ((text : List ℕ) (at : ℕ) → IsCharBoundary text begin → at ≤ begin
            → AreBracketsOf text at self.old.openings.unused.items → AreBracketsOf text begin self.new.openings.unused.items) }
        ensures tokens { OnOk result (self.new.tokens.items ≡ self.old.tokens.items ++ kept.Bracket is_image ∷ []) }
        ensures pieces { OnOk result ((entities : EntityTable) (text : List ℕ) (handed : List Event) (ps : List piece.Piece)
            → HoldsPieces entities text handed self.old ps → HoldsPieces entities text handed self.new (piece.Opening is_image begin ∷ ps)) }
    {
        self.openings.push(Opening {
            token: self.tokens.len(),
            runs: self.runs.len(),
            begin,
            is_image,
        })?;
        self.tokens.push(Token::Bracket { is_image })?;
        Ok(())
    }

    /// Uses up the nearest unused bracket, and answers it with whether it is live.
    pub(crate) fn take(&mut self) -> Option<(Opening, bool)>
        ensures unused { MatchOption result (self.new.openings.unused.items ≡ self.old.openings.unused.items)
            (λ taken. self.old.openings.unused.items ≡ self.new.openings.unused.items ++ taken.0 ∷ []) }
        ensures taken { (ps : List piece.Piece) → AreOpenersOf ps self.old.openings
            → MatchOption result (nearest_opener ps ≡ None) (λ taken. (o : Opened) × IsTaken ps taken o) }
        ensures left { (ps : List piece.Piece) → AreOpenersOf ps self.old.openings → AreOpenersOf (spent ps) self.new.openings }
        ensures tokens { self.new.tokens ≡ self.old.tokens }
        ensures pieces { (entities : EntityTable) (text : List ℕ) (handed : List Event) (ps : List piece.Piece)
            → HoldsPieces entities text handed self.old ps → HoldsPieces entities text handed self.new (spent ps) }
        ensures opened { (entities : EntityTable) (text : List ℕ) (handed : List Event) (ps : List piece.Piece)
            → HoldsPieces entities text handed self.old ps → IfSome result (λ taken. HoldsTaken entities text handed taken.0 self.new ps) }
    {
        self.openings.take()
    }

    /// Makes a link or an image of what was kept from a bracket on.
    pub(crate) fn link(&mut self, opening: Opening, goal: Goal<'a>) -> Result<(), AllocError>
        ensures unused { OnOk result (self.new.openings.unused.items ≡ self.old.openings.unused.items) }
        ensures openers { OnOk result ((ps : List piece.Piece) (o : Opened) (t : LinkTarget) → IsTaken ps (opening, true) o
            → AreOpenersOf (spent ps) self.old.openings
            → AreOpenersOf (linked t ps (nearest_opener ps)) self.new.openings) }
        ensures tokens { OnOk result ((text : List ℕ) → IsGoalOf text goal.entry
            → All (IsTokenOf text) self.old.tokens.items → All (IsTokenOf text) self.new.tokens.items) }
        ensures pieces { OnOk result ((entities : EntityTable) (text : List ℕ) (handed : List Event) (ps : List piece.Piece)
            → IsKept entities text self.old → HoldsTaken entities text handed opening self.old ps
            → HoldsPieces entities text handed self.new (linked (goal_target entities text goal.entry) ps (nearest_opener ps))) }
        ensures room { HasSmallRoom self.old.pairing → HasSmallRoom self.new.pairing }
    {
        self.settle(opening.runs)?;
        let token = Token::Enter {
            is_image: opening.is_image,
            goal,
        };
        self.replace(opening.token, token);
        self.openings.made(opening);
        self.tokens.push(Token::Leave)?;
        Ok(())
    }

    /// Puts a token in place of another.
    fn replace(&mut self, place: usize, token: Token<'a>)
        ensures tokens { (text : List ℕ) → IsTokenOf text token.entry
            → All (IsTokenOf text) self.old.tokens.items → All (IsTokenOf text) self.new.tokens.items }
        ensures value { self.new.tokens.items ≡ set self.old.tokens.items place token.entry }
        ensures same { ChangesTokens self.old self.new }
    {
        if place < self.tokens.len() {
            self.tokens[place] = token;
        }
    }

    /// Pairs the runs that are pending from one on.
    pub(crate) fn settle(&mut self, from: usize) -> Result<(), AllocError>
        ensures openings { OnOk result (self.new.openings ≡ self.old.openings) }
        ensures tokens { OnOk result ((text : List ℕ) → All (IsTokenOf text) self.old.tokens.items → All (IsTokenOf text) self.new.tokens.items) }
        ensures pieces { OnOk result ((entities : EntityTable) (text : List ℕ) → IsKept entities text self.old
            → IsSettled entities text from self.old self.new) }
        ensures room { HasSmallRoom self.old.pairing → HasSmallRoom self.new.pairing }
    {
        self.pair_and_mark(from)?;
        self.runs.truncate(from);
        self.places.truncate(from);
        Ok(())
    }

    fn pair_and_mark(&mut self, from: usize) -> Result<(), AllocError>
        ensures openings { OnOk result (self.new.openings ≡ self.old.openings) }
        ensures tokens { OnOk result ((text : List ℕ) → All (IsTokenOf text) self.old.tokens.items → All (IsTokenOf text) self.new.tokens.items) }
        ensures runs { OnOk result (self.new.runs ≡ self.old.runs) }
        ensures places { OnOk result (self.new.places ≡ self.old.places) }
        ensures pieces { OnOk result ((entities : EntityTable) (text : List ℕ) → IsKept entities text self.old
            → IsPaired entities text from self.old self.new) }
        ensures room { HasSmallRoom self.old.pairing → HasSmallRoom self.new.pairing }
    {
        if from >= self.runs.len() {
            return Ok(());
        }
        self.pair_from(from)?;
        self.mark_from(from);
        Ok(())
    }

    /// What matches leave of the runs that are pending from one on. The room for the pairing of a large text is given back.
    fn pair_from(&mut self, from: usize) -> Result<(), AllocError>
        requires { from ≤ length self.old.runs.items }
        ensures paired { OnOk result (KnowsPaired from self.old self.new) }
        ensures room { HasSmallRoom self.old.pairing → HasSmallRoom self.new.pairing }
    {
        let taken = self.take_matches(from);
        self.pairing.let_go();
        taken
    }

    fn take_matches(&mut self, from: usize) -> Result<(), AllocError>
        requires { from ≤ length self.old.runs.items }
        ensures paired { OnOk result (KnowsPaired from self.old self.new) }
        ensures little { KeepsLittle self.old.pairing → KeepsLittle self.new.pairing }
    {
        self.paired.clear();
        append_unpaired(&self.runs[from..], &mut self.paired)?;
        self.pairing.pair(&self.runs[from..])?;
        take_all(&mut self.paired, &mut self.begun, self.pairing.matches())?;
        Ok(())
    }

    /// Marks the tokens of these runs with what is left of them.
    fn mark_from(&mut self, from: usize)
        ensures tokens { (text : List ℕ) → All (IsTokenOf text) self.old.tokens.items → All (IsTokenOf text) self.new.tokens.items }
        ensures same { ChangesTokens self.old self.new }
        ensures value { (entities : EntityTable) (text : List ℕ) → AreRunsAt entities text from self.old
            → shown_pieces entities text self.new
            ≡ marked (shown_pieces entities text self.old) from (map (paired_piece self.old.begun.items) self.old.paired.items) }
        ensures spans { All (HasSpansOf self.old.begun.items) self.old.paired.items → All (IsSpanned self.old.begun.items) self.old.tokens.items
            → All (IsSpanned self.old.begun.items) self.new.tokens.items }
    {
        for i in 0..self.paired.len() {
            self.mark(from.saturating_add(i), i);
        }
    }

    /// Marks the token of the run at a place of the list with the paired one at another.
    fn mark(&mut self, run: usize, paired: usize)
        ensures tokens { (text : List ℕ) → All (IsTokenOf text) self.old.tokens.items → All (IsTokenOf text) self.new.tokens.items }
        ensures same { ChangesTokens self.old self.new }
        ensures value { run < length self.old.places.items → paired < length self.old.paired.items → (d : ℕ) (p : Left)
            → self.new.tokens.items
            ≡ set self.old.tokens.items (slice_index_or self.old.places.items run d) (kept.Paired (slice_index_or self.old.paired.items paired p)) }
        ensures spans { All (HasSpansOf self.old.begun.items) self.old.paired.items → All (IsSpanned self.old.begun.items) self.old.tokens.items
            → All (IsSpanned self.old.begun.items) self.new.tokens.items }
    {
        if run >= self.places.len() || paired >= self.paired.len() {
            return;
        }
        let place = self.places[run];
        let token = Token::Paired(self.paired[paired]);
        self.replace(place, token);
    }
}
