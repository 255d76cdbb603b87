//! Brackets, and those of a text that no `]` has used up (CommonMark 6.3, 6.4).

ghost use Rattle.std.specs.Prelude.{◌≡◌, ◌<◌, ◌==◌, ◌||◌, nat_le, true, false, List, None, [], ◌∷◌, ◌++◌};
ghost use Rattle.std.specs.Prelude.{IfSome, OnOk, MatchOption, length, slice_index};
ghost use Rattle.mdtext.specs.EntityTable.{EntityTable};
ghost use Rattle.mdscan.specs.Spans.{EndsAfterMark};
ghost use Rattle.inlinespec.specs.InlineEvents.{Event};
ghost use Rattle.inlinespec.specs.LabelMap.{LinkTarget};
ghost use Rattle.inlinespec.specs.Lexing.{lex};
ghost use Rattle.mdinline.specs.held.PlainText.{is_bracket};
ghost use Rattle.mdinline.specs.held.Recognised.{bracket_of};
ghost use Rattle.inlinespec.specs.Pieces.{Piece};
ghost use Rattle.inlinespec.specs.Pieces as piece;
ghost use Rattle.inlinespec.specs.Links.{Opened, linked, nearest_opener};
ghost use Rattle.inlinespec.specs.TextReading.{spent};
ghost use Rattle.mdinline.specs.held.UnusedOpeners.{AreOpenersOf, IsTaken};

use std::alloc::{AllocError, Global};

/// What a bracket does.
#[derive(Clone, Copy, Drop)]
pub(crate) enum BracketKind {
    /// `[`
    Link,
    /// `![`
    Image,
    /// `]`
    Closing,
}

/// A bracket, and where it ends.
#[derive(Clone, Copy, Drop)]
pub(crate) struct Bracket {
    pub kind: BracketKind,
    pub end: usize,
}

/// The bracket at a place.
pub(crate) fn bracket_at(text: &[u8], at: usize) -> Option<Bracket>
    requires { at < length text.now }
    ensures end { IfSome result (λ bracket. EndsAfterMark text.now at bracket.end) }
    ensures mark { IfSome result (λ _. slice_index text.now at < 128) }
    ensures closing { IfSome result (λ bracket. bracket.kind ≡ BracketKind.Closing → slice_index text.now at ≡ 93) }
    ensures value { (entities : EntityTable) → MatchOption result (is_bracket (lex entities text.now at).kind ≡ false)
        (λ bracket. lex entities text.now at ≡ bracket_of at bracket) }
{
    let next = at + 1;
    match text[at] {
        b'[' => Some(make_bracket(BracketKind::Link, next)),
        b']' => Some(make_bracket(BracketKind::Closing, next)),
        b'!' if next < text.len() && text[next] == b'[' => {
            Some(make_bracket(BracketKind::Image, next + 1))
        }
        _ => None,
    }
}

fn make_bracket(kind: BracketKind, end: usize) -> Bracket
    ensures end { result.end ≡ end }
    ensures kind { result.kind ≡ kind }
{
    Bracket { kind, end }
}

/// An opening bracket: its place among the tokens, how many runs were pending before it, and where the text behind it begins.
#[derive(Clone, Copy, Drop)]
pub(crate) struct Opening {
    pub token: usize,
    pub runs: usize,
    pub begin: usize,
    pub is_image: bool,
}

/// The opening brackets that are unused, the nearest last. Those before a link are dead (CommonMark 6.3: links hold no links), save of images.
#[derive(Drop)]
pub(crate) struct BracketStack {
    unused: Vec<Opening>,
    /// How many of them stand before a link.
    before_link: usize,
}

impl BracketStack {
    pub(crate) fn new(alloc: Global) -> BracketStack
        ensures unused { result.unused.items ≡ [] }
        ensures none { AreOpenersOf [] result }
    {
        BracketStack {
            unused: Vec::new(alloc),
            before_link: 0,
        }
    }

    pub(crate) fn clear(&mut self)
        ensures unused { self.new.unused.items ≡ [] }
        ensures none { AreOpenersOf [] self.new }
    {
        self.unused.clear();
        self.before_link = 0;
    }

    pub(crate) fn is_empty(&self) -> bool
        ensures { result ≡ (length self.now.unused.items == 0) }
    {
        self.unused.is_empty()
    }

    pub(crate) fn push(&mut self, opening: Opening) -> Result<(), AllocError>
        ensures unused { OnOk result (self.new.unused.items ≡ self.old.unused.items ++ opening ∷ []) }
        ensures openers { OnOk result ((ps : List Piece) → AreOpenersOf ps self.old
            → AreOpenersOf (piece.Opening opening.is_image opening.begin ∷ ps) self.new) }
    {
        self.unused.push(opening)?;
        Ok(())
    }

    /// Uses up the nearest one, and answers it with whether it is live.
    pub(crate) fn take(&mut self) -> Option<(Opening, bool)>
        ensures unused { MatchOption result (self.new.unused.items ≡ self.old.unused.items)
            (λ taken. self.old.unused.items ≡ self.new.unused.items ++ taken.0 ∷ []) }
        ensures empty { result ≡ None → self.old.unused.items ≡ [] }
        ensures taken { (ps : List Piece) → AreOpenersOf ps self.old
            → MatchOption result (nearest_opener ps ≡ None) (λ taken. (o : Opened) × IsTaken ps taken o) }
        ensures left { (ps : List Piece) → AreOpenersOf ps self.old → AreOpenersOf (spent ps) self.new }
    {
        let Some(opening) = self.unused.pop() else {
            return None;
        };
        let left = self.unused.len();
        let is_live = is_live(opening, self.before_link, left);
        self.before_link = self.before_link.min(left);
        Some((opening, is_live))
    }

    /// A link or an image was made of a bracket that was taken.
    pub(crate) fn made(&mut self, opening: Opening)
        ensures unused { self.new.unused.items ≡ self.old.unused.items }
        ensures openers { (ps : List Piece) (o : Opened) (t : LinkTarget) → IsTaken ps (opening, true) o → AreOpenersOf (spent ps) self.old
            → AreOpenersOf (linked t ps (nearest_opener ps)) self.new }
    {
        if opening.is_image {
            return;
        }
        self.link_made();
    }

    /// A link was made: all that are unused stand before it.
    fn link_made(&mut self)
        ensures unused { self.new.unused.items ≡ self.old.unused.items }
        ensures openers { (ps : List Piece) (es : List Event) → AreOpenersOf ps self.old → AreOpenersOf (piece.Made true es ∷ ps) self.new }
    {
        self.before_link = self.unused.len();
    }
}

/// Whether a bracket that stands behind so many unused ones is live, where so many of all stand before a link.
fn is_live(opening: Opening, before_link: usize, behind: usize) -> bool
    ensures { result ≡ (opening.is_image || nat_le before_link behind) }
{
    opening.is_image || before_link <= behind
}
