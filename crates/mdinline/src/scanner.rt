//! The leaves that stand at a place of a text, whatever stands before it.

ghost use Rattle.std.specs.Prelude.{◌≡◌, ◌<◌, false, None, IfOk, IfSome, List, length, ℕ, true};
ghost use Rattle.std.specs.Str.{IsCharBoundary};
ghost use Rattle.mdscan.specs.Spans.{IsEndAfter};
ghost use Rattle.mdinline.specs.held.KnownText.{KnowsText, IsLeafAt};
ghost use Rattle.inlinespec.specs.DelimiterRuns.{delimiters_at};
ghost use Rattle.inlinespec.specs.Lexing.{lex};
ghost use Rattle.mdinline.specs.held.LeafEvents.{IsTokenOf};
ghost use Rattle.mdinline.specs.held.ReadPending.{is_leaf};
ghost use Rattle.mdinline.specs.held.PlainText.{is_bracket};
ghost use Rattle.mdinline.specs.held.Recognised.{IsFound};

use crate::backslash_escapes::escape;
use crate::character_references::reference;
use crate::code_spans::Backticks;
use crate::line_breaks::line_break;
use crate::raw_html::EndlessTags;
use crate::texts::plain;
use crate::tokens::Token;
use mdtext::Entities;
use std::alloc::{AllocError, Global};

/// A leaf that was read, and where it ends in the text.
#[derive(Clone, Copy, Drop)]
pub(crate) struct Found<'a> {
    pub token: Token<'a>,
    pub end: usize,
}

pub(crate) fn leaf_of(token: Token<'_>, end: usize) -> Found<'_>
    ensures end { result.end ≡ end }
    ensures token { result.token ≡ token.entry }
{
    Found { token, end }
}

/// What is known of a whole text, so that no part of it is searched again and again.
#[derive(Drop)]
pub(crate) struct Scanner {
    backticks: Backticks,
    endless_tags: EndlessTags,
}

impl Scanner {
    pub(crate) fn new() -> Scanner
        ensures { (text : List ℕ) (at : ℕ) → KnowsText text at result }
    {
        Scanner {
            backticks: Backticks::new(),
            endless_tags: EndlessTags::new(),
        }
    }

    /// The leaf at a place; it is text where nothing else begins there.
    pub(crate) fn leaf<'a>(
        &mut self,
        alloc: Global,
        text: &str,
        at: usize,
        entities: &'a Entities,
    ) -> Result<Found<'a>, AllocError>
        requires whole { IsCharBoundary text.now at }
        requires inside { at < length text.now }
        ensures end { IfOk result (λ found. IsEndAfter text.now at found.end) }
        ensures token { IfOk result (λ found. IsTokenOf text.now found.token) }
        ensures leaf { IfOk result (λ found. is_leaf found.token ≡ true) }
        ensures value { delimiters_at entities.now text.now at ≡ None → is_bracket (lex entities.now text.now at).kind ≡ false
            → KnowsText text.now at self.old → IfOk result (λ found. IsLeafAt entities.now text.now at found) }
        ensures knows { KnowsText text.now at self.old → KnowsText text.now at self.new }
    {
        match self.marked(alloc, text, at, entities)? {
            Some(found) => Ok(found),
            None => Ok(plain(text, at)),
        }
    }

    /// The escape, reference, code span, autolink, raw HTML or line break at a place.
    fn marked<'a>(
        &mut self,
        alloc: Global,
        text: &str,
        at: usize,
        entities: &'a Entities,
    ) -> Result<Option<Found<'a>>, AllocError>
        requires whole { IsCharBoundary text.now at }
        requires inside { at < length text.now }
        ensures end { IfOk result (λ found. IfSome found (λ found. IsEndAfter text.now at found.end)) }
        ensures token { IfOk result (λ found. IfSome found (λ found. IsTokenOf text.now found.token)) }
        ensures leaf { IfOk result (λ found. IfSome found (λ found. is_leaf found.token ≡ true)) }
        ensures value { delimiters_at entities.now text.now at ≡ None → is_bracket (lex entities.now text.now at).kind ≡ false
            → KnowsText text.now at self.old → IfOk result (λ found. IsFound entities.now text.now at (lex entities.now text.now at) found) }
        ensures knows { KnowsText text.now at self.old → KnowsText text.now at self.new }
    {
        match text.as_bytes()[at] {
            b'\\' => Ok(escape(text, at)),
            b'&' => Ok(reference(text, at, entities)),
            b'`' => self.backticks.code_or_run(alloc, text, at),
            b'<' => Ok(self.endless_tags.autolink_or_html(text, at)),
            b' ' => Ok(line_break(text, at)),
            b'\n' => Ok(line_break(text, at)),
            _ => Ok(None),
        }
    }
}
