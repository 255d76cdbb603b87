//! Raw HTML, and what a `<` begins (CommonMark 6.5, 6.6).

ghost use Rattle.std.specs.Prelude.{◌≡◌, ◌+◌, ◌<◌, ℕ, List, None, IfSome, length, drop, slice_index, option_map, true};
ghost use Rattle.std.specs.Char.{is_ascii_alphabetic};
ghost use Rattle.mdtext.specs.EntityTable.{EntityTable};
ghost use Rattle.mdscan.specs.Autolink.{autolink_at};
ghost use Rattle.mdscan.specs.Tag.{first_is};
ghost use Rattle.mdscan.specs.RawHtml.{place_of, raw_html};
ghost use Rattle.mdscan.specs.Spans.{IsEndAfter, EndsAfterMark};
ghost use Rattle.inlinespec.specs.RawHtml.{angle_lexeme};
ghost use Rattle.mdinline.specs.held.LeafEvents.{IsTokenOf};
ghost use Rattle.mdinline.specs.held.ReadPending.{is_leaf};
ghost use Rattle.mdinline.specs.held.LongTags.{BeginsTag, FollowsMark, KnowsEnds, close_text, is_endless};
ghost use Rattle.mdinline.specs.held.Recognised.{IsFound};

use crate::autolinks::autolink_found;
use crate::scanner::{Found, leaf_of};
use crate::tokens::Token;
use mdscan::{Span, find_from, html_tag};

/// Raw HTML that may reach to the end of a text to find its own end.
#[derive(Clone, Copy, Drop)]
enum LongTag {
    Comment,
    Instruction,
    Declaration,
    Section,
}

/// Which kinds of raw HTML find no end any more in the rest of a text.
#[derive(Clone, Copy, Drop)]
pub(crate) struct EndlessTags {
    no_comment: bool,
    no_instruction: bool,
    no_declaration: bool,
    no_section: bool,
}

impl EndlessTags {
    pub(crate) fn new() -> EndlessTags
        ensures { (text : List ℕ) (at : ℕ) → KnowsEnds text at result }
    {
        EndlessTags {
            no_comment: false,
            no_instruction: false,
            no_declaration: false,
            no_section: false,
        }
    }

    /// The autolink or the raw HTML whose `<` stands at a place.
    pub(crate) fn autolink_or_html(&mut self, text: &str, at: usize) -> Option<Found<'static>>
        requires inside { at < length text.now }
        requires mark { slice_index text.now at < 128 }
        ensures end { IfSome result (λ found. IsEndAfter text.now at found.end) }
        ensures token { IfSome result (λ found. IsTokenOf text.now found.token) }
        ensures leaf { IfSome result (λ found. is_leaf found.token ≡ true) }
        ensures value { slice_index text.now at ≡ 60 → KnowsEnds text.now at self.old
            → (entities : EntityTable)
            → IsFound entities text.now at (angle_lexeme entities text.now at (autolink_at text.now at) (raw_html (drop at text.now))) result }
        ensures knows { KnowsEnds text.now at self.old → KnowsEnds text.now at self.new }
    {
        if let Some(found) = autolink_found(text, at) {
            return Some(found);
        }
        match self.html_end(text, at) {
            Some(end) => Some(leaf_of(Token::Html(Span { start: at, end }), end)),
            None => None,
        }
    }

    /// Where the raw HTML ends that stands at a place. A kind whose end was not found is not searched for again.
    fn html_end(&mut self, text: &str, at: usize) -> Option<usize>
        requires inside { at < length text.now }
        requires mark { slice_index text.now at < 128 }
        ensures end { IfSome result (λ end. IsEndAfter text.now at end) }
        ensures value { slice_index text.now at ≡ 60 → KnowsEnds text.now at self.old
            → result ≡ option_map (λ n. at + n) (raw_html (drop at text.now)) }
        ensures knows { KnowsEnds text.now at self.old → KnowsEnds text.now at self.new }
    {
        if let Some(kind) = long_tag(text.as_bytes(), at) {
            if self.is_endless(kind) {
                return None;
            }
            if find_from(text, at + 2, close_of(kind)).is_none() {
                self.mark_endless(kind);
                return None;
            }
        }
        html_tag(text, at)
    }

    fn is_endless(&self, kind: LongTag) -> bool
        ensures { result ≡ is_endless self.now kind }
    {
        match kind {
            LongTag::Comment => self.no_comment,
            LongTag::Instruction => self.no_instruction,
            LongTag::Declaration => self.no_declaration,
            LongTag::Section => self.no_section,
        }
    }

    fn mark_endless(&mut self, kind: LongTag)
        ensures { (text : List ℕ) (at : ℕ) → KnowsEnds text at self.old → place_of (close_text kind) (drop (at + 2) text) ≡ None
            → KnowsEnds text at self.new }
    {
        match kind {
            LongTag::Comment => self.no_comment = true,
            LongTag::Instruction => self.no_instruction = true,
            LongTag::Declaration => self.no_declaration = true,
            LongTag::Section => self.no_section = true,
        }
    }
}

/// The raw HTML that begins with `<` at a place and a mark behind it.
fn long_tag(text: &[u8], at: usize) -> Option<LongTag>
    requires { at < length text.now }
    ensures end { IfSome result (λ _. EndsAfterMark text.now at (at + 2)) }
    ensures kind { IfSome result (λ kind. BeginsTag kind text.now at) }
{
    let next = at + 1;
    if next >= text.len() {
        return None;
    }
    match text[next] {
        b'?' => Some(LongTag::Instruction),
        b'!' => after_mark(&text[next + 1..]),
        _ => None,
    }
}

/// The raw HTML that begins with `<!`, by what follows.
fn after_mark(rest: &[u8]) -> Option<LongTag>
    ensures { IfSome result (λ kind. FollowsMark kind rest.now) }
{
    if rest.starts_with(b"--") {
        Some(LongTag::Comment)
    } else if rest.starts_with(b"[CDATA[") {
        Some(LongTag::Section)
    } else if begins_with_letter(rest) {
        Some(LongTag::Declaration)
    } else {
        None
    }
}

fn begins_with_letter(rest: &[u8]) -> bool
    ensures { result ≡ first_is is_ascii_alphabetic rest.now }
{
    match rest.first() {
        Some(byte) => byte.is_ascii_alphabetic(),
        None => false,
    }
}

fn close_of(kind: LongTag) -> &'static str
    ensures { result.now ≡ close_text kind }
{
    match kind {
        LongTag::Comment => "-->",
        LongTag::Instruction => "?>",
        LongTag::Declaration => ">",
        LongTag::Section => "]]>",
    }
}
