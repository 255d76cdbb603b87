//! What takes the inlines of a text from left to right.

use mdtext::NoMemory;

/// A span that delimiter runs make (CommonMark 6.2; GFM Strikethrough (extension)).
#[derive(Clone, Copy, Debug, Drop, PartialEq, Eq)]
pub enum SpanKind {
    /// Emphasis.
    Emph,
    /// Strong emphasis.
    Strong,
    /// Strikethrough.
    Strike,
}

/// Takes the inlines of a text from left to right, each span by its beginning and its end. After `NoMemory` it is of no use.
pub trait InlineSink {
    ghost use Rattle.std.specs.Prelude.{◌≡◌, List, [], ◌∷◌, ◌++◌, OnOk};
    ghost use Rattle.mdtext.specs.HtmlEscapes.{escaped};
    ghost use Rattle.inlinespec.specs.CodeSpans.{as_one_line};
    ghost use Rattle.inlinespec.specs.InlineEvents.{Event, CodeSpan, RawHtml, SoftBreak, HardBreak, LinkTo, ImageOf, Enter, Leave, written};
    ghost use Rattle.mdinline.specs.SpanKinds.{span_of};

    /// The first takes these events and is the second then.
    ghost takes: { Self → List Event → Self → Type 0 };

    /// Text in which HTML escapes nothing.
    fn plain(&mut self, text: &str) -> Result<(), NoMemory>
        requires { escaped text.now ≡ text.now }
        ensures { OnOk result (takes self.old (written text.now) self.new) };

    /// Text.
    fn text(&mut self, text: &str) -> Result<(), NoMemory>
        ensures { OnOk result (takes self.old (written text.now) self.new) };

    /// A code span with this content, in which line endings still stand for spaces (CommonMark 6.1).
    fn code_span(&mut self, content: &str) -> Result<(), NoMemory>
        ensures { OnOk result (takes self.old (CodeSpan (as_one_line content.now) ∷ []) self.new) };

    /// Raw HTML (CommonMark 6.6).
    fn raw_html(&mut self, html: &str) -> Result<(), NoMemory>
        ensures { OnOk result (takes self.old (RawHtml html.now ∷ []) self.new) };

    /// A soft line break (CommonMark 6.8).
    fn soft_break(&mut self) -> Result<(), NoMemory>
        ensures { OnOk result (takes self.old (SoftBreak ∷ []) self.new) };

    /// A hard line break (CommonMark 6.7).
    fn hard_break(&mut self) -> Result<(), NoMemory>
        ensures { OnOk result (takes self.old (HardBreak ∷ []) self.new) };

    /// A span of this kind begins.
    fn enter(&mut self, kind: SpanKind) -> Result<(), NoMemory>
        ensures { OnOk result (takes self.old (Enter (span_of kind) ∷ []) self.new) };

    /// A link begins (CommonMark 6.3).
    fn enter_link(&mut self, url: &str, title: &str) -> Result<(), NoMemory>
        ensures { OnOk result (takes self.old (Enter (LinkTo (record { url = url.now; title = title.now })) ∷ []) self.new) };

    /// An image begins (CommonMark 6.4); what comes up to its end is its alternative text.
    fn enter_image(&mut self, url: &str, title: &str) -> Result<(), NoMemory>
        ensures { OnOk result (takes self.old (Enter (ImageOf (record { url = url.now; title = title.now })) ∷ []) self.new) };

    /// The span that began last ends. Where none is open nothing happens.
    fn leave(&mut self) -> Result<(), NoMemory>
        ensures { OnOk result (takes self.old (Leave ∷ []) self.new) };

    ghost takes_none: { (a : Self) → takes a [] a };

    ghost takes_more: { (a b c : Self) (es fs : List Event) → takes a es b → takes b fs c → takes a (es ++ fs) c };
}
