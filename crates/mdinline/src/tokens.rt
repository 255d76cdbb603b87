//! What is read of a text, from left to right.

use crate::sinks::SpanKind;
use mdpair::{DelimiterChar, DelimiterRun};
use mdscan::Span;
use mdtext::{Referent, Target};

/// Where a link or an image leads.
#[derive(Clone, Copy, Drop)]
pub(crate) enum Goal<'a> {
    /// To what stands in its tail.
    Tail {
        destination: Option<Span>,
        title: Option<Span>,
    },
    /// To where a label leads.
    Known(&'a Target),
}

/// A span that begins at a delimiter run, and the place in the list of such spans of the one that begins behind it at the same run, if there is one.
#[derive(Clone, Copy, Drop)]
pub(crate) struct Begun {
    pub kind: SpanKind,
    pub inner: usize,
}

/// A delimiter run, with the spans that begin and end there and what of it they leave.
#[derive(Clone, Copy, Drop)]
pub(crate) struct PairedRun {
    pub delimiter: DelimiterChar,
    pub left: usize,
    /// How many spans end at the run.
    pub ends: usize,
    /// How many spans begin at the run.
    pub begins: usize,
    /// The place in the list of spans of the outermost that begins at the run.
    pub outermost: usize,
}

/// A part of a text. Places are those of its bytes.
#[derive(Clone, Copy, Drop)]
pub(crate) enum Token<'a> {
    /// Text of which HTML escapes nothing.
    Plain(Span),
    /// Text.
    Text(Span),
    /// What a reference means.
    Meaning(Referent<'a>),
    /// The content of a code span.
    Code(Span),
    /// Raw HTML.
    Html(Span),
    /// What stands between the angle brackets of an autolink. That of an e-mail address is a variant of its own: with a flag behind the span a token would be
    /// moved in parts of odd sizes.
    Autolink(Span),
    MailAutolink(Span),
    SoftBreak,
    HardBreak,
    /// `[` or `![`: text, unless a `]` makes the beginning of a link or an image of it.
    Bracket { is_image: bool },
    /// A delimiter run that is not paired with another one: text.
    Run(DelimiterRun),
    /// A delimiter run that is paired.
    Paired(PairedRun),
    /// The beginning of a link or an image.
    Enter { is_image: bool, goal: Goal<'a> },
    /// The end of a link or an image.
    Leave,
}
