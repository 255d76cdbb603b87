//! What was read of a text, handed to what takes its inlines.

ghost use Rattle.std.specs.Prelude.{◌≡◌, [], ◌∷◌, ◌++◌, All, IfOk, IfSome, OnOk, replicate, string_bytes};
ghost use Rattle.mdtext.specs.Referents.{referent_text};
ghost use Rattle.mdscan.specs.Spans.{IsSpanOf, part};
ghost use Rattle.mdpair.specs.Neighbours.{byte_of};
ghost use Rattle.inlinespec.specs.Autolinks.{scheme_before};
ghost use Rattle.inlinespec.specs.CharacterReferences.{without_references};
ghost use Rattle.inlinespec.specs.InlineEvents.{Enter, Leave, written};
ghost use Rattle.inlinespec.specs.LinkTails.{part_text};
ghost use Rattle.inlinespec.specs.Images.{span_to};
ghost use Rattle.mdinline.specs.held.LeafEvents.{IsGoalOf, IsTokenOf, autolink_events, begun_events, goal_target, leaf_events};
ghost use Rattle.mdinline.specs.held.LeafEvents.{paired_events, token_events, tokens_events};

use crate::character_references::append_without_references;
use crate::emphasis::text_of;
use crate::images::{bracket_text, enter_goal};
use crate::sinks::InlineSink;
use crate::tokens::{Begun, Goal, PairedRun, Token};
use mdpair::DelimiterChar;
use mdscan::Span;
use mdtext::{Entities, NoMemory, Referent, unescape};
use std::alloc::Global;

/// What tokens are handed out with.
#[derive(Clone, Copy, Drop)]
pub(crate) struct Source<'t> {
    pub text: &'t str,
    pub entities: &'t Entities,
    /// The spans that begin at the runs.
    pub begun: &'t [Begun],
}

/// Room for texts that are made, kept from text to text.
#[derive(Drop)]
pub(crate) struct Scratch {
    url: String,
    title: String,
}

impl Scratch {
    pub(crate) fn new(alloc: Global) -> Scratch {
        Scratch {
            url: String::new(alloc),
            title: String::new(alloc),
        }
    }
}

/// Hands all tokens out.
pub(crate) fn hand_out<S: InlineSink>(
    source: &Source<'_>,
    tokens: &[Token<'_>],
    scratch: &mut Scratch,
    sink: &mut S,
) -> Result<(), NoMemory>
    requires { All (IsTokenOf source.now.text.now) tokens.now }
    ensures { OnOk result (S.takes sink.old (tokens_events source.now.entities.now source.now.text.now source.now.begun.now tokens.now) sink.new) }
{
    for token in tokens {
        hand(source, *token, scratch, sink)?;
    }
    Ok(())
}

/// Hands one token out. Most are plain text.
fn hand<S: InlineSink>(
    source: &Source<'_>,
    token: Token<'_>,
    scratch: &mut Scratch,
    sink: &mut S,
) -> Result<(), NoMemory>
    requires { IsTokenOf source.now.text.now token }
    ensures { OnOk result (S.takes sink.old (token_events source.now.entities.now source.now.text.now source.now.begun.now token.entry) sink.new) }
{
    match token {
        Token::Plain(span) => sink.plain(part(source.text, span)),
        Token::Paired(run) => hand_run(source, run, sink),
        Token::Enter { is_image, goal } => hand_goal(source, is_image, goal, scratch, sink),
        Token::Leave => sink.leave(),
        _ => hand_leaf(source, token, scratch, sink),
    }
}

/// Hands out a leaf, or an opening bracket or a run that is text. What begins and ends spans is none of these.
pub(crate) fn hand_leaf<S: InlineSink>(
    source: &Source<'_>,
    token: Token<'_>,
    scratch: &mut Scratch,
    sink: &mut S,
) -> Result<(), NoMemory>
    requires { IsTokenOf source.now.text.now token }
    ensures { OnOk result (S.takes sink.old (leaf_events source.now.entities.now source.now.text.now token.entry) sink.new) }
{
    let text = source.text;
    match token {
        Token::Plain(span) => sink.plain(part(text, span)),
        Token::Text(span) => sink.text(part(text, span)),
        Token::Meaning(referent) => hand_meaning(referent, scratch, sink),
        Token::Code(span) => sink.code_span(part(text, span)),
        Token::Html(span) => sink.raw_html(part(text, span)),
        Token::Autolink(span) => hand_autolink(source, part(text, span), false, scratch, sink),
        Token::MailAutolink(span) => {
            hand_autolink(source, part(text, span), true, scratch, sink)
        }
        Token::SoftBreak => sink.soft_break(),
        Token::HardBreak => sink.hard_break(),
        Token::Bracket { is_image } => sink.plain(bracket_text(is_image)),
        Token::Run(run) => hand_marks(run.delimiter, run.length, sink),
        Token::Paired(_) => Ok(()),
        Token::Enter { .. } => Ok(()),
        Token::Leave => Ok(()),
    }
}

/// The text of a span.
pub(crate) fn part(text: &str, span: Span) -> &str
    requires { IsSpanOf text.now span }
    ensures { result.now ≡ part text.now span }
{
    &text[span.start..span.end]
}

/// Hands out what a reference stands for.
fn hand_meaning<S: InlineSink>(
    referent: Referent<'_>,
    scratch: &mut Scratch,
    sink: &mut S,
) -> Result<(), NoMemory>
    ensures { OnOk result (S.takes sink.old (written (referent_text referent.entry)) sink.new) }
{
    match referent {
        Referent::Character(character) => {
            scratch.title.clear();
            scratch.title.push(character)?;
            sink.text(&scratch.title)
        }
        Referent::Text(text) => sink.text(text),
    }
}

/// Hands out the link of an autolink. References are replaced, and backslashes stay.
fn hand_autolink<S: InlineSink>(
    source: &Source<'_>,
    inside: &str,
    is_mail: bool,
    scratch: &mut Scratch,
    sink: &mut S,
) -> Result<(), NoMemory>
    ensures { OnOk result (S.takes sink.old (autolink_events source.now.entities.now inside.now is_mail) sink.new) }
{
    write_shown(source, inside, &mut scratch.title)?;
    write_url(is_mail, &scratch.title, &mut scratch.url)?;
    sink.enter_link(&scratch.url, "")?;
    sink.text(&scratch.title)?;
    sink.leave()?;
    Ok(())
}

fn write_shown(source: &Source<'_>, inside: &str, out: &mut String) -> Result<(), NoMemory>
    ensures { OnOk result (string_bytes out.new ≡ without_references source.now.entities.now 0 inside.now) }
{
    out.clear();
    append_without_references(inside, source.entities, out)
}

/// Where an autolink leads.
fn write_url(is_mail: bool, shown: &str, out: &mut String) -> Result<(), NoMemory>
    ensures { OnOk result (string_bytes out.new ≡ scheme_before is_mail ++ shown.now) }
{
    out.clear();
    out.push_str(if is_mail { "mailto:" } else { "" })?;
    out.push_str(shown)
}

/// Begins a link or an image.
fn hand_goal<S: InlineSink>(
    source: &Source<'_>,
    is_image: bool,
    goal: Goal<'_>,
    scratch: &mut Scratch,
    sink: &mut S,
) -> Result<(), NoMemory>
    requires { IsGoalOf source.now.text.now goal }
    ensures { OnOk result (S.takes sink.old (Enter (span_to is_image (goal_target source.now.entities.now source.now.text.now goal.entry)) ∷ []) sink.new) }
{
    match goal {
        Goal::Known(target) => enter_goal(is_image, &target.url, &target.title, sink),
        Goal::Tail { destination, title } => {
            write_part(source, destination, &mut scratch.url)?;
            write_part(source, title, &mut scratch.title)?;
            enter_goal(is_image, &scratch.url, &scratch.title, sink)
        }
    }
}

/// A destination or a title, which may be missing.
fn write_part(source: &Source<'_>, span: Option<Span>, out: &mut String) -> Result<(), NoMemory>
    requires { IfSome span (λ span. IsSpanOf source.now.text.now span) }
    ensures { OnOk result (string_bytes out.new ≡ part_text source.now.entities.now source.now.text.now span) }
{
    out.clear();
    match span {
        Some(span) => unescape(part(source.text, span), source.entities, out),
        None => Ok(()),
    }
}

/// Ends the spans that end at a run, hands out what is left of it, and begins those that begin there.
fn hand_run<S: InlineSink>(
    source: &Source<'_>,
    run: PairedRun,
    sink: &mut S,
) -> Result<(), NoMemory>
    ensures { OnOk result (S.takes sink.old (paired_events source.now.begun.now run) sink.new) }
{
    end_spans(run.ends, sink)?;
    hand_marks(run.delimiter, run.left, sink)?;
    begin_spans(source, run, sink)?;
    Ok(())
}

/// Ends so many spans.
fn end_spans<S: InlineSink>(count: usize, sink: &mut S) -> Result<(), NoMemory>
    ensures { OnOk result (S.takes sink.old (replicate count Leave) sink.new) }
{
    for _ in 0..count {
        sink.leave()?;
    }
    Ok(())
}

/// Hands out so many delimiter characters as text.
fn hand_marks<S: InlineSink>(
    delimiter: DelimiterChar,
    count: usize,
    sink: &mut S,
) -> Result<(), NoMemory>
    ensures { OnOk result (S.takes sink.old (written (replicate count (byte_of delimiter))) sink.new) }
{
    for _ in 0..count {
        sink.plain(text_of(delimiter))?;
    }
    Ok(())
}

/// Begins the spans that begin at a run, the outermost first.
fn begin_spans<S: InlineSink>(
    source: &Source<'_>,
    run: PairedRun,
    sink: &mut S,
) -> Result<(), NoMemory>
    ensures { OnOk result (S.takes sink.old (begun_events source.now.begun.now run.begins run.outermost) sink.new) }
{
    let mut place = run.outermost;
    for _ in 0..run.begins {
        let Some(begun) = source.begun.get(place) else {
            break;
        };
        sink.enter(begun.kind)?;
        place = begun.inner;
    }
    Ok(())
}
