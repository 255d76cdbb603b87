//! What each recogniser of spans and definitions finds at a place, as numbers. Each call stands once, so that each contract is in one proof.

use mdscan::*;

/// The start and the end of a part.
pub(super) type Pair = (usize, usize);

/// The label, the destination and the title of a definition, and its end.
pub(super) type Parts = (Pair, Pair, Option<Pair>, usize);

/// The end of raw HTML.
pub(super) fn tag_at(text: &str, at: usize) -> Option<usize> {
    if !text.is_char_boundary(at) {
        return None;
    }
    html_tag(text, at)
}

/// The end of an autolink, and whether it is of mail.
pub(super) fn autolink_at(text: &str, at: usize) -> Option<(usize, bool)> {
    if !text.is_char_boundary(at) {
        return None;
    }
    let link = autolink(text, at)?;
    Some((link.end, link.mail))
}

/// The inside of a label.
pub(super) fn label_at(text: &str, at: usize) -> Option<Pair> {
    if !text.is_char_boundary(at) {
        return None;
    }
    Some(ends(link_label(text, at)?))
}

/// The inside of a destination, and its end.
pub(super) fn destination_at(text: &str, at: usize) -> Option<(usize, usize, usize)> {
    if !text.is_char_boundary(at) {
        return None;
    }
    let part = destination(text, at)?;
    Some((part.span.start, part.span.end, part.end))
}

/// The inside of a title, and its end.
pub(super) fn title_at(text: &str, at: usize) -> Option<(usize, usize, usize)> {
    if !text.is_char_boundary(at) {
        return None;
    }
    let part = title(text, at)?;
    Some((part.span.start, part.span.end, part.end))
}

/// The destination, the title and the end of an inline tail.
pub(super) fn tail_at(text: &str, at: usize) -> Option<(Option<Pair>, Option<Pair>, usize)> {
    if !text.is_char_boundary(at) {
        return None;
    }
    let tail = inline_tail(text, at)?;
    Some((some_ends(tail.destination), some_ends(tail.title), tail.end))
}

/// The definition that a text begins with.
pub(super) fn definition_of(text: &str) -> Option<Parts> {
    let it = definition(text)?;
    Some((
        ends(it.label),
        ends(it.destination),
        some_ends(it.title),
        it.end,
    ))
}

fn ends(span: Span) -> Pair {
    (span.start, span.end)
}

fn some_ends(span: Option<Span>) -> Option<Pair> {
    Some(ends(span?))
}
