//! What the batch way refuses, and in which order.

use super::calls::{PLAIN, html_of};
use super::texts::push_times;
use crate::repeats::repeated;
use mdbatch::EditFault;
use mdtext::NoMemory;
use std::alloc::Global;
use std::test::Fail;

/// What `to_html` answers for this many times the same part, if it refuses it.
fn refused(alloc: Global, part: &str, count: usize) -> Result<Option<EditFault>, Fail> {
    let text = repeated(alloc, part, count)?;
    Ok(html_of(alloc, &text, PLAIN, &[])?.err())
}

/// Whether `to_html` refuses this many times the same part for this, or for nothing.
fn is_answered(
    alloc: Global,
    part: &str,
    count: usize,
    fault: Option<EditFault>,
) -> Result<bool, Fail> {
    Ok(refused(alloc, part, count)? == fault)
}

/// Parts, how many times each stands in a text, and why the text is refused, if it is. U+FFFD, which stands for U+0000, has three bytes, and each line counts one
/// more.
static LIMITS: [(&str, usize, Option<EditFault>); 9] = [
    ("\n", 1_000_000, None),
    ("\n", 1_000_001, Some(EditFault::TooManyLines)),
    ("\r\n", 1_000_000, None),
    ("a", 16_777_215, None),
    ("a", 16_777_216, Some(EditFault::TooLarge)),
    ("\u{0}", 5_592_405, None),
    ("\u{0}", 5_592_406, Some(EditFault::TooLarge)),
    (">", 64, None),
    (">", 65, Some(EditFault::NestedTooDeep { line: 0 })),
];

#[test]
fn keeps_the_limits(rt: HostRuntime) -> Result<(), Fail> {
    for &(part, count, fault) in &LIMITS {
        assert!(rt;
            is_answered(rt.alloc(), part, count, fault)?,
            "{count} times {part:?}"
        );
    }
    Ok(())
}

/// Appends a line whose spans lie too deep, and behind it so many markers of block quotes.
fn push_spans_and_quotes(quotes: usize, text: &mut String) -> Result<(), NoMemory> {
    push_times("*a ", 65, text)?;
    text.push_str("x")?;
    push_times(" b*", 65, text)?;
    text.push_str("\n\n")?;
    push_times(">", quotes, text)
}

/// Whether a line whose spans lie too deep, with so many markers of block quotes behind it, is refused for this.
fn are_refused_for(alloc: Global, quotes: usize, fault: EditFault) -> Result<bool, Fail> {
    let mut text = String::new(alloc);
    push_spans_and_quotes(quotes, &mut text)?;
    is_answered(alloc, &text, 1, Some(fault))
}

/// A container that begins too deep is the answer where spans lie too deep before it as well.
#[test]
fn containers_come_before_spans(rt: HostRuntime) -> Result<(), Fail> {
    let (spans, containers) = (
        EditFault::InlineTooDeep { line: 0 },
        EditFault::NestedTooDeep { line: 2 },
    );
    assert!(rt; are_refused_for(rt.alloc(), 0, spans)?);
    assert!(rt; are_refused_for(rt.alloc(), 65, containers)?);
    Ok(())
}
