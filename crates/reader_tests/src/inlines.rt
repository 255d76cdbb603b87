//! Maps of labels, and the reading of texts.

mod borders;
mod copies;
mod emphasis;
mod links;
mod nested_emphasis;
mod others;
mod readers;
mod references;
mod rows;

use self::rows::{parsed_of, read_within, target};
use mdinline::{Inline, InlineFault, LabelTable, Labels, read};
use mdtext::{Entities, Label, Tally, fold_label};
use std::alloc::{AllocError, Global};
use std::error::Error;
use std::process::Abort;
use std::test::Fail;

fn label(alloc: Global, text: &str) -> Result<Option<Label>, AllocError> {
    fold_label(alloc, text)
}

/// Whether a label has this target, or none where the text is empty.
fn has_url(table: &LabelTable, label: &Label, url: &str) -> bool {
    match table.find(label) {
        Some(target) => target.url.as_str() == url,
        None => url.is_empty(),
    }
}

fn add(alloc: Global, table: &mut LabelTable, text: &str, url: &str) -> Result<(), Fail> {
    let name = label(alloc, text)?.ok_or("no label")?;
    table.add(name, target(alloc, url, "")?)?;
    Ok(())
}

/// Whether a text is a label that has this target, or none where the second is empty.
fn leads_to(alloc: Global, table: &LabelTable, text: &str, url: &str) -> Result<bool, Fail> {
    let name = label(alloc, text)?.ok_or("no label")?;
    Ok(has_url(table, &name, url))
}

static ADDED: [(&str, &str); 4] = [
    ("foo", "/a"),
    ("bar", "/b"),
    ("FOO", "/c"),
    ("\u{1E9E}", "/d"),
];

static FOUND: [(&str, &str); 4] = [("Foo", "/a"), ("bar", "/b"), ("SS", "/d"), ("baz", "")];

#[test]
fn labels_keep_their_first_target(rt: HostRuntime) -> Result<(), Fail> {
    let alloc = rt.alloc();
    let mut table = LabelTable::new(alloc);
    for &(text, url) in &ADDED {
        add(alloc, &mut table, text, url)?;
    }
    for &(text, url) in &FOUND {
        assert!(rt; leads_to(alloc, &table, text, url)?, "at {text}");
    }
    Ok(())
}

fn emphasised(alloc: Global, text: &str) -> Result<Inline, AllocError> {
    let mut inner = Vec::new(alloc);
    inner.push(Inline::Text(String::from_str(alloc, text)?))?;
    Ok(Inline::Emph(inner))
}

#[test]
fn trees_are_compared(rt: HostRuntime) -> Result<(), Fail> {
    let emph = emphasised(rt.alloc(), "a")?;
    assert!(rt; emph == emph);
    assert!(rt; emph != Inline::Hard);
    Ok(())
}

/// A text of so many openers, a letter and so many closers.
fn nested(
    alloc: Global,
    count: usize,
    opener: &str,
    inside: &str,
    closer: &str,
) -> Result<String, AllocError> {
    let mut text = opener.repeat(alloc, count)?;
    text.push_str(inside)?;
    text.push_str(&closer.repeat(alloc, count)?)?;
    Ok(text)
}

/// Whether a text that is nested so often is refused as too deep.
fn is_too_deep(
    alloc: Global,
    limit: usize,
    count: usize,
    opener: &str,
    inside: &str,
    closer: &str,
) -> Result<bool, Fail> {
    let text = nested(alloc, count, opener, inside, closer)?;
    let read = read_within(alloc, text.as_str(), &[("k", "/u", "")], limit)?;
    Ok(matches!(read, Err(InlineFault::TooDeep)))
}

/// How many spans may lie in one another, how many do, their opener, what is in the last one, their closer, and
/// whether the text is refused.
type Depth = (usize, usize, &'static str, &'static str, &'static str, bool);

fn check_depths(rt: &impl Abort, alloc: Global, rows: &[Depth]) -> Result<(), Fail> {
    for &(limit, count, opener, inside, closer, want) in rows {
        let refused = is_too_deep(alloc, limit, count, opener, inside, closer)?;
        assert!(rt; refused == want, "at {count} {opener} {inside} of {limit}");
    }
    Ok(())
}

static DEPTHS: [Depth; 15] = [
    (64, 64, "*a ", "b", " a*", false),
    (64, 65, "*a ", "b", " a*", true),
    (64, 63, "*a ", "[k]", " a*", false),
    (64, 64, "*a ", "[k]", " a*", true),
    (64, 64, "*a ", "[m]", " a*", false),
    (64, 64, "![", "a", "](/u)", false),
    (64, 65, "![", "a", "](/u)", true),
    (64, 128, "*", "a", "*", false),
    (64, 129, "*", "a", "*", true),
    (64, 64, "~~a ", "b", " a~~", false),
    (64, 65, "~~a ", "b", " a~~", true),
    (64, 63, "*a ", "<ab:c>", " a*", false),
    (64, 64, "*a ", "<ab:c>", " a*", true),
    (64, 1000, "[", "a", "](/u)", false),
    (64, 20000, "*", "a", "*", true),
];

#[test]
fn spans_nest_up_to_64(rt: HostRuntime) -> Result<(), Fail> {
    check_depths(&rt, rt.alloc(), &DEPTHS)
}

static OTHER_LIMITS: [Depth; 16] = [
    (1, 1, "*a ", "b", " a*", false),
    (1, 2, "*a ", "b", " a*", true),
    (1, 1, "[", "a", "](/u)", false),
    (1, 1, "[", "*a*", "](/u)", true),
    (1, 1, "![", "a", "](/u)", false),
    (1, 2, "![", "a", "](/u)", true),
    (1, 1, "", "<ab:c>", "", false),
    (1, 1, "*", "<ab:c>", "*", true),
    (2, 2, "*a ", "b", " a*", false),
    (2, 3, "*a ", "b", " a*", true),
    (256, 256, "*a ", "b", " a*", false),
    (256, 256, "![", "b", "](/u)", false),
    (256, 256, "~~a ", "b", " a~~", false),
    (256, 257, "*a ", "b", " a*", true),
    (256, 257, "![", "b", "](/u)", true),
    (256, 257, "~~a ", "b", " a~~", true),
];

#[test]
fn the_limit_is_handed_in(rt: HostRuntime) -> Result<(), Fail> {
    check_depths(&rt, rt.alloc(), &OTHER_LIMITS)
}

/// Reads a text without definitions, and counts that.
fn count(alloc: Global, text: &str, tally: &mut Tally) -> Result<(), AllocError> {
    let labels = LabelTable::new(alloc);
    let entities = Entities::builtin(alloc)?;
    let _ = read(alloc, text, &labels, &entities, 64, tally);
    Ok(())
}

/// Reads a text that is refused, and counts that.
fn count_refused(alloc: Global, tally: &mut Tally) -> Result<(), AllocError> {
    let deep = nested(alloc, 129, "*", "a", "*")?;
    count(alloc, &deep, tally)
}

#[test]
fn each_text_is_counted_once(rt: HostRuntime) -> Result<(), Fail> {
    let alloc = rt.alloc();
    let mut tally = Tally::new();
    count(alloc, "", &mut tally)?;
    count(alloc, "*a* [b](/u)", &mut tally)?;
    count_refused(alloc, &mut tally)?;
    assert_eq!(rt; tally.inlines(), 3);
    assert_eq!(rt; tally.lines(), 0);
    Ok(())
}

/// How many inlines there are in so long a run of a mark.
fn inlines_of_marks(alloc: Global, mark: &str) -> Result<usize, Fail> {
    let text = nested(alloc, 500, mark, "", "")?;
    let parsed = parsed_of(alloc, text.as_str(), &[])?;
    Ok(parsed.tree().len())
}

static MARKS: [&str; 12] = [
    "*", "_", "~", "[", "![", "](", "`", "<", "<!--", "<?", "&", "\\\\",
];

/// A run of backticks that nothing closes is text, however many there are.
#[test]
fn unclosed_runs_are_text(rt: HostRuntime) -> Result<(), Fail> {
    for &mark in &MARKS {
        assert_eq!(rt; inlines_of_marks(rt.alloc(), mark)?, 1, "at {mark}");
    }
    Ok(())
}

fn reason<E: Error>(alloc: Global, fault: &E) -> Result<String, AllocError> {
    format!(in alloc; "{fault}")
}

static REASONS: [(InlineFault, &str); 2] = [
    (
        InlineFault::TooDeep,
        "a span of the text lies in too many others",
    ),
    (InlineFault::NoMemory, "no memory"),
];

#[test]
fn a_fault_says_why(rt: HostRuntime) -> Result<(), Fail> {
    for (fault, want) in &REASONS {
        assert_eq!(rt; reason(rt.alloc(), fault)?.as_str(), *want);
    }
    Ok(())
}
