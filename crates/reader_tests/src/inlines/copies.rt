//! Copies of readings.

use super::rows::{Definition, parsed_of};
use mdinline::Parsed;
use std::alloc::{AllocError, Global};
use std::test::Fail;

static DEFINITIONS: [Definition; 1] = [("k", "/k", "")];

/// A copy of a reading that is let go.
fn copied(alloc: Global, parsed: Parsed) -> Result<Parsed, AllocError> {
    parsed.copy(alloc)
}

/// A reading, as it is printed.
pub(super) fn printed(alloc: Global, parsed: &Parsed) -> Result<String, AllocError> {
    format!(in alloc; "{parsed:?}")
}

/// Whether the reading of a text is printed so.
fn is_printed(alloc: Global, text: &str, want: &str) -> Result<bool, Fail> {
    let parsed = parsed_of(alloc, text, &DEFINITIONS)?;
    let shown = printed(alloc, &parsed)?;
    Ok(shown.as_str() == want)
}

/// Whether a copy of it is printed so.
fn is_copy_printed(alloc: Global, text: &str, want: &str) -> Result<bool, Fail> {
    let copy = copied(alloc, parsed_of(alloc, text, &DEFINITIONS)?)?;
    let shown = printed(alloc, &copy)?;
    Ok(shown.as_str() == want)
}

static READINGS: [(&str, &str); 7] = [
    ("", "Parsed { tree: [], asked: Asked { labels: [] } }"),
    (
        "t",
        "Parsed { tree: [Text(\"t\")], asked: Asked { labels: [] } }",
    ),
    (
        "[t]",
        "Parsed { tree: [Text(\"[t]\")], asked: Asked { labels: [Label { folded: \"t\" }] } }",
    ),
    (
        "t[`c`\\\n](/u 'v')",
        "Parsed { tree: [Text(\"t\"), Link(Target { url: \"/u\", title: \"v\" }, [Code(\"c\"), Hard])], asked: Asked { labels: [] } }",
    ),
    (
        "`c`",
        "Parsed { tree: [Code(\"c\")], asked: Asked { labels: [] } }",
    ),
    (
        "*[t]*",
        "Parsed { tree: [Emph([Text(\"[t]\")])], asked: Asked { labels: [Label { folded: \"t\" }] } }",
    ),
    (
        "![k][]",
        "Parsed { tree: [Image(Target { url: \"/k\", title: \"\" }, [Text(\"k\")])], asked: Asked { labels: [Label { folded: \"k\" }] } }",
    ),
];

/// A copy stays when what it was made from is let go.
#[test]
fn readings_are_copied_whole(rt: HostRuntime) -> Result<(), Fail> {
    for &(text, want) in &READINGS {
        assert!(rt; is_printed(rt.alloc(), text, want)?, "in {text:?}");
        assert!(rt;
            is_copy_printed(rt.alloc(), text, want)?,
            "in a copy of {text:?}"
        );
    }
    Ok(())
}

/// The value, of a type whose values may go to other threads and be looked at from several at once.
fn across_threads<T: Send + Sync>(value: T) -> T {
    value
}

/// How many inlines a copy of a reading has, where both may cross threads.
fn inlines_across(alloc: Global, text: &str) -> Result<usize, Fail> {
    let parsed = across_threads(parsed_of(alloc, text, &[])?);
    let copy = across_threads(parsed.copy(alloc)?);
    Ok(copy.tree().len())
}

#[test]
fn readings_may_cross_threads(rt: HostRuntime) -> Result<(), Fail> {
    assert_eq!(rt; inlines_across(rt.alloc(), "`c`")?, 1);
    Ok(())
}
