//! Labels as they are matched, and their order.

use mdtext::{Label, Target, fold_label};
use std::alloc::{AllocError, Global};
use std::process::Abort;
use std::test::Fail;

fn folded(rt: &HostRuntime, inside: &str) -> Result<Option<Label>, Fail> {
    Ok(fold_label(rt.alloc(), inside)?)
}

fn is_label(rt: &HostRuntime, inside: &str) -> Result<bool, Fail> {
    Ok(folded(rt, inside)?.is_some())
}

fn are_alike(rt: &HostRuntime, one: &str, other: &str) -> Result<bool, Fail> {
    Ok(folded(rt, one)? == folded(rt, other)?)
}

static MATCHING: [(&str, &str); 7] = [
    (" \u{1E9E}  a ", "SS a"),
    ("\u{DF}", "ss"),
    (
        "\u{39F}\u{394}\u{39F}\u{3A3}",
        "\u{3BF}\u{3B4}\u{3BF}\u{3C2}",
    ),
    ("\u{130}", "i\u{307}"),
    ("\u{FB03}", "FFI"),
    ("Foo\n\t bar\r\n", "foo bar"),
    ("a\\]b", "A\\]B"),
];

static NOT_MATCHING: [(&str, &str); 6] = [
    ("a b", "ab"),
    ("I", "\u{131}"),
    ("\u{E4}", "a\u{308}"),
    ("a\u{A0}b", "a b"),
    ("&amp;", "&"),
    ("\\a", "a"),
];

#[test]
fn labels_that_match(rt: HostRuntime) -> Result<(), Fail> {
    for &(one, other) in &MATCHING {
        assert!(rt; is_label(&rt, one)?, "{one:?}");
        assert!(rt; are_alike(&rt, one, other)?, "{one:?}");
    }
    for &(one, other) in &NOT_MATCHING {
        assert!(rt; !are_alike(&rt, one, other)?, "{one:?}");
    }
    Ok(())
}

fn is_behind(rt: &HostRuntime, one: &str, other: &str) -> Result<bool, Fail> {
    Ok(folded(rt, one)? > folded(rt, other)?)
}

#[test]
fn labels_in_order(rt: HostRuntime) -> Result<(), Fail> {
    assert!(rt; is_behind(&rt, "B", "a")?);
    assert!(rt; is_behind(&rt, "ab", "A")?);
    Ok(())
}

static NO_LABELS: [&str; 7] = ["", "  ", "\t\n", "a]", "[a", "a\\\\]", "\\\\["];

static ODD_LABELS: [&str; 4] = ["\\", "\\]", "\\[\\\\", "\u{A0}"];

#[test]
fn no_labels(rt: HostRuntime) -> Result<(), Fail> {
    for &inside in &NO_LABELS {
        assert!(rt; !is_label(&rt, inside)?, "{inside:?}");
    }
    for &inside in &ODD_LABELS {
        assert!(rt; is_label(&rt, inside)?, "{inside:?}");
    }
    Ok(())
}

#[test]
fn labels_of_999_characters(rt: HostRuntime) -> Result<(), Fail> {
    let mut letters = String::new(rt.alloc());
    for _ in 0..999 {
        letters.push('\u{E4}')?;
    }
    assert!(rt; is_label(&rt, letters.as_str())?);
    letters.push('a')?;
    assert!(rt; !is_label(&rt, letters.as_str())?);
    Ok(())
}

#[test]
fn targets_by_their_parts(rt: HostRuntime) -> Result<(), Fail> {
    let target = Target {
        url: String::from_str(rt.alloc(), "/u")?,
        title: String::new(rt.alloc()),
    };
    assert_eq!(rt; target.url.as_str(), "/u");
    assert_eq!(rt; target.title.as_str(), "");
    Ok(())
}

#[test]
fn labels_are_shown_by_their_text(rt: HostRuntime) -> Result<(), Fail> {
    let shown = format!(in rt.alloc(); "{:?}", folded(&rt, " A  b ")?)?;
    assert_eq!(rt; shown.as_str(), "Some(Label { folded: \"a b\" })");
    Ok(())
}

static REFUSED: [&str; 5] = ["", " ", "a]", "[", "a\n["];

/// Whether a text is no label, and leaves one with this text as it was.
fn is_left(alloc: Global, label: &mut Label, inside: &str, text: &str) -> Result<bool, AllocError> {
    let is_label = label.fold(alloc, inside)?;
    Ok(!is_label && label.as_str() == text)
}

fn check_left(
    rt: &impl Abort,
    alloc: Global,
    label: &mut Label,
    text: &str,
) -> Result<(), AllocError> {
    for &inside in &REFUSED {
        assert!(rt; is_left(alloc, label, inside, text)?, "{inside:?}");
    }
    Ok(())
}

#[test]
fn what_is_no_label_leaves_a_label_as_it_was(rt: HostRuntime) -> Result<(), Fail> {
    let mut label = Label::new(rt.alloc());
    assert!(rt; label.fold(rt.alloc(), "Foo bar")?);
    check_left(&rt, rt.alloc(), &mut label, "foo bar")?;
    Ok(())
}
