//! What the front of a paragraph gives: definitions.

use mdleaf::{Definition, Leading, is_only_definitions, leading_definitions};
use mdtext::Entities;
use std::alloc::{AllocError, Global};
use std::test::Fail;

static FRONTS: [(&str, &[(&str, &str, &str)], usize); 52] = [
    ("[foo]: /url \"title\"", &[("foo", "/url", "title")], 19),
    ("[foo]", &[], 0),
    (
        "[foo]: \n/url  \n'the title'",
        &[("foo", "/url", "the title")],
        26,
    ),
    (
        "[Foo*bar\\]]:my_(url) 'title (with parens)'",
        &[("foo*bar\\]", "my_(url)", "title (with parens)")],
        42,
    ),
    ("[Foo*bar\\]]", &[], 0),
    (
        "[Foo bar]:\n<my url>\n'title'",
        &[("foo bar", "my url", "title")],
        27,
    ),
    ("[Foo bar]", &[], 0),
    (
        "[foo]: /url '\ntitle\nline1\nline2\n'",
        &[("foo", "/url", "\ntitle\nline1\nline2\n")],
        33,
    ),
    ("[foo]: /url 'title", &[], 0),
    ("with blank line'", &[], 0),
    ("[foo]:\n/url", &[("foo", "/url", "")], 11),
    ("[foo]:", &[], 0),
    ("[foo]: <>", &[("foo", "", "")], 9),
    ("[foo]: <bar>(baz)", &[], 0),
    (
        "[foo]: /url\\bar\\*baz \"foo\\\"bar\\baz\"",
        &[("foo", "/url\\bar*baz", "foo\"bar\\baz")],
        35,
    ),
    ("[foo]: url", &[("foo", "url", "")], 10),
    (
        "[foo]: first\n[foo]: second",
        &[("foo", "first", ""), ("foo", "second", "")],
        26,
    ),
    ("[FOO]: /url", &[("foo", "/url", "")], 11),
    ("[Foo]", &[], 0),
    ("[ΑΓΩ]: /φου", &[("αγω", "/φου", "")], 17),
    ("[αγω]", &[], 0),
    ("[foo]: /url", &[("foo", "/url", "")], 11),
    ("[\nfoo\n]: /url\nbar", &[("foo", "/url", "")], 14),
    ("[foo]: /url \"title\" ok", &[], 0),
    ("[foo]: /url\n\"title\" ok", &[("foo", "/url", "")], 12),
    ("Foo\n[bar]: /baz", &[], 0),
    ("[bar]", &[], 0),
    ("bar", &[], 0),
    ("[foo]: /url\nbar", &[("foo", "/url", "")], 12),
    ("[foo]: /url\n===\n[foo]", &[("foo", "/url", "")], 12),
    (
        "[foo]: /foo-url \"foo\"\n[bar]: /bar-url\n\"bar\"\n[baz]: /baz-url",
        &[
            ("foo", "/foo-url", "foo"),
            ("bar", "/bar-url", "bar"),
            ("baz", "/baz-url", ""),
        ],
        59,
    ),
    ("[foo],\n[bar],\n[baz]", &[], 0),
    ("", &[], 0),
    ("[a]: /u", &[("a", "/u", "")], 7),
    ("[a]: /u\n", &[("a", "/u", "")], 8),
    (
        "[a]: &auml;&amp;\\* \"&quot;\\&\"",
        &[("a", "ä&*", "\"&")],
        29,
    ),
    (
        "[a]: /1\n[A]: /2 (t)\n[b]: <x y>'t\n\nu'",
        &[("a", "/1", ""), ("a", "/2", "t")],
        20,
    ),
    (
        "[a]: /1\n[b]: /2 't'\n[c]: <x y>\n\"t\nu\"\ntext [d]: /3",
        &[("a", "/1", ""), ("b", "/2", "t"), ("c", "x y", "t\nu")],
        37,
    ),
    ("[a]: /1 \"t\" x\n[b]: /2", &[], 0),
    ("[a]: /1\n\"t\" x", &[("a", "/1", "")], 8),
    ("[a]\n: /u", &[], 0),
    ("[a]:\n\n/u", &[], 0),
    ("[ a\n\tb ]: /ä \"ö\"\nü", &[("a b", "/ä", "ö")], 19),
    (
        "[\u{1E9E}]: /u\n[SS]: /v",
        &[("ss", "/u", ""), ("ss", "/v", "")],
        18,
    ),
    ("[a]: /u\n===", &[("a", "/u", "")], 8),
    ("[a]: /u \"t\"\n[b]", &[("a", "/u", "t")], 12),
    ("[\\]]: /u", &[("\\]", "/u", "")], 8),
    ("[a]: /u\n[]: /v", &[("a", "/u", "")], 8),
    ("[a]: <>", &[("a", "", "")], 7),
    ("[a]: /u (t", &[], 0),
    ("[a]: /u\n(t", &[("a", "/u", "")], 8),
    ("[a]: /u  \t\n  \"t\"  \nx", &[("a", "/u", "t")], 19),
];

/// What a text gives, with the names that are built in.
fn lead(alloc: Global, text: &str) -> Result<Leading, AllocError> {
    let entities = Entities::builtin(alloc)?;
    leading_definitions(alloc, text, &entities)
}

/// Whether the definitions that were found have these labels, URLs and titles.
fn are_defined(found: &[Definition], wanted: &[(&str, &str, &str)]) -> bool {
    for (found, (label, url, title)) in found.iter().zip(wanted) {
        if !is_defined(found, label, url, title) {
            return false;
        }
    }
    found.len() == wanted.len()
}

fn is_defined(found: &Definition, label: &str, url: &str, title: &str) -> bool {
    found.label.as_str() == label
        && found.target.url.as_str() == url
        && found.target.title.as_str() == title
}

/// Whether these definitions are given, and the rest begins there.
fn is_leading(leading: &Leading, defined: &[(&str, &str, &str)], rest: usize) -> bool {
    leading.rest == rest && are_defined(&leading.definitions, defined)
}

/// Whether a text gives these definitions, and the rest begins there.
fn is_led(
    alloc: Global,
    text: &str,
    defined: &[(&str, &str, &str)],
    rest: usize,
) -> Result<bool, AllocError> {
    let leading = lead(alloc, text)?;
    Ok(is_leading(&leading, defined, rest))
}

/// The paragraphs of the standard's section, and borders: what is defined, and where the rest begins.
#[test]
fn definitions_at_the_front(rt: HostRuntime) -> Result<(), Fail> {
    for &(text, defined, rest) in &FRONTS {
        assert!(rt; is_led(rt.alloc(), text, defined, rest)?, "at {text}");
        assert_eq!(rt; is_only_definitions(text), rest == text.len(), "at {text}");
    }
    Ok(())
}

/// A thousand definitions.
fn thousand(alloc: Global) -> Result<String, AllocError> {
    let mut text = String::new(alloc);
    for _ in 0..1000 {
        text.push_str("[a]: /u 't'\n")?;
    }
    Ok(text)
}

/// A thousand definitions in one paragraph, and a line of text.
#[test]
fn a_thousand_definitions(rt: HostRuntime) -> Result<(), Fail> {
    let mut text = thousand(rt.alloc())?;
    assert!(rt; is_only_definitions(text.as_str()));
    text.push_str("b")?;
    let leading = lead(rt.alloc(), text.as_str())?;
    assert_eq!(rt; leading.definitions.len(), 1000);
    assert_eq!(rt; leading.rest, 12000);
    assert!(rt; !is_only_definitions(text.as_str()));
    Ok(())
}
