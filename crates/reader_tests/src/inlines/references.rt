//! References (CommonMark 6.3, 6.4): examples of the standard with the definitions of each, as trees.

use super::rows::{Defined, check_defined};
use std::test::Fail;

static FULL: [Defined; 21] = [
    (
        "[foo][bar]",
        &[("bar", "/url", "title")],
        "[Link(Target { url: \"/url\", title: \"title\" }, [Text(\"foo\")])]",
    ),
    (
        "[link [foo [bar]]][ref]",
        &[("ref", "/uri", "")],
        "[Link(Target { url: \"/uri\", title: \"\" }, [Text(\"link [foo [bar]]\")])]",
    ),
    (
        "[link \\[bar][ref]",
        &[("ref", "/uri", "")],
        "[Link(Target { url: \"/uri\", title: \"\" }, [Text(\"link [bar\")])]",
    ),
    (
        "[link *foo **bar** `#`*][ref]",
        &[("ref", "/uri", "")],
        "[Link(Target { url: \"/uri\", title: \"\" }, [Text(\"link \"), Emph([Text(\"foo \"), Strong([Text(\"bar\")]), Text(\" \"), Code(\"#\")])])]",
    ),
    (
        "[![moon](moon.jpg)][ref]",
        &[("ref", "/uri", "")],
        "[Link(Target { url: \"/uri\", title: \"\" }, [Image(Target { url: \"moon.jpg\", title: \"\" }, [Text(\"moon\")])])]",
    ),
    (
        "[foo [bar](/uri)][ref]",
        &[("ref", "/uri", "")],
        "[Text(\"[foo \"), Link(Target { url: \"/uri\", title: \"\" }, [Text(\"bar\")]), Text(\"]\"), Link(Target { url: \"/uri\", \
        title: \"\" }, [Text(\"ref\")])]",
    ),
    (
        "[foo *bar [baz][ref]*][ref]",
        &[("ref", "/uri", "")],
        "[Text(\"[foo \"), Emph([Text(\"bar \"), Link(Target { url: \"/uri\", title: \"\" }, [Text(\"baz\")])]), \
        Text(\"]\"), Link(Target { url: \"/uri\", title: \"\" }, [Text(\"ref\")])]",
    ),
    (
        "*[foo*][ref]",
        &[("ref", "/uri", "")],
        "[Text(\"*\"), Link(Target { url: \"/uri\", title: \"\" }, [Text(\"foo*\")])]",
    ),
    (
        "[foo *bar][ref]*",
        &[("ref", "/uri", "")],
        "[Link(Target { url: \"/uri\", title: \"\" }, [Text(\"foo *bar\")]), Text(\"*\")]",
    ),
    (
        "[foo <bar attr=\"][ref]\">",
        &[("ref", "/uri", "")],
        "[Text(\"[foo \"), Html(\"<bar attr=\\\"][ref]\\\">\")]",
    ),
    (
        "[foo`][ref]`",
        &[("ref", "/uri", "")],
        "[Text(\"[foo\"), Code(\"][ref]\")]",
    ),
    (
        "[foo<https://example.com/?search=][ref]>",
        &[("ref", "/uri", "")],
        "[Text(\"[foo\"), Link(Target { url: \"https://example.com/?search=][ref]\", title: \"\" }, [Text(\"https://example.com/?search=][ref]\")])]",
    ),
    (
        "[foo][BaR]",
        &[("bar", "/url", "title")],
        "[Link(Target { url: \"/url\", title: \"title\" }, [Text(\"foo\")])]",
    ),
    (
        "[ẞ]",
        &[("ss", "/url", "")],
        "[Link(Target { url: \"/url\", title: \"\" }, [Text(\"ẞ\")])]",
    ),
    (
        "[Baz][Foo bar]",
        &[("foo bar", "/url", "")],
        "[Link(Target { url: \"/url\", title: \"\" }, [Text(\"Baz\")])]",
    ),
    (
        "[foo] [bar]",
        &[("bar", "/url", "title")],
        "[Text(\"[foo] \"), Link(Target { url: \"/url\", title: \"title\" }, [Text(\"bar\")])]",
    ),
    (
        "[foo]\n[bar]",
        &[("bar", "/url", "title")],
        "[Text(\"[foo]\"), Soft, Link(Target { url: \"/url\", title: \"title\" }, [Text(\"bar\")])]",
    ),
    (
        "[bar][foo]",
        &[("foo", "/url1", "")],
        "[Link(Target { url: \"/url1\", title: \"\" }, [Text(\"bar\")])]",
    ),
    (
        "[bar][foo\\!]",
        &[("foo!", "/url", "")],
        "[Text(\"[bar][foo!]\")]",
    ),
    (
        "[foo][ref\\[]",
        &[("ref\\[", "/uri", "")],
        "[Link(Target { url: \"/uri\", title: \"\" }, [Text(\"foo\")])]",
    ),
    (
        "[bar\\\\]",
        &[("bar\\\\", "/uri", "")],
        "[Link(Target { url: \"/uri\", title: \"\" }, [Text(\"bar\\\\\")])]",
    ),
];

static COLLAPSED_AND_SHORTCUT: [Defined; 21] = [
    (
        "[foo][]",
        &[("foo", "/url", "title")],
        "[Link(Target { url: \"/url\", title: \"title\" }, [Text(\"foo\")])]",
    ),
    (
        "[*foo* bar][]",
        &[("*foo* bar", "/url", "title")],
        "[Link(Target { url: \"/url\", title: \"title\" }, [Emph([Text(\"foo\")]), Text(\" bar\")])]",
    ),
    (
        "[Foo][]",
        &[("foo", "/url", "title")],
        "[Link(Target { url: \"/url\", title: \"title\" }, [Text(\"Foo\")])]",
    ),
    (
        "[foo] \n[]",
        &[("foo", "/url", "title")],
        "[Link(Target { url: \"/url\", title: \"title\" }, [Text(\"foo\")]), Soft, Text(\"[]\")]",
    ),
    (
        "[foo]",
        &[("foo", "/url", "title")],
        "[Link(Target { url: \"/url\", title: \"title\" }, [Text(\"foo\")])]",
    ),
    (
        "[*foo* bar]",
        &[("*foo* bar", "/url", "title")],
        "[Link(Target { url: \"/url\", title: \"title\" }, [Emph([Text(\"foo\")]), Text(\" bar\")])]",
    ),
    (
        "[[*foo* bar]]",
        &[("*foo* bar", "/url", "title")],
        "[Text(\"[\"), Link(Target { url: \"/url\", title: \"title\" }, [Emph([Text(\"foo\")]), Text(\" bar\")]), Text(\"]\")]",
    ),
    (
        "[[bar [foo]",
        &[("foo", "/url", "")],
        "[Text(\"[[bar \"), Link(Target { url: \"/url\", title: \"\" }, [Text(\"foo\")])]",
    ),
    (
        "[Foo]",
        &[("foo", "/url", "title")],
        "[Link(Target { url: \"/url\", title: \"title\" }, [Text(\"Foo\")])]",
    ),
    (
        "[foo] bar",
        &[("foo", "/url", "")],
        "[Link(Target { url: \"/url\", title: \"\" }, [Text(\"foo\")]), Text(\" bar\")]",
    ),
    ("\\[foo]", &[("foo", "/url", "title")], "[Text(\"[foo]\")]"),
    (
        "*[foo*]",
        &[("foo*", "/url", "")],
        "[Text(\"*\"), Link(Target { url: \"/url\", title: \"\" }, [Text(\"foo*\")])]",
    ),
    (
        "[foo][bar]",
        &[("foo", "/url1", ""), ("bar", "/url2", "")],
        "[Link(Target { url: \"/url2\", title: \"\" }, [Text(\"foo\")])]",
    ),
    (
        "[foo][]",
        &[("foo", "/url1", "")],
        "[Link(Target { url: \"/url1\", title: \"\" }, [Text(\"foo\")])]",
    ),
    (
        "[foo]()",
        &[("foo", "/url1", "")],
        "[Link(Target { url: \"\", title: \"\" }, [Text(\"foo\")])]",
    ),
    (
        "[foo](not a link)",
        &[("foo", "/url1", "")],
        "[Link(Target { url: \"/url1\", title: \"\" }, [Text(\"foo\")]), Text(\"(not a link)\")]",
    ),
    (
        "[foo][bar][baz]",
        &[("baz", "/url", "")],
        "[Text(\"[foo]\"), Link(Target { url: \"/url\", title: \"\" }, [Text(\"bar\")])]",
    ),
    (
        "[foo][bar][baz]",
        &[("baz", "/url1", ""), ("bar", "/url2", "")],
        "[Link(Target { url: \"/url2\", title: \"\" }, [Text(\"foo\")]), Link(Target { url: \"/url1\", title: \"\" }, [Text(\"baz\")])]",
    ),
    (
        "[foo][bar][baz]",
        &[("baz", "/url1", ""), ("foo", "/url2", "")],
        "[Text(\"[foo]\"), Link(Target { url: \"/url1\", title: \"\" }, [Text(\"bar\")])]",
    ),
    (
        "[foo]",
        &[("foo", "/bar*", "ti*tle")],
        "[Link(Target { url: \"/bar*\", title: \"ti*tle\" }, [Text(\"foo\")])]",
    ),
    (
        "[foo]",
        &[("foo", "/föö", "föö")],
        "[Link(Target { url: \"/föö\", title: \"föö\" }, [Text(\"foo\")])]",
    ),
];

static IMAGES: [Defined; 13] = [
    (
        "![foo *bar*]",
        &[("foo *bar*", "train.jpg", "train & tracks")],
        "[Image(Target { url: \"train.jpg\", title: \"train & tracks\" }, [Text(\"foo \"), Emph([Text(\"bar\")])])]",
    ),
    (
        "![foo *bar*][]",
        &[("foo *bar*", "train.jpg", "train & tracks")],
        "[Image(Target { url: \"train.jpg\", title: \"train & tracks\" }, [Text(\"foo \"), Emph([Text(\"bar\")])])]",
    ),
    (
        "![foo *bar*][foobar]",
        &[("foobar", "train.jpg", "train & tracks")],
        "[Image(Target { url: \"train.jpg\", title: \"train & tracks\" }, [Text(\"foo \"), Emph([Text(\"bar\")])])]",
    ),
    (
        "![foo][bar]",
        &[("bar", "/url", "")],
        "[Image(Target { url: \"/url\", title: \"\" }, [Text(\"foo\")])]",
    ),
    (
        "![foo][]",
        &[("foo", "/url", "title")],
        "[Image(Target { url: \"/url\", title: \"title\" }, [Text(\"foo\")])]",
    ),
    (
        "![*foo* bar][]",
        &[("*foo* bar", "/url", "title")],
        "[Image(Target { url: \"/url\", title: \"title\" }, [Emph([Text(\"foo\")]), Text(\" bar\")])]",
    ),
    (
        "![Foo][]",
        &[("foo", "/url", "title")],
        "[Image(Target { url: \"/url\", title: \"title\" }, [Text(\"Foo\")])]",
    ),
    (
        "![foo] \n[]",
        &[("foo", "/url", "title")],
        "[Image(Target { url: \"/url\", title: \"title\" }, [Text(\"foo\")]), Soft, Text(\"[]\")]",
    ),
    (
        "![foo]",
        &[("foo", "/url", "title")],
        "[Image(Target { url: \"/url\", title: \"title\" }, [Text(\"foo\")])]",
    ),
    (
        "![*foo* bar]",
        &[("*foo* bar", "/url", "title")],
        "[Image(Target { url: \"/url\", title: \"title\" }, [Emph([Text(\"foo\")]), Text(\" bar\")])]",
    ),
    (
        "![Foo]",
        &[("foo", "/url", "title")],
        "[Image(Target { url: \"/url\", title: \"title\" }, [Text(\"Foo\")])]",
    ),
    (
        "!\\[foo]",
        &[("foo", "/url", "title")],
        "[Text(\"![foo]\")]",
    ),
    (
        "\\![foo]",
        &[("foo", "/url", "title")],
        "[Text(\"!\"), Link(Target { url: \"/url\", title: \"title\" }, [Text(\"foo\")])]",
    ),
];

#[test]
fn references_are_read(rt: HostRuntime) -> Result<(), Fail> {
    check_defined(&rt, rt.alloc(), &FULL)?;
    check_defined(&rt, rt.alloc(), &COLLAPSED_AND_SHORTCUT)?;
    check_defined(&rt, rt.alloc(), &IMAGES)
}
