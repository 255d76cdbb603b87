//! Each `[` of the standard's examples of links, images and definitions (CommonMark 4.7, 6.3, 6.4). What is wanted is
//! from another program.

use super::found::label_at;
use super::places::compare;

/// A place, and the end of the inside of the label there.
type Label = (usize, Option<usize>);

static INLINE_LINKS: [(&str, &[Label]); 30] = [
    ("[link](/uri \"title\")", &[(0, Some(5))]),
    ("[link](/uri)", &[(0, Some(5))]),
    ("[](./target.md)", &[(0, None)]),
    ("[link]()", &[(0, Some(5))]),
    ("[link](<>)", &[(0, Some(5))]),
    ("[]()", &[(0, None)]),
    ("[link](/my uri)", &[(0, Some(5))]),
    ("[link](</my uri>)", &[(0, Some(5))]),
    ("[link](foo\nbar)", &[(0, Some(5))]),
    ("[link](<foo\nbar>)", &[(0, Some(5))]),
    ("[a](<b)c>)", &[(0, Some(2))]),
    ("[link](<foo\\>)", &[(0, Some(5))]),
    (
        "[a](<b)c\n[a](<b)c>\n[a](<b>c)",
        &[(0, Some(2)), (9, Some(11)), (19, Some(21))],
    ),
    ("[link](\\(foo\\))", &[(0, Some(5))]),
    ("[link](foo(and(bar)))", &[(0, Some(5))]),
    ("[link](foo(and(bar))", &[(0, Some(5))]),
    ("[link](foo\\(and\\(bar\\))", &[(0, Some(5))]),
    ("[link](<foo(and(bar)>)", &[(0, Some(5))]),
    ("[link](foo\\)\\:)", &[(0, Some(5))]),
    (
        "[link](#fragment)\n\n[link](https://example.com#fragment)\n\n[link](https://example.com?foo=3#frag)",
        &[(0, Some(5)), (19, Some(24)), (57, Some(62))],
    ),
    ("[link](foo\\bar)", &[(0, Some(5))]),
    ("[link](foo%20b&auml;)", &[(0, Some(5))]),
    ("[link](\"title\")", &[(0, Some(5))]),
    (
        "[link](/url \"title\")\n[link](/url 'title')\n[link](/url (title))",
        &[(0, Some(5)), (21, Some(26)), (42, Some(47))],
    ),
    ("[link](/url \"title \\\"&quot;\")", &[(0, Some(5))]),
    ("[link](/url\u{A0}\"title\")", &[(0, Some(5))]),
    ("[link](/url \"title \"and\" title\")", &[(0, Some(5))]),
    ("[link](/url 'title \"and\" title')", &[(0, Some(5))]),
    ("[link](   /uri\n  \"title\"  )", &[(0, Some(5))]),
    ("[link] (/uri)", &[(0, Some(5))]),
];

static LINK_TEXTS: [(&str, &[Label]); 15] = [
    (
        "[link [foo [bar]]](/uri)",
        &[(0, None), (6, None), (11, Some(15))],
    ),
    ("[link] bar](/uri)", &[(0, Some(5))]),
    ("[link [bar](/uri)", &[(0, None), (6, Some(10))]),
    ("[link \\[bar](/uri)", &[(0, Some(11)), (7, Some(11))]),
    ("[link *foo **bar** `#`*](/uri)", &[(0, Some(23))]),
    ("[![moon](moon.jpg)](/uri)", &[(0, None), (2, Some(7))]),
    ("[foo [bar](/uri)](/uri)", &[(0, None), (5, Some(9))]),
    (
        "[foo *[bar [baz](/uri)](/uri)*](/uri)",
        &[(0, None), (6, None), (11, Some(15))],
    ),
    (
        "![[[foo](uri1)](uri2)](uri3)",
        &[(1, None), (2, None), (3, Some(7))],
    ),
    ("*[foo*](/uri)", &[(1, Some(6))]),
    ("[foo *bar](baz*)", &[(0, Some(9))]),
    ("*foo [bar* baz]", &[(5, Some(14))]),
    ("[foo <bar attr=\"](baz)\">", &[(0, Some(16))]),
    ("[foo`](/uri)`", &[(0, Some(5))]),
    ("[foo<https://example.com/?search=](uri)>", &[(0, Some(33))]),
];

static REFERENCES: [(&str, &[Label]); 26] = [
    (
        "[foo][bar]\n\n[bar]: /url \"title\"",
        &[(0, Some(4)), (5, Some(9)), (12, Some(16))],
    ),
    (
        "[link [foo [bar]]][ref]\n\n[ref]: /uri",
        &[
            (0, None),
            (6, None),
            (11, Some(15)),
            (18, Some(22)),
            (25, Some(29)),
        ],
    ),
    (
        "[link \\[bar][ref]\n\n[ref]: /uri",
        &[(0, Some(11)), (7, Some(11)), (12, Some(16)), (19, Some(23))],
    ),
    (
        "[link *foo **bar** `#`*][ref]\n\n[ref]: /uri",
        &[(0, Some(23)), (24, Some(28)), (31, Some(35))],
    ),
    (
        "[![moon](moon.jpg)][ref]\n\n[ref]: /uri",
        &[(0, None), (2, Some(7)), (19, Some(23)), (26, Some(30))],
    ),
    (
        "[foo [bar](/uri)][ref]\n\n[ref]: /uri",
        &[(0, None), (5, Some(9)), (17, Some(21)), (24, Some(28))],
    ),
    (
        "[foo *bar [baz][ref]*][ref]\n\n[ref]: /uri",
        &[
            (0, None),
            (10, Some(14)),
            (15, Some(19)),
            (22, Some(26)),
            (29, Some(33)),
        ],
    ),
    (
        "*[foo*][ref]\n\n[ref]: /uri",
        &[(1, Some(6)), (7, Some(11)), (14, Some(18))],
    ),
    (
        "[foo *bar][ref]*\n\n[ref]: /uri",
        &[(0, Some(9)), (10, Some(14)), (18, Some(22))],
    ),
    (
        "[foo <bar attr=\"][ref]\">\n\n[ref]: /uri",
        &[(0, Some(16)), (17, Some(21)), (26, Some(30))],
    ),
    (
        "[foo`][ref]`\n\n[ref]: /uri",
        &[(0, Some(5)), (6, Some(10)), (14, Some(18))],
    ),
    (
        "[foo<https://example.com/?search=][ref]>\n\n[ref]: /uri",
        &[(0, Some(33)), (34, Some(38)), (42, Some(46))],
    ),
    (
        "[foo][BaR]\n\n[bar]: /url \"title\"",
        &[(0, Some(4)), (5, Some(9)), (12, Some(16))],
    ),
    ("[\u{1E9E}]\n\n[SS]: /url", &[(0, Some(4)), (7, Some(10))]),
    (
        "[Foo\n  bar]: /url\n\n[Baz][Foo bar]",
        &[(0, Some(10)), (19, Some(23)), (24, Some(32))],
    ),
    (
        "[foo] [bar]\n\n[bar]: /url \"title\"",
        &[(0, Some(4)), (6, Some(10)), (13, Some(17))],
    ),
    (
        "[foo]\n[bar]\n\n[bar]: /url \"title\"",
        &[(0, Some(4)), (6, Some(10)), (13, Some(17))],
    ),
    (
        "[foo]: /url1\n\n[foo]: /url2\n\n[bar][foo]",
        &[(0, Some(4)), (14, Some(18)), (28, Some(32)), (33, Some(37))],
    ),
    (
        "[bar][foo\\!]\n\n[foo!]: /url",
        &[(0, Some(4)), (5, Some(11)), (14, Some(19))],
    ),
    (
        "[foo][ref[]\n\n[ref[]: /uri",
        &[(0, Some(4)), (5, None), (9, None), (13, None), (17, None)],
    ),
    (
        "[foo][ref[bar]]\n\n[ref[bar]]: /uri",
        &[
            (0, Some(4)),
            (5, None),
            (9, Some(13)),
            (17, None),
            (21, Some(25)),
        ],
    ),
    (
        "[[[foo]]]\n\n[[[foo]]]: /url",
        &[
            (0, None),
            (1, None),
            (2, Some(6)),
            (11, None),
            (12, None),
            (13, Some(17)),
        ],
    ),
    (
        "[foo][ref\\[]\n\n[ref\\[]: /uri",
        &[
            (0, Some(4)),
            (5, Some(11)),
            (10, None),
            (14, Some(20)),
            (19, None),
        ],
    ),
    (
        "[bar\\\\]: /uri\n\n[bar\\\\]",
        &[(0, Some(6)), (15, Some(21))],
    ),
    ("[]\n\n[]: /uri", &[(0, None), (4, None)]),
    ("[\n ]\n\n[\n ]: /uri", &[(0, None), (6, None)]),
];

static SHORTCUTS: [(&str, &[Label]); 19] = [
    (
        "[foo][]\n\n[foo]: /url \"title\"",
        &[(0, Some(4)), (5, None), (9, Some(13))],
    ),
    (
        "[*foo* bar][]\n\n[*foo* bar]: /url \"title\"",
        &[(0, Some(10)), (11, None), (15, Some(25))],
    ),
    (
        "[Foo][]\n\n[foo]: /url \"title\"",
        &[(0, Some(4)), (5, None), (9, Some(13))],
    ),
    (
        "[foo] \n[]\n\n[foo]: /url \"title\"",
        &[(0, Some(4)), (7, None), (11, Some(15))],
    ),
    (
        "[foo]\n\n[foo]: /url \"title\"",
        &[(0, Some(4)), (7, Some(11))],
    ),
    (
        "[*foo* bar]\n\n[*foo* bar]: /url \"title\"",
        &[(0, Some(10)), (13, Some(23))],
    ),
    (
        "[[*foo* bar]]\n\n[*foo* bar]: /url \"title\"",
        &[(0, None), (1, Some(11)), (15, Some(25))],
    ),
    (
        "[[bar [foo]\n\n[foo]: /url",
        &[(0, None), (1, None), (6, Some(10)), (13, Some(17))],
    ),
    (
        "[Foo]\n\n[foo]: /url \"title\"",
        &[(0, Some(4)), (7, Some(11))],
    ),
    ("[foo] bar\n\n[foo]: /url", &[(0, Some(4)), (11, Some(15))]),
    (
        "\\[foo]\n\n[foo]: /url \"title\"",
        &[(1, Some(5)), (8, Some(12))],
    ),
    ("[foo*]: /url\n\n*[foo*]", &[(0, Some(5)), (15, Some(20))]),
    (
        "[foo][bar]\n\n[foo]: /url1\n[bar]: /url2",
        &[(0, Some(4)), (5, Some(9)), (12, Some(16)), (25, Some(29))],
    ),
    (
        "[foo][]\n\n[foo]: /url1",
        &[(0, Some(4)), (5, None), (9, Some(13))],
    ),
    ("[foo]()\n\n[foo]: /url1", &[(0, Some(4)), (9, Some(13))]),
    (
        "[foo](not a link)\n\n[foo]: /url1",
        &[(0, Some(4)), (19, Some(23))],
    ),
    (
        "[foo][bar][baz]\n\n[baz]: /url",
        &[(0, Some(4)), (5, Some(9)), (10, Some(14)), (17, Some(21))],
    ),
    (
        "[foo][bar][baz]\n\n[baz]: /url1\n[bar]: /url2",
        &[
            (0, Some(4)),
            (5, Some(9)),
            (10, Some(14)),
            (17, Some(21)),
            (30, Some(34)),
        ],
    ),
    (
        "[foo][bar][baz]\n\n[baz]: /url1\n[foo]: /url2",
        &[
            (0, Some(4)),
            (5, Some(9)),
            (10, Some(14)),
            (17, Some(21)),
            (30, Some(34)),
        ],
    ),
];

static IMAGES: [(&str, &[Label]); 22] = [
    ("![foo](/url \"title\")", &[(1, Some(5))]),
    (
        "![foo *bar*]\n\n[foo *bar*]: train.jpg \"train & tracks\"",
        &[(1, Some(11)), (14, Some(24))],
    ),
    ("![foo ![bar](/url)](/url2)", &[(1, None), (7, Some(11))]),
    ("![foo [bar](/url)](/url2)", &[(1, None), (6, Some(10))]),
    (
        "![foo *bar*][]\n\n[foo *bar*]: train.jpg \"train & tracks\"",
        &[(1, Some(11)), (12, None), (16, Some(26))],
    ),
    (
        "![foo *bar*][foobar]\n\n[FOOBAR]: train.jpg \"train & tracks\"",
        &[(1, Some(11)), (12, Some(19)), (22, Some(29))],
    ),
    ("![foo](train.jpg)", &[(1, Some(5))]),
    (
        "My ![foo bar](/path/to/train.jpg  \"title\"   )",
        &[(4, Some(12))],
    ),
    ("![foo](<url>)", &[(1, Some(5))]),
    ("![](/url)", &[(1, None)]),
    (
        "![foo][bar]\n\n[bar]: /url",
        &[(1, Some(5)), (6, Some(10)), (13, Some(17))],
    ),
    (
        "![foo][bar]\n\n[BAR]: /url",
        &[(1, Some(5)), (6, Some(10)), (13, Some(17))],
    ),
    (
        "![foo][]\n\n[foo]: /url \"title\"",
        &[(1, Some(5)), (6, None), (10, Some(14))],
    ),
    (
        "![*foo* bar][]\n\n[*foo* bar]: /url \"title\"",
        &[(1, Some(11)), (12, None), (16, Some(26))],
    ),
    (
        "![Foo][]\n\n[foo]: /url \"title\"",
        &[(1, Some(5)), (6, None), (10, Some(14))],
    ),
    (
        "![foo] \n[]\n\n[foo]: /url \"title\"",
        &[(1, Some(5)), (8, None), (12, Some(16))],
    ),
    (
        "![foo]\n\n[foo]: /url \"title\"",
        &[(1, Some(5)), (8, Some(12))],
    ),
    (
        "![*foo* bar]\n\n[*foo* bar]: /url \"title\"",
        &[(1, Some(11)), (14, Some(24))],
    ),
    (
        "![[foo]]\n\n[[foo]]: /url \"title\"",
        &[(1, None), (2, Some(6)), (10, None), (11, Some(15))],
    ),
    (
        "![Foo]\n\n[foo]: /url \"title\"",
        &[(1, Some(5)), (8, Some(12))],
    ),
    (
        "!\\[foo]\n\n[foo]: /url \"title\"",
        &[(2, Some(6)), (9, Some(13))],
    ),
    (
        "\\![foo]\n\n[foo]: /url \"title\"",
        &[(2, Some(6)), (9, Some(13))],
    ),
];

static DEFINITIONS: [(&str, &[Label]); 27] = [
    (
        "[foo]: /url \"title\"\n\n[foo]",
        &[(0, Some(4)), (21, Some(25))],
    ),
    (
        "   [foo]: \n      /url  \n           'the title'  \n\n[foo]",
        &[(3, Some(7)), (50, Some(54))],
    ),
    (
        "[Foo*bar\\]]:my_(url) 'title (with parens)'\n\n[Foo*bar\\]]",
        &[(0, Some(10)), (44, Some(54))],
    ),
    (
        "[Foo bar]:\n<my url>\n'title'\n\n[Foo bar]",
        &[(0, Some(8)), (29, Some(37))],
    ),
    (
        "[foo]: /url '\ntitle\nline1\nline2\n'\n\n[foo]",
        &[(0, Some(4)), (35, Some(39))],
    ),
    (
        "[foo]: /url 'title\n\nwith blank line'\n\n[foo]",
        &[(0, Some(4)), (38, Some(42))],
    ),
    ("[foo]:\n/url\n\n[foo]", &[(0, Some(4)), (13, Some(17))]),
    ("[foo]:\n\n[foo]", &[(0, Some(4)), (8, Some(12))]),
    ("[foo]: <>\n\n[foo]", &[(0, Some(4)), (11, Some(15))]),
    (
        "[foo]: <bar>(baz)\n\n[foo]",
        &[(0, Some(4)), (19, Some(23))],
    ),
    (
        "[foo]: /url\\bar\\*baz \"foo\\\"bar\\baz\"\n\n[foo]",
        &[(0, Some(4)), (37, Some(41))],
    ),
    ("[foo]\n\n[foo]: url", &[(0, Some(4)), (7, Some(11))]),
    (
        "[foo]\n\n[foo]: first\n[foo]: second",
        &[(0, Some(4)), (7, Some(11)), (20, Some(24))],
    ),
    ("[FOO]: /url\n\n[Foo]", &[(0, Some(4)), (13, Some(17))]),
    ("[ΑΓΩ]: /φου\n\n[αγω]", &[(0, Some(7)), (19, Some(26))]),
    ("[foo]: /url", &[(0, Some(4))]),
    ("[\nfoo\n]: /url\nbar", &[(0, Some(6))]),
    ("[foo]: /url \"title\" ok", &[(0, Some(4))]),
    ("[foo]: /url\n\"title\" ok", &[(0, Some(4))]),
    (
        "    [foo]: /url \"title\"\n\n[foo]",
        &[(4, Some(8)), (25, Some(29))],
    ),
    (
        "```\n[foo]: /url\n```\n\n[foo]",
        &[(4, Some(8)), (21, Some(25))],
    ),
    ("Foo\n[bar]: /baz\n\n[bar]", &[(4, Some(8)), (17, Some(21))]),
    (
        "# [Foo]\n[foo]: /url\n> bar",
        &[(2, Some(6)), (8, Some(12))],
    ),
    (
        "[foo]: /url\nbar\n===\n[foo]",
        &[(0, Some(4)), (20, Some(24))],
    ),
    ("[foo]: /url\n===\n[foo]", &[(0, Some(4)), (16, Some(20))]),
    (
        "[foo]: /foo-url \"foo\"\n[bar]: /bar-url\n  \"bar\"\n[baz]: /baz-url\n\n[foo],\n[bar],\n[baz]",
        &[
            (0, Some(4)),
            (22, Some(26)),
            (46, Some(50)),
            (63, Some(67)),
            (70, Some(74)),
            (77, Some(81)),
        ],
    ),
    ("[foo]\n\n> [foo]: /url", &[(0, Some(4)), (9, Some(13))]),
];

/// The end of the inside of the label at a place; 0, which no row wants, where it does not begin right behind the bracket.
fn end_at(text: &str, at: usize) -> Option<usize> {
    let (start, end) = label_at(text, at)?;
    if start.checked_sub(at) == Some(1) {
        Some(end)
    } else {
        Some(0)
    }
}

#[test]
fn label_examples(rt: HostRuntime) {
    compare(&rt, end_at, &INLINE_LINKS);
    compare(&rt, end_at, &LINK_TEXTS);
    compare(&rt, end_at, &REFERENCES);
    compare(&rt, end_at, &SHORTCUTS);
    compare(&rt, end_at, &IMAGES);
    compare(&rt, end_at, &DEFINITIONS);
}
