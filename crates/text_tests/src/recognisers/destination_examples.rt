//! Each place of a destination in the standard's examples of links, images and definitions (CommonMark 4.7, 6.3, 6.4): after
//! a `](` or a `]:` and the spacing behind it. What is wanted is from another program.

use super::found::destination_at;
use super::places::compare;

/// A place, and the start and the end of the inside of what stands there, and its own end.
type Part = (usize, Option<(usize, usize, usize)>);

static INLINE_LINKS: [(&str, &[Part]); 29] = [
    ("[link](/uri \"title\")", &[(7, Some((7, 11, 11)))]),
    ("[link](/uri)", &[(7, Some((7, 11, 11)))]),
    ("[](./target.md)", &[(3, Some((3, 14, 14)))]),
    ("[link]()", &[(7, None)]),
    ("[link](<>)", &[(7, Some((8, 8, 9)))]),
    ("[]()", &[(3, None)]),
    ("[link](/my uri)", &[(7, Some((7, 10, 10)))]),
    ("[link](</my uri>)", &[(7, Some((8, 15, 16)))]),
    ("[link](foo\nbar)", &[(7, Some((7, 10, 10)))]),
    ("[link](<foo\nbar>)", &[(7, None)]),
    ("[a](<b)c>)", &[(4, Some((5, 8, 9)))]),
    ("[link](<foo\\>)", &[(7, None)]),
    (
        "[a](<b)c\n[a](<b)c>\n[a](<b>c)",
        &[
            (4, None),
            (13, Some((14, 17, 18))),
            (23, Some((24, 25, 26))),
        ],
    ),
    ("[link](\\(foo\\))", &[(7, Some((7, 14, 14)))]),
    ("[link](foo(and(bar)))", &[(7, Some((7, 20, 20)))]),
    ("[link](foo(and(bar))", &[(7, Some((7, 20, 20)))]),
    ("[link](foo\\(and\\(bar\\))", &[(7, Some((7, 22, 22)))]),
    ("[link](<foo(and(bar)>)", &[(7, Some((8, 20, 21)))]),
    ("[link](foo\\)\\:)", &[(7, Some((7, 14, 14)))]),
    (
        "[link](#fragment)\n\n[link](https://example.com#fragment)\n\n[link](https://example.com?foo=3#frag)",
        &[
            (7, Some((7, 16, 16))),
            (26, Some((26, 54, 54))),
            (64, Some((64, 94, 94))),
        ],
    ),
    ("[link](foo\\bar)", &[(7, Some((7, 14, 14)))]),
    ("[link](foo%20b&auml;)", &[(7, Some((7, 20, 20)))]),
    ("[link](\"title\")", &[(7, Some((7, 14, 14)))]),
    (
        "[link](/url \"title\")\n[link](/url 'title')\n[link](/url (title))",
        &[
            (7, Some((7, 11, 11))),
            (28, Some((28, 32, 32))),
            (49, Some((49, 53, 53))),
        ],
    ),
    (
        "[link](/url \"title \\\"&quot;\")",
        &[(7, Some((7, 11, 11)))],
    ),
    ("[link](/url\u{A0}\"title\")", &[(7, Some((7, 20, 20)))]),
    (
        "[link](/url \"title \"and\" title\")",
        &[(7, Some((7, 11, 11)))],
    ),
    (
        "[link](/url 'title \"and\" title')",
        &[(7, Some((7, 11, 11)))],
    ),
    (
        "[link](   /uri\n  \"title\"  )",
        &[(10, Some((10, 14, 14)))],
    ),
];

static LINK_TEXTS: [(&str, &[Part]); 14] = [
    ("[link [foo [bar]]](/uri)", &[(19, Some((19, 23, 23)))]),
    ("[link] bar](/uri)", &[(12, Some((12, 16, 16)))]),
    ("[link [bar](/uri)", &[(12, Some((12, 16, 16)))]),
    ("[link \\[bar](/uri)", &[(13, Some((13, 17, 17)))]),
    (
        "[link *foo **bar** `#`*](/uri)",
        &[(25, Some((25, 29, 29)))],
    ),
    (
        "[![moon](moon.jpg)](/uri)",
        &[(9, Some((9, 17, 17))), (20, Some((20, 24, 24)))],
    ),
    (
        "[foo [bar](/uri)](/uri)",
        &[(11, Some((11, 15, 15))), (18, Some((18, 22, 22)))],
    ),
    (
        "[foo *[bar [baz](/uri)](/uri)*](/uri)",
        &[
            (17, Some((17, 21, 21))),
            (24, Some((24, 28, 28))),
            (32, Some((32, 36, 36))),
        ],
    ),
    (
        "![[[foo](uri1)](uri2)](uri3)",
        &[
            (9, Some((9, 13, 13))),
            (16, Some((16, 20, 20))),
            (23, Some((23, 27, 27))),
        ],
    ),
    ("*[foo*](/uri)", &[(8, Some((8, 12, 12)))]),
    ("[foo *bar](baz*)", &[(11, Some((11, 15, 15)))]),
    ("[foo <bar attr=\"](baz)\">", &[(18, Some((18, 21, 21)))]),
    ("[foo`](/uri)`", &[(7, Some((7, 11, 11)))]),
    (
        "[foo<https://example.com/?search=](uri)>",
        &[(35, Some((35, 38, 38)))],
    ),
];

static REFERENCES: [(&str, &[Part]); 26] = [
    (
        "[foo][bar]\n\n[bar]: /url \"title\"",
        &[(19, Some((19, 23, 23)))],
    ),
    (
        "[link [foo [bar]]][ref]\n\n[ref]: /uri",
        &[(32, Some((32, 36, 36)))],
    ),
    (
        "[link \\[bar][ref]\n\n[ref]: /uri",
        &[(26, Some((26, 30, 30)))],
    ),
    (
        "[link *foo **bar** `#`*][ref]\n\n[ref]: /uri",
        &[(38, Some((38, 42, 42)))],
    ),
    (
        "[![moon](moon.jpg)][ref]\n\n[ref]: /uri",
        &[(9, Some((9, 17, 17))), (33, Some((33, 37, 37)))],
    ),
    (
        "[foo [bar](/uri)][ref]\n\n[ref]: /uri",
        &[(11, Some((11, 15, 15))), (31, Some((31, 35, 35)))],
    ),
    (
        "[foo *bar [baz][ref]*][ref]\n\n[ref]: /uri",
        &[(36, Some((36, 40, 40)))],
    ),
    ("*[foo*][ref]\n\n[ref]: /uri", &[(21, Some((21, 25, 25)))]),
    (
        "[foo *bar][ref]*\n\n[ref]: /uri",
        &[(25, Some((25, 29, 29)))],
    ),
    (
        "[foo <bar attr=\"][ref]\">\n\n[ref]: /uri",
        &[(33, Some((33, 37, 37)))],
    ),
    ("[foo`][ref]`\n\n[ref]: /uri", &[(21, Some((21, 25, 25)))]),
    (
        "[foo<https://example.com/?search=][ref]>\n\n[ref]: /uri",
        &[(49, Some((49, 53, 53)))],
    ),
    (
        "[foo][BaR]\n\n[bar]: /url \"title\"",
        &[(19, Some((19, 23, 23)))],
    ),
    ("[\u{1E9E}]\n\n[SS]: /url", &[(13, Some((13, 17, 17)))]),
    (
        "[Foo\n  bar]: /url\n\n[Baz][Foo bar]",
        &[(13, Some((13, 17, 17)))],
    ),
    (
        "[foo] [bar]\n\n[bar]: /url \"title\"",
        &[(20, Some((20, 24, 24)))],
    ),
    (
        "[foo]\n[bar]\n\n[bar]: /url \"title\"",
        &[(20, Some((20, 24, 24)))],
    ),
    (
        "[foo]: /url1\n\n[foo]: /url2\n\n[bar][foo]",
        &[(7, Some((7, 12, 12))), (21, Some((21, 26, 26)))],
    ),
    ("[bar][foo\\!]\n\n[foo!]: /url", &[(22, Some((22, 26, 26)))]),
    ("[foo][ref[]\n\n[ref[]: /uri", &[(21, Some((21, 25, 25)))]),
    (
        "[foo][ref[bar]]\n\n[ref[bar]]: /uri",
        &[(29, Some((29, 33, 33)))],
    ),
    ("[[[foo]]]\n\n[[[foo]]]: /url", &[(22, Some((22, 26, 26)))]),
    (
        "[foo][ref\\[]\n\n[ref\\[]: /uri",
        &[(23, Some((23, 27, 27)))],
    ),
    ("[bar\\\\]: /uri\n\n[bar\\\\]", &[(9, Some((9, 13, 13)))]),
    ("[]\n\n[]: /uri", &[(8, Some((8, 12, 12)))]),
    ("[\n ]\n\n[\n ]: /uri", &[(12, Some((12, 16, 16)))]),
];

static SHORTCUTS: [(&str, &[Part]); 19] = [
    (
        "[foo][]\n\n[foo]: /url \"title\"",
        &[(16, Some((16, 20, 20)))],
    ),
    (
        "[*foo* bar][]\n\n[*foo* bar]: /url \"title\"",
        &[(28, Some((28, 32, 32)))],
    ),
    (
        "[Foo][]\n\n[foo]: /url \"title\"",
        &[(16, Some((16, 20, 20)))],
    ),
    (
        "[foo] \n[]\n\n[foo]: /url \"title\"",
        &[(18, Some((18, 22, 22)))],
    ),
    (
        "[foo]\n\n[foo]: /url \"title\"",
        &[(14, Some((14, 18, 18)))],
    ),
    (
        "[*foo* bar]\n\n[*foo* bar]: /url \"title\"",
        &[(26, Some((26, 30, 30)))],
    ),
    (
        "[[*foo* bar]]\n\n[*foo* bar]: /url \"title\"",
        &[(28, Some((28, 32, 32)))],
    ),
    ("[[bar [foo]\n\n[foo]: /url", &[(20, Some((20, 24, 24)))]),
    (
        "[Foo]\n\n[foo]: /url \"title\"",
        &[(14, Some((14, 18, 18)))],
    ),
    ("[foo] bar\n\n[foo]: /url", &[(18, Some((18, 22, 22)))]),
    (
        "\\[foo]\n\n[foo]: /url \"title\"",
        &[(15, Some((15, 19, 19)))],
    ),
    ("[foo*]: /url\n\n*[foo*]", &[(8, Some((8, 12, 12)))]),
    (
        "[foo][bar]\n\n[foo]: /url1\n[bar]: /url2",
        &[(19, Some((19, 24, 24))), (32, Some((32, 37, 37)))],
    ),
    ("[foo][]\n\n[foo]: /url1", &[(16, Some((16, 21, 21)))]),
    (
        "[foo]()\n\n[foo]: /url1",
        &[(6, None), (16, Some((16, 21, 21)))],
    ),
    (
        "[foo](not a link)\n\n[foo]: /url1",
        &[(6, Some((6, 9, 9))), (26, Some((26, 31, 31)))],
    ),
    (
        "[foo][bar][baz]\n\n[baz]: /url",
        &[(24, Some((24, 28, 28)))],
    ),
    (
        "[foo][bar][baz]\n\n[baz]: /url1\n[bar]: /url2",
        &[(24, Some((24, 29, 29))), (37, Some((37, 42, 42)))],
    ),
    (
        "[foo][bar][baz]\n\n[baz]: /url1\n[foo]: /url2",
        &[(24, Some((24, 29, 29))), (37, Some((37, 42, 42)))],
    ),
];

static IMAGES: [(&str, &[Part]); 22] = [
    ("![foo](/url \"title\")", &[(7, Some((7, 11, 11)))]),
    (
        "![foo *bar*]\n\n[foo *bar*]: train.jpg \"train & tracks\"",
        &[(27, Some((27, 36, 36)))],
    ),
    (
        "![foo ![bar](/url)](/url2)",
        &[(13, Some((13, 17, 17))), (20, Some((20, 25, 25)))],
    ),
    (
        "![foo [bar](/url)](/url2)",
        &[(12, Some((12, 16, 16))), (19, Some((19, 24, 24)))],
    ),
    (
        "![foo *bar*][]\n\n[foo *bar*]: train.jpg \"train & tracks\"",
        &[(29, Some((29, 38, 38)))],
    ),
    (
        "![foo *bar*][foobar]\n\n[FOOBAR]: train.jpg \"train & tracks\"",
        &[(32, Some((32, 41, 41)))],
    ),
    ("![foo](train.jpg)", &[(7, Some((7, 16, 16)))]),
    (
        "My ![foo bar](/path/to/train.jpg  \"title\"   )",
        &[(14, Some((14, 32, 32)))],
    ),
    ("![foo](<url>)", &[(7, Some((8, 11, 12)))]),
    ("![](/url)", &[(4, Some((4, 8, 8)))]),
    ("![foo][bar]\n\n[bar]: /url", &[(20, Some((20, 24, 24)))]),
    ("![foo][bar]\n\n[BAR]: /url", &[(20, Some((20, 24, 24)))]),
    (
        "![foo][]\n\n[foo]: /url \"title\"",
        &[(17, Some((17, 21, 21)))],
    ),
    (
        "![*foo* bar][]\n\n[*foo* bar]: /url \"title\"",
        &[(29, Some((29, 33, 33)))],
    ),
    (
        "![Foo][]\n\n[foo]: /url \"title\"",
        &[(17, Some((17, 21, 21)))],
    ),
    (
        "![foo] \n[]\n\n[foo]: /url \"title\"",
        &[(19, Some((19, 23, 23)))],
    ),
    (
        "![foo]\n\n[foo]: /url \"title\"",
        &[(15, Some((15, 19, 19)))],
    ),
    (
        "![*foo* bar]\n\n[*foo* bar]: /url \"title\"",
        &[(27, Some((27, 31, 31)))],
    ),
    (
        "![[foo]]\n\n[[foo]]: /url \"title\"",
        &[(19, Some((19, 23, 23)))],
    ),
    (
        "![Foo]\n\n[foo]: /url \"title\"",
        &[(15, Some((15, 19, 19)))],
    ),
    (
        "!\\[foo]\n\n[foo]: /url \"title\"",
        &[(16, Some((16, 20, 20)))],
    ),
    (
        "\\![foo]\n\n[foo]: /url \"title\"",
        &[(16, Some((16, 20, 20)))],
    ),
];

static DEFINITIONS: [(&str, &[Part]); 27] = [
    ("[foo]: /url \"title\"\n\n[foo]", &[(7, Some((7, 11, 11)))]),
    (
        "   [foo]: \n      /url  \n           'the title'  \n\n[foo]",
        &[(17, Some((17, 21, 21)))],
    ),
    (
        "[Foo*bar\\]]:my_(url) 'title (with parens)'\n\n[Foo*bar\\]]",
        &[(12, Some((12, 20, 20)))],
    ),
    (
        "[Foo bar]:\n<my url>\n'title'\n\n[Foo bar]",
        &[(11, Some((12, 18, 19)))],
    ),
    (
        "[foo]: /url '\ntitle\nline1\nline2\n'\n\n[foo]",
        &[(7, Some((7, 11, 11)))],
    ),
    (
        "[foo]: /url 'title\n\nwith blank line'\n\n[foo]",
        &[(7, Some((7, 11, 11)))],
    ),
    ("[foo]:\n/url\n\n[foo]", &[(7, Some((7, 11, 11)))]),
    ("[foo]:\n\n[foo]", &[(7, None)]),
    ("[foo]: <>\n\n[foo]", &[(7, Some((8, 8, 9)))]),
    ("[foo]: <bar>(baz)\n\n[foo]", &[(7, Some((8, 11, 12)))]),
    (
        "[foo]: /url\\bar\\*baz \"foo\\\"bar\\baz\"\n\n[foo]",
        &[(7, Some((7, 20, 20)))],
    ),
    ("[foo]\n\n[foo]: url", &[(14, Some((14, 17, 17)))]),
    (
        "[foo]\n\n[foo]: first\n[foo]: second",
        &[(14, Some((14, 19, 19))), (27, Some((27, 33, 33)))],
    ),
    ("[FOO]: /url\n\n[Foo]", &[(7, Some((7, 11, 11)))]),
    ("[ΑΓΩ]: /φου\n\n[αγω]", &[(10, Some((10, 17, 17)))]),
    ("[foo]: /url", &[(7, Some((7, 11, 11)))]),
    ("[\nfoo\n]: /url\nbar", &[(9, Some((9, 13, 13)))]),
    ("[foo]: /url \"title\" ok", &[(7, Some((7, 11, 11)))]),
    ("[foo]: /url\n\"title\" ok", &[(7, Some((7, 11, 11)))]),
    (
        "    [foo]: /url \"title\"\n\n[foo]",
        &[(11, Some((11, 15, 15)))],
    ),
    (
        "```\n[foo]: /url\n```\n\n[foo]",
        &[(11, Some((11, 15, 15)))],
    ),
    ("Foo\n[bar]: /baz\n\n[bar]", &[(11, Some((11, 15, 15)))]),
    ("# [Foo]\n[foo]: /url\n> bar", &[(15, Some((15, 19, 19)))]),
    ("[foo]: /url\nbar\n===\n[foo]", &[(7, Some((7, 11, 11)))]),
    ("[foo]: /url\n===\n[foo]", &[(7, Some((7, 11, 11)))]),
    (
        "[foo]: /foo-url \"foo\"\n[bar]: /bar-url\n  \"bar\"\n[baz]: /baz-url\n\n[foo],\n[bar],\n[baz]",
        &[
            (7, Some((7, 15, 15))),
            (29, Some((29, 37, 37))),
            (53, Some((53, 61, 61))),
        ],
    ),
    ("[foo]\n\n> [foo]: /url", &[(16, Some((16, 20, 20)))]),
];

#[test]
fn destination_examples(rt: HostRuntime) {
    compare(&rt, destination_at, &INLINE_LINKS);
    compare(&rt, destination_at, &LINK_TEXTS);
    compare(&rt, destination_at, &REFERENCES);
    compare(&rt, destination_at, &SHORTCUTS);
    compare(&rt, destination_at, &IMAGES);
    compare(&rt, destination_at, &DEFINITIONS);
}
