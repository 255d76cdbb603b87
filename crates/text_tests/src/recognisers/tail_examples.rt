//! Each `(` after a `]` of the standard's examples of links and images (CommonMark 6.3, 6.4). What is wanted is from
//! another program.

use super::found::{Pair, tail_at};
use super::places::compare;

/// A place, and the destination, the title and the end of the inline tail there.
type Inline = (usize, Option<(Option<Pair>, Option<Pair>, usize)>);

static LINKS: [(&str, &[Inline]); 47] = [
    (
        "[link](/uri \"title\")",
        &[(6, Some((Some((7, 11)), Some((13, 18)), 20)))],
    ),
    ("[link](/uri)", &[(6, Some((Some((7, 11)), None, 12)))]),
    ("[](./target.md)", &[(2, Some((Some((3, 14)), None, 15)))]),
    ("[link]()", &[(6, Some((None, None, 8)))]),
    ("[link](<>)", &[(6, Some((Some((8, 8)), None, 10)))]),
    ("[]()", &[(2, Some((None, None, 4)))]),
    ("[link](/my uri)", &[(6, None)]),
    ("[link](</my uri>)", &[(6, Some((Some((8, 15)), None, 17)))]),
    ("[link](foo\nbar)", &[(6, None)]),
    ("[link](<foo\nbar>)", &[(6, None)]),
    ("[a](<b)c>)", &[(3, Some((Some((5, 8)), None, 10)))]),
    ("[link](<foo\\>)", &[(6, None)]),
    (
        "[a](<b)c\n[a](<b)c>\n[a](<b>c)",
        &[(3, None), (12, None), (22, None)],
    ),
    ("[link](\\(foo\\))", &[(6, Some((Some((7, 14)), None, 15)))]),
    (
        "[link](foo(and(bar)))",
        &[(6, Some((Some((7, 20)), None, 21)))],
    ),
    ("[link](foo(and(bar))", &[(6, None)]),
    (
        "[link](foo\\(and\\(bar\\))",
        &[(6, Some((Some((7, 22)), None, 23)))],
    ),
    (
        "[link](<foo(and(bar)>)",
        &[(6, Some((Some((8, 20)), None, 22)))],
    ),
    ("[link](foo\\)\\:)", &[(6, Some((Some((7, 14)), None, 15)))]),
    (
        "[link](#fragment)\n\n[link](https://example.com#fragment)\n\n[link](https://example.com?foo=3#frag)",
        &[
            (6, Some((Some((7, 16)), None, 17))),
            (25, Some((Some((26, 54)), None, 55))),
            (63, Some((Some((64, 94)), None, 95))),
        ],
    ),
    ("[link](foo\\bar)", &[(6, Some((Some((7, 14)), None, 15)))]),
    (
        "[link](foo%20b&auml;)",
        &[(6, Some((Some((7, 20)), None, 21)))],
    ),
    ("[link](\"title\")", &[(6, Some((Some((7, 14)), None, 15)))]),
    (
        "[link](/url \"title\")\n[link](/url 'title')\n[link](/url (title))",
        &[
            (6, Some((Some((7, 11)), Some((13, 18)), 20))),
            (27, Some((Some((28, 32)), Some((34, 39)), 41))),
            (48, Some((Some((49, 53)), Some((55, 60)), 62))),
        ],
    ),
    (
        "[link](/url \"title \\\"&quot;\")",
        &[(6, Some((Some((7, 11)), Some((13, 27)), 29)))],
    ),
    (
        "[link](/url\u{A0}\"title\")",
        &[(6, Some((Some((7, 20)), None, 21)))],
    ),
    ("[link](/url \"title \"and\" title\")", &[(6, None)]),
    (
        "[link](/url 'title \"and\" title')",
        &[(6, Some((Some((7, 11)), Some((13, 30)), 32)))],
    ),
    (
        "[link](   /uri\n  \"title\"  )",
        &[(6, Some((Some((10, 14)), Some((18, 23)), 27)))],
    ),
    (
        "[link [foo [bar]]](/uri)",
        &[(18, Some((Some((19, 23)), None, 24)))],
    ),
    (
        "[link] bar](/uri)",
        &[(11, Some((Some((12, 16)), None, 17)))],
    ),
    (
        "[link [bar](/uri)",
        &[(11, Some((Some((12, 16)), None, 17)))],
    ),
    (
        "[link \\[bar](/uri)",
        &[(12, Some((Some((13, 17)), None, 18)))],
    ),
    (
        "[link *foo **bar** `#`*](/uri)",
        &[(24, Some((Some((25, 29)), None, 30)))],
    ),
    (
        "[![moon](moon.jpg)](/uri)",
        &[
            (8, Some((Some((9, 17)), None, 18))),
            (19, Some((Some((20, 24)), None, 25))),
        ],
    ),
    (
        "[foo [bar](/uri)](/uri)",
        &[
            (10, Some((Some((11, 15)), None, 16))),
            (17, Some((Some((18, 22)), None, 23))),
        ],
    ),
    (
        "[foo *[bar [baz](/uri)](/uri)*](/uri)",
        &[
            (16, Some((Some((17, 21)), None, 22))),
            (23, Some((Some((24, 28)), None, 29))),
            (31, Some((Some((32, 36)), None, 37))),
        ],
    ),
    (
        "![[[foo](uri1)](uri2)](uri3)",
        &[
            (8, Some((Some((9, 13)), None, 14))),
            (15, Some((Some((16, 20)), None, 21))),
            (22, Some((Some((23, 27)), None, 28))),
        ],
    ),
    ("*[foo*](/uri)", &[(7, Some((Some((8, 12)), None, 13)))]),
    (
        "[foo *bar](baz*)",
        &[(10, Some((Some((11, 15)), None, 16)))],
    ),
    (
        "[foo <bar attr=\"](baz)\">",
        &[(17, Some((Some((18, 21)), None, 22)))],
    ),
    ("[foo`](/uri)`", &[(6, Some((Some((7, 11)), None, 12)))]),
    (
        "[foo<https://example.com/?search=](uri)>",
        &[(34, Some((Some((35, 38)), None, 39)))],
    ),
    (
        "[![moon](moon.jpg)][ref]\n\n[ref]: /uri",
        &[(8, Some((Some((9, 17)), None, 18)))],
    ),
    (
        "[foo [bar](/uri)][ref]\n\n[ref]: /uri",
        &[(10, Some((Some((11, 15)), None, 16)))],
    ),
    ("[foo]()\n\n[foo]: /url1", &[(5, Some((None, None, 7)))]),
    ("[foo](not a link)\n\n[foo]: /url1", &[(5, None)]),
];

static IMAGES: [(&str, &[Inline]); 7] = [
    (
        "![foo](/url \"title\")",
        &[(6, Some((Some((7, 11)), Some((13, 18)), 20)))],
    ),
    (
        "![foo ![bar](/url)](/url2)",
        &[
            (12, Some((Some((13, 17)), None, 18))),
            (19, Some((Some((20, 25)), None, 26))),
        ],
    ),
    (
        "![foo [bar](/url)](/url2)",
        &[
            (11, Some((Some((12, 16)), None, 17))),
            (18, Some((Some((19, 24)), None, 25))),
        ],
    ),
    ("![foo](train.jpg)", &[(6, Some((Some((7, 16)), None, 17)))]),
    (
        "My ![foo bar](/path/to/train.jpg  \"title\"   )",
        &[(13, Some((Some((14, 32)), Some((35, 40)), 45)))],
    ),
    ("![foo](<url>)", &[(6, Some((Some((8, 11)), None, 13)))]),
    ("![](/url)", &[(3, Some((Some((4, 8)), None, 9)))]),
];

#[test]
fn tail_examples(rt: HostRuntime) {
    compare(&rt, tail_at, &LINKS);
    compare(&rt, tail_at, &IMAGES);
}
