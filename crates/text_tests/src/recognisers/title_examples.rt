//! Each place of a title in the standard's examples of links, images and definitions (CommonMark 4.7, 6.3, 6.4): after
//! a destination and the spacing behind it. What is wanted is from another program.

use super::found::title_at;
use super::places::compare;

/// A place, and the start and the end of the inside of what stands there, and its own end.
type Part = (usize, Option<(usize, usize, usize)>);

static LINKS: [(&str, &[Part]); 30] = [
    ("[link](/uri \"title\")", &[(12, Some((13, 18, 19)))]),
    ("[link](/my uri)", &[(11, None)]),
    ("[link](foo\nbar)", &[(11, None)]),
    ("[a](<b)c\n[a](<b)c>\n[a](<b>c)", &[(19, None)]),
    (
        "[link](/url \"title\")\n[link](/url 'title')\n[link](/url (title))",
        &[
            (12, Some((13, 18, 19))),
            (33, Some((34, 39, 40))),
            (54, Some((55, 60, 61))),
        ],
    ),
    (
        "[link](/url \"title \\\"&quot;\")",
        &[(12, Some((13, 27, 28)))],
    ),
    (
        "[link](/url \"title \"and\" title\")",
        &[(12, Some((13, 19, 20)))],
    ),
    (
        "[link](/url 'title \"and\" title')",
        &[(12, Some((13, 30, 31)))],
    ),
    (
        "[link](   /uri\n  \"title\"  )",
        &[(17, Some((18, 23, 24)))],
    ),
    (
        "[foo][bar]\n\n[bar]: /url \"title\"",
        &[(24, Some((25, 30, 31)))],
    ),
    (
        "[foo][BaR]\n\n[bar]: /url \"title\"",
        &[(24, Some((25, 30, 31)))],
    ),
    ("[Foo\n  bar]: /url\n\n[Baz][Foo bar]", &[(18, None)]),
    (
        "[foo] [bar]\n\n[bar]: /url \"title\"",
        &[(25, Some((26, 31, 32)))],
    ),
    (
        "[foo]\n[bar]\n\n[bar]: /url \"title\"",
        &[(25, Some((26, 31, 32)))],
    ),
    (
        "[foo]: /url1\n\n[foo]: /url2\n\n[bar][foo]",
        &[(13, None), (27, None)],
    ),
    ("[bar\\\\]: /uri\n\n[bar\\\\]", &[(14, None)]),
    (
        "[foo][]\n\n[foo]: /url \"title\"",
        &[(21, Some((22, 27, 28)))],
    ),
    (
        "[*foo* bar][]\n\n[*foo* bar]: /url \"title\"",
        &[(33, Some((34, 39, 40)))],
    ),
    (
        "[Foo][]\n\n[foo]: /url \"title\"",
        &[(21, Some((22, 27, 28)))],
    ),
    (
        "[foo] \n[]\n\n[foo]: /url \"title\"",
        &[(23, Some((24, 29, 30)))],
    ),
    (
        "[foo]\n\n[foo]: /url \"title\"",
        &[(19, Some((20, 25, 26)))],
    ),
    (
        "[*foo* bar]\n\n[*foo* bar]: /url \"title\"",
        &[(31, Some((32, 37, 38)))],
    ),
    (
        "[[*foo* bar]]\n\n[*foo* bar]: /url \"title\"",
        &[(33, Some((34, 39, 40)))],
    ),
    (
        "[Foo]\n\n[foo]: /url \"title\"",
        &[(19, Some((20, 25, 26)))],
    ),
    (
        "\\[foo]\n\n[foo]: /url \"title\"",
        &[(20, Some((21, 26, 27)))],
    ),
    ("[foo*]: /url\n\n*[foo*]", &[(13, None)]),
    ("[foo][bar]\n\n[foo]: /url1\n[bar]: /url2", &[(25, None)]),
    ("[foo](not a link)\n\n[foo]: /url1", &[(10, None)]),
    (
        "[foo][bar][baz]\n\n[baz]: /url1\n[bar]: /url2",
        &[(30, None)],
    ),
    (
        "[foo][bar][baz]\n\n[baz]: /url1\n[foo]: /url2",
        &[(30, None)],
    ),
];

static IMAGES: [(&str, &[Part]); 15] = [
    ("![foo](/url \"title\")", &[(12, Some((13, 18, 19)))]),
    (
        "![foo *bar*]\n\n[foo *bar*]: train.jpg \"train & tracks\"",
        &[(37, Some((38, 52, 53)))],
    ),
    (
        "![foo *bar*][]\n\n[foo *bar*]: train.jpg \"train & tracks\"",
        &[(39, Some((40, 54, 55)))],
    ),
    (
        "![foo *bar*][foobar]\n\n[FOOBAR]: train.jpg \"train & tracks\"",
        &[(42, Some((43, 57, 58)))],
    ),
    (
        "My ![foo bar](/path/to/train.jpg  \"title\"   )",
        &[(34, Some((35, 40, 41)))],
    ),
    (
        "![foo][]\n\n[foo]: /url \"title\"",
        &[(22, Some((23, 28, 29)))],
    ),
    (
        "![*foo* bar][]\n\n[*foo* bar]: /url \"title\"",
        &[(34, Some((35, 40, 41)))],
    ),
    (
        "![Foo][]\n\n[foo]: /url \"title\"",
        &[(22, Some((23, 28, 29)))],
    ),
    (
        "![foo] \n[]\n\n[foo]: /url \"title\"",
        &[(24, Some((25, 30, 31)))],
    ),
    (
        "![foo]\n\n[foo]: /url \"title\"",
        &[(20, Some((21, 26, 27)))],
    ),
    (
        "![*foo* bar]\n\n[*foo* bar]: /url \"title\"",
        &[(32, Some((33, 38, 39)))],
    ),
    (
        "![[foo]]\n\n[[foo]]: /url \"title\"",
        &[(24, Some((25, 30, 31)))],
    ),
    (
        "![Foo]\n\n[foo]: /url \"title\"",
        &[(20, Some((21, 26, 27)))],
    ),
    (
        "!\\[foo]\n\n[foo]: /url \"title\"",
        &[(21, Some((22, 27, 28)))],
    ),
    (
        "\\![foo]\n\n[foo]: /url \"title\"",
        &[(21, Some((22, 27, 28)))],
    ),
];

static DEFINITIONS: [(&str, &[Part]); 22] = [
    (
        "[foo]: /url \"title\"\n\n[foo]",
        &[(12, Some((13, 18, 19)))],
    ),
    (
        "   [foo]: \n      /url  \n           'the title'  \n\n[foo]",
        &[(35, Some((36, 45, 46)))],
    ),
    (
        "[Foo*bar\\]]:my_(url) 'title (with parens)'\n\n[Foo*bar\\]]",
        &[(21, Some((22, 41, 42)))],
    ),
    (
        "[Foo bar]:\n<my url>\n'title'\n\n[Foo bar]",
        &[(20, Some((21, 26, 27)))],
    ),
    (
        "[foo]: /url '\ntitle\nline1\nline2\n'\n\n[foo]",
        &[(12, Some((13, 32, 33)))],
    ),
    (
        "[foo]: /url 'title\n\nwith blank line'\n\n[foo]",
        &[(12, None)],
    ),
    ("[foo]:\n/url\n\n[foo]", &[(12, None)]),
    ("[foo]: <>\n\n[foo]", &[(10, None)]),
    (
        "[foo]: /url\\bar\\*baz \"foo\\\"bar\\baz\"\n\n[foo]",
        &[(21, Some((22, 34, 35)))],
    ),
    ("[foo]\n\n[foo]: first\n[foo]: second", &[(20, None)]),
    ("[FOO]: /url\n\n[Foo]", &[(12, None)]),
    ("[ΑΓΩ]: /φου\n\n[αγω]", &[(18, None)]),
    ("[\nfoo\n]: /url\nbar", &[(14, None)]),
    ("[foo]: /url \"title\" ok", &[(12, Some((13, 18, 19)))]),
    ("[foo]: /url\n\"title\" ok", &[(12, Some((13, 18, 19)))]),
    (
        "    [foo]: /url \"title\"\n\n[foo]",
        &[(16, Some((17, 22, 23)))],
    ),
    ("```\n[foo]: /url\n```\n\n[foo]", &[(16, None)]),
    ("Foo\n[bar]: /baz\n\n[bar]", &[(16, None)]),
    ("# [Foo]\n[foo]: /url\n> bar", &[(20, None)]),
    ("[foo]: /url\nbar\n===\n[foo]", &[(12, None)]),
    ("[foo]: /url\n===\n[foo]", &[(12, None)]),
    (
        "[foo]: /foo-url \"foo\"\n[bar]: /bar-url\n  \"bar\"\n[baz]: /baz-url\n\n[foo],\n[bar],\n[baz]",
        &[
            (16, Some((17, 20, 21))),
            (40, Some((41, 44, 45))),
            (62, None),
        ],
    ),
];

#[test]
fn title_examples(rt: HostRuntime) {
    compare(&rt, title_at, &LINKS);
    compare(&rt, title_at, &IMAGES);
    compare(&rt, title_at, &DEFINITIONS);
}
