//! Each paragraph of the standard's examples of definitions, and those of links and images that begin with a bracket
//! (CommonMark 4.7, 6.3, 6.4). What is wanted is from another program.

use super::found::{Parts, definition_of};
use std::process::Abort;

static DEFINITIONS: [(&str, Option<Parts>); 32] = [
    (
        "[foo]: /url \"title\"",
        Some(((1, 4), (7, 11), Some((13, 18)), 19)),
    ),
    ("[foo]", None),
    (
        "[foo]: \n/url  \n'the title'",
        Some(((1, 4), (8, 12), Some((16, 25)), 26)),
    ),
    (
        "[Foo*bar\\]]:my_(url) 'title (with parens)'",
        Some(((1, 10), (12, 20), Some((22, 41)), 42)),
    ),
    ("[Foo*bar\\]]", None),
    (
        "[Foo bar]:\n<my url>\n'title'",
        Some(((1, 8), (12, 18), Some((21, 26)), 27)),
    ),
    ("[Foo bar]", None),
    (
        "[foo]: /url '\ntitle\nline1\nline2\n'",
        Some(((1, 4), (7, 11), Some((13, 32)), 33)),
    ),
    ("[foo]: /url 'title", None),
    ("with blank line'", None),
    ("[foo]:\n/url", Some(((1, 4), (7, 11), None, 11))),
    ("[foo]:", None),
    ("[foo]: <>", Some(((1, 4), (8, 8), None, 9))),
    ("[foo]: <bar>(baz)", None),
    (
        "[foo]: /url\\bar\\*baz \"foo\\\"bar\\baz\"",
        Some(((1, 4), (7, 20), Some((22, 34)), 35)),
    ),
    ("[foo]: url", Some(((1, 4), (7, 10), None, 10))),
    (
        "[foo]: first\n[foo]: second",
        Some(((1, 4), (7, 12), None, 13)),
    ),
    ("[FOO]: /url", Some(((1, 4), (7, 11), None, 11))),
    ("[Foo]", None),
    ("[ΑΓΩ]: /φου", Some(((1, 7), (10, 17), None, 17))),
    ("[αγω]", None),
    ("[foo]: /url", Some(((1, 4), (7, 11), None, 11))),
    ("[\nfoo\n]: /url\nbar", Some(((1, 6), (9, 13), None, 14))),
    ("[foo]: /url \"title\" ok", None),
    (
        "[foo]: /url\n\"title\" ok",
        Some(((1, 4), (7, 11), None, 12)),
    ),
    ("Foo\n[bar]: /baz", None),
    ("[bar]", None),
    ("bar", None),
    ("[foo]: /url\nbar", Some(((1, 4), (7, 11), None, 12))),
    ("[foo]: /url\n===\n[foo]", Some(((1, 4), (7, 11), None, 12))),
    (
        "[foo]: /foo-url \"foo\"\n[bar]: /bar-url\n\"bar\"\n[baz]: /baz-url",
        Some(((1, 4), (7, 15), Some((17, 20)), 22)),
    ),
    ("[foo],\n[bar],\n[baz]", None),
];

static LINKS: [(&str, Option<Parts>); 104] = [
    ("[link](/uri \"title\")", None),
    ("[link](/uri)", None),
    ("[](./target.md)", None),
    ("[link]()", None),
    ("[link](<>)", None),
    ("[]()", None),
    ("[link](/my uri)", None),
    ("[link](</my uri>)", None),
    ("[link](foo\nbar)", None),
    ("[link](<foo\nbar>)", None),
    ("[a](<b)c>)", None),
    ("[link](<foo\\>)", None),
    ("[a](<b)c\n[a](<b)c>\n[a](<b>c)", None),
    ("[link](\\(foo\\))", None),
    ("[link](foo(and(bar)))", None),
    ("[link](foo(and(bar))", None),
    ("[link](foo\\(and\\(bar\\))", None),
    ("[link](<foo(and(bar)>)", None),
    ("[link](foo\\)\\:)", None),
    ("[link](#fragment)", None),
    ("[link](https://example.com#fragment)", None),
    ("[link](https://example.com?foo=3#frag)", None),
    ("[link](foo\\bar)", None),
    ("[link](foo%20b&auml;)", None),
    ("[link](\"title\")", None),
    (
        "[link](/url \"title\")\n[link](/url 'title')\n[link](/url (title))",
        None,
    ),
    ("[link](/url \"title \\\"&quot;\")", None),
    ("[link](/url\u{A0}\"title\")", None),
    ("[link](/url \"title \"and\" title\")", None),
    ("[link](/url 'title \"and\" title')", None),
    ("[link](   /uri\n\"title\"  )", None),
    ("[link] (/uri)", None),
    ("[link [foo [bar]]](/uri)", None),
    ("[link] bar](/uri)", None),
    ("[link [bar](/uri)", None),
    ("[link \\[bar](/uri)", None),
    ("[link *foo **bar** `#`*](/uri)", None),
    ("[![moon](moon.jpg)](/uri)", None),
    ("[foo [bar](/uri)](/uri)", None),
    ("[foo *[bar [baz](/uri)](/uri)*](/uri)", None),
    ("[foo *bar](baz*)", None),
    ("[foo <bar attr=\"](baz)\">", None),
    ("[foo`](/uri)`", None),
    ("[foo<https://example.com/?search=](uri)>", None),
    ("[foo][bar]", None),
    (
        "[bar]: /url \"title\"",
        Some(((1, 4), (7, 11), Some((13, 18)), 19)),
    ),
    ("[link [foo [bar]]][ref]", None),
    ("[ref]: /uri", Some(((1, 4), (7, 11), None, 11))),
    ("[link \\[bar][ref]", None),
    ("[link *foo **bar** `#`*][ref]", None),
    ("[![moon](moon.jpg)][ref]", None),
    ("[foo [bar](/uri)][ref]", None),
    ("[foo *bar [baz][ref]*][ref]", None),
    ("[foo *bar][ref]*", None),
    ("[foo <bar attr=\"][ref]\">", None),
    ("[foo`][ref]`", None),
    ("[foo<https://example.com/?search=][ref]>", None),
    ("[foo][BaR]", None),
    ("[\u{1E9E}]", None),
    ("[SS]: /url", Some(((1, 3), (6, 10), None, 10))),
    ("[Foo\nbar]: /url", Some(((1, 8), (11, 15), None, 15))),
    ("[Baz][Foo bar]", None),
    ("[foo] [bar]", None),
    ("[foo]\n[bar]", None),
    ("[foo]: /url1", Some(((1, 4), (7, 12), None, 12))),
    ("[foo]: /url2", Some(((1, 4), (7, 12), None, 12))),
    ("[bar][foo]", None),
    ("[bar][foo\\!]", None),
    ("[foo!]: /url", Some(((1, 5), (8, 12), None, 12))),
    ("[foo][ref[]", None),
    ("[ref[]: /uri", None),
    ("[foo][ref[bar]]", None),
    ("[ref[bar]]: /uri", None),
    ("[[[foo]]]", None),
    ("[[[foo]]]: /url", None),
    ("[foo][ref\\[]", None),
    ("[ref\\[]: /uri", Some(((1, 6), (9, 13), None, 13))),
    ("[bar\\\\]: /uri", Some(((1, 6), (9, 13), None, 13))),
    ("[bar\\\\]", None),
    ("[]", None),
    ("[]: /uri", None),
    ("[\n]", None),
    ("[\n]: /uri", None),
    ("[foo][]", None),
    (
        "[foo]: /url \"title\"",
        Some(((1, 4), (7, 11), Some((13, 18)), 19)),
    ),
    ("[*foo* bar][]", None),
    (
        "[*foo* bar]: /url \"title\"",
        Some(((1, 10), (13, 17), Some((19, 24)), 25)),
    ),
    ("[Foo][]", None),
    ("[foo] \n[]", None),
    ("[foo]", None),
    ("[*foo* bar]", None),
    ("[[*foo* bar]]", None),
    ("[[bar [foo]", None),
    ("[foo]: /url", Some(((1, 4), (7, 11), None, 11))),
    ("[Foo]", None),
    ("[foo] bar", None),
    ("[foo*]: /url", Some(((1, 5), (8, 12), None, 12))),
    (
        "[foo]: /url1\n[bar]: /url2",
        Some(((1, 4), (7, 12), None, 13)),
    ),
    ("[foo]()", None),
    ("[foo](not a link)", None),
    ("[foo][bar][baz]", None),
    ("[baz]: /url", Some(((1, 4), (7, 11), None, 11))),
    (
        "[baz]: /url1\n[bar]: /url2",
        Some(((1, 4), (7, 12), None, 13)),
    ),
    (
        "[baz]: /url1\n[foo]: /url2",
        Some(((1, 4), (7, 12), None, 13)),
    ),
];

static IMAGES: [(&str, Option<Parts>); 7] = [
    (
        "[foo *bar*]: train.jpg \"train & tracks\"",
        Some(((1, 10), (13, 22), Some((24, 38)), 39)),
    ),
    (
        "[FOOBAR]: train.jpg \"train & tracks\"",
        Some(((1, 7), (10, 19), Some((21, 35)), 36)),
    ),
    ("[bar]: /url", Some(((1, 4), (7, 11), None, 11))),
    ("[BAR]: /url", Some(((1, 4), (7, 11), None, 11))),
    (
        "[foo]: /url \"title\"",
        Some(((1, 4), (7, 11), Some((13, 18)), 19)),
    ),
    (
        "[*foo* bar]: /url \"title\"",
        Some(((1, 10), (13, 17), Some((19, 24)), 25)),
    ),
    ("[[foo]]: /url \"title\"", None),
];

fn compare(rt: &impl Abort, rows: &[(&str, Option<Parts>)]) {
    for &(text, want) in rows {
        assert_eq!(rt; definition_of(text), want, "at {text}");
    }
}

#[test]
fn definition_examples(rt: HostRuntime) {
    compare(&rt, &DEFINITIONS);
    compare(&rt, &LINKS);
    compare(&rt, &IMAGES);
}
