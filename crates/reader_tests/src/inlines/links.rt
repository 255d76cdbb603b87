//! Links and images (CommonMark 6.3, 6.4): examples of the standards, as trees.

use super::rows::check_texts;
use std::test::Fail;

static DESTINATIONS_AND_TITLES: [(&str, &str); 31] = [
    (
        "[link](/uri \"title\")",
        "[Link(Target { url: \"/uri\", title: \"title\" }, [Text(\"link\")])]",
    ),
    (
        "[link](/uri)",
        "[Link(Target { url: \"/uri\", title: \"\" }, [Text(\"link\")])]",
    ),
    (
        "[](./target.md)",
        "[Link(Target { url: \"./target.md\", title: \"\" }, [])]",
    ),
    (
        "[link]()",
        "[Link(Target { url: \"\", title: \"\" }, [Text(\"link\")])]",
    ),
    (
        "[link](<>)",
        "[Link(Target { url: \"\", title: \"\" }, [Text(\"link\")])]",
    ),
    ("[]()", "[Link(Target { url: \"\", title: \"\" }, [])]"),
    ("[link](/my uri)", "[Text(\"[link](/my uri)\")]"),
    (
        "[link](</my uri>)",
        "[Link(Target { url: \"/my uri\", title: \"\" }, [Text(\"link\")])]",
    ),
    (
        "[link](foo\nbar)",
        "[Text(\"[link](foo\"), Soft, Text(\"bar)\")]",
    ),
    (
        "[link](<foo\nbar>)",
        "[Text(\"[link](\"), Html(\"<foo\\nbar>\"), Text(\")\")]",
    ),
    (
        "[a](<b)c>)",
        "[Link(Target { url: \"b)c\", title: \"\" }, [Text(\"a\")])]",
    ),
    ("[link](<foo\\>)", "[Text(\"[link](<foo>)\")]"),
    (
        "[a](<b)c\n[a](<b)c>\n[a](<b>c)",
        "[Text(\"[a](<b)c\"), Soft, Text(\"[a](<b)c>\"), Soft, Text(\"[a](\"), Html(\"<b>\"), Text(\"c)\")]",
    ),
    (
        "[link](\\(foo\\))",
        "[Link(Target { url: \"(foo)\", title: \"\" }, [Text(\"link\")])]",
    ),
    (
        "[link](foo(and(bar)))",
        "[Link(Target { url: \"foo(and(bar))\", title: \"\" }, [Text(\"link\")])]",
    ),
    ("[link](foo(and(bar))", "[Text(\"[link](foo(and(bar))\")]"),
    (
        "[link](foo\\(and\\(bar\\))",
        "[Link(Target { url: \"foo(and(bar)\", title: \"\" }, [Text(\"link\")])]",
    ),
    (
        "[link](<foo(and(bar)>)",
        "[Link(Target { url: \"foo(and(bar)\", title: \"\" }, [Text(\"link\")])]",
    ),
    (
        "[link](foo\\)\\:)",
        "[Link(Target { url: \"foo):\", title: \"\" }, [Text(\"link\")])]",
    ),
    (
        "[link](#fragment)",
        "[Link(Target { url: \"#fragment\", title: \"\" }, [Text(\"link\")])]",
    ),
    (
        "[link](https://example.com#fragment)",
        "[Link(Target { url: \"https://example.com#fragment\", title: \"\" }, [Text(\"link\")])]",
    ),
    (
        "[link](https://example.com?foo=3#frag)",
        "[Link(Target { url: \"https://example.com?foo=3#frag\", title: \"\" }, [Text(\"link\")])]",
    ),
    (
        "[link](foo\\bar)",
        "[Link(Target { url: \"foo\\\\bar\", title: \"\" }, [Text(\"link\")])]",
    ),
    (
        "[link](foo%20b&auml;)",
        "[Link(Target { url: \"foo%20bä\", title: \"\" }, [Text(\"link\")])]",
    ),
    (
        "[link](\"title\")",
        "[Link(Target { url: \"\\\"title\\\"\", title: \"\" }, [Text(\"link\")])]",
    ),
    (
        "[link](/url \"title\")\n[link](/url 'title')\n[link](/url (title))",
        "[Link(Target { url: \"/url\", title: \"title\" }, [Text(\"link\")]), Soft, Link(Target { url: \"/url\", \
        title: \"title\" }, [Text(\"link\")]), Soft, Link(Target { url: \"/url\", title: \"title\" }, [Text(\"link\")])]",
    ),
    (
        "[link](/url \"title \\\"&quot;\")",
        "[Link(Target { url: \"/url\", title: \"title \\\"\\\"\" }, [Text(\"link\")])]",
    ),
    (
        "[link](/url \"title \"and\" title\")",
        "[Text(\"[link](/url \\\"title \\\"and\\\" title\\\")\")]",
    ),
    (
        "[link](/url 'title \"and\" title')",
        "[Link(Target { url: \"/url\", title: \"title \\\"and\\\" title\" }, [Text(\"link\")])]",
    ),
    (
        "[link](   /uri\n\"title\"  )",
        "[Link(Target { url: \"/uri\", title: \"title\" }, [Text(\"link\")])]",
    ),
    ("[link] (/uri)", "[Text(\"[link] (/uri)\")]"),
];

static LINK_TEXTS: [(&str, &str); 15] = [
    (
        "[link [foo [bar]]](/uri)",
        "[Link(Target { url: \"/uri\", title: \"\" }, [Text(\"link [foo [bar]]\")])]",
    ),
    ("[link] bar](/uri)", "[Text(\"[link] bar](/uri)\")]"),
    (
        "[link [bar](/uri)",
        "[Text(\"[link \"), Link(Target { url: \"/uri\", title: \"\" }, [Text(\"bar\")])]",
    ),
    (
        "[link \\[bar](/uri)",
        "[Link(Target { url: \"/uri\", title: \"\" }, [Text(\"link [bar\")])]",
    ),
    (
        "[link *foo **bar** `#`*](/uri)",
        "[Link(Target { url: \"/uri\", title: \"\" }, [Text(\"link \"), Emph([Text(\"foo \"), Strong([Text(\"bar\")]), Text(\" \"), Code(\"#\")])])]",
    ),
    (
        "[![moon](moon.jpg)](/uri)",
        "[Link(Target { url: \"/uri\", title: \"\" }, [Image(Target { url: \"moon.jpg\", title: \"\" }, [Text(\"moon\")])])]",
    ),
    (
        "[foo [bar](/uri)](/uri)",
        "[Text(\"[foo \"), Link(Target { url: \"/uri\", title: \"\" }, [Text(\"bar\")]), Text(\"](/uri)\")]",
    ),
    (
        "[foo *[bar [baz](/uri)](/uri)*](/uri)",
        "[Text(\"[foo \"), Emph([Text(\"[bar \"), Link(Target { url: \"/uri\", title: \"\" }, [Text(\"baz\")]), Text(\"](/uri)\")]), Text(\"](/uri)\")]",
    ),
    (
        "![[[foo](uri1)](uri2)](uri3)",
        "[Image(Target { url: \"uri3\", title: \"\" }, [Text(\"[\"), Link(Target { url: \"uri1\", title: \"\" }, [Text(\"foo\")]), Text(\"](uri2)\")])]",
    ),
    (
        "*[foo*](/uri)",
        "[Text(\"*\"), Link(Target { url: \"/uri\", title: \"\" }, [Text(\"foo*\")])]",
    ),
    (
        "[foo *bar](baz*)",
        "[Link(Target { url: \"baz*\", title: \"\" }, [Text(\"foo *bar\")])]",
    ),
    (
        "*foo [bar* baz]",
        "[Emph([Text(\"foo [bar\")]), Text(\" baz]\")]",
    ),
    (
        "[foo <bar attr=\"](baz)\">",
        "[Text(\"[foo \"), Html(\"<bar attr=\\\"](baz)\\\">\")]",
    ),
    ("[foo`](/uri)`", "[Text(\"[foo\"), Code(\"](/uri)\")]"),
    (
        "[foo<https://example.com/?search=](uri)>",
        "[Text(\"[foo\"), Link(Target { url: \"https://example.com/?search=](uri)\", title: \"\" }, [Text(\"https://example.com/?search=](uri)\")])]",
    ),
];

static BRACKETS: [(&str, &str); 10] = [
    ("[foo][ref[]", "[Text(\"[foo][ref[]\")]"),
    ("[ref[]: /uri", "[Text(\"[ref[]: /uri\")]"),
    ("[foo][ref[bar]]", "[Text(\"[foo][ref[bar]]\")]"),
    ("[ref[bar]]: /uri", "[Text(\"[ref[bar]]: /uri\")]"),
    ("[[[foo]]]", "[Text(\"[[[foo]]]\")]"),
    ("[[[foo]]]: /url", "[Text(\"[[[foo]]]: /url\")]"),
    ("[]", "[Text(\"[]\")]"),
    ("[]: /uri", "[Text(\"[]: /uri\")]"),
    ("[\n]", "[Text(\"[\"), Soft, Text(\"]\")]"),
    ("[\n]: /uri", "[Text(\"[\"), Soft, Text(\"]: /uri\")]"),
];

static IMAGES: [(&str, &str); 9] = [
    (
        "![foo](/url \"title\")",
        "[Image(Target { url: \"/url\", title: \"title\" }, [Text(\"foo\")])]",
    ),
    (
        "![foo ![bar](/url)](/url2)",
        "[Image(Target { url: \"/url2\", title: \"\" }, [Text(\"foo \"), Image(Target { url: \"/url\", title: \"\" }, [Text(\"bar\")])])]",
    ),
    (
        "![foo [bar](/url)](/url2)",
        "[Image(Target { url: \"/url2\", title: \"\" }, [Text(\"foo \"), Link(Target { url: \"/url\", title: \"\" }, [Text(\"bar\")])])]",
    ),
    (
        "![foo](train.jpg)",
        "[Image(Target { url: \"train.jpg\", title: \"\" }, [Text(\"foo\")])]",
    ),
    (
        "My ![foo bar](/path/to/train.jpg  \"title\"   )",
        "[Text(\"My \"), Image(Target { url: \"/path/to/train.jpg\", title: \"title\" }, [Text(\"foo bar\")])]",
    ),
    (
        "![foo](<url>)",
        "[Image(Target { url: \"url\", title: \"\" }, [Text(\"foo\")])]",
    ),
    (
        "![](/url)",
        "[Image(Target { url: \"/url\", title: \"\" }, [])]",
    ),
    ("![[foo]]", "[Text(\"![[foo]]\")]"),
    (
        "[[foo]]: /url \"title\"",
        "[Text(\"[[foo]]: /url \\\"title\\\"\")]",
    ),
];

#[test]
fn links_are_read(rt: HostRuntime) -> Result<(), Fail> {
    check_texts(&rt, rt.alloc(), &DESTINATIONS_AND_TITLES)?;
    check_texts(&rt, rt.alloc(), &LINK_TEXTS)?;
    check_texts(&rt, rt.alloc(), &BRACKETS)?;
    check_texts(&rt, rt.alloc(), &IMAGES)
}
