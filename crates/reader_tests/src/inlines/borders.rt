//! Borders of each construct, and of breaks. What is wanted is from another program.

use super::rows::{Defined, check_asked, check_defined, check_texts};
use std::test::Fail;

static BORDERS: [(&str, &str); 64] = [
    ("*foo**bar*", "[Emph([Text(\"foo**bar\")])]"),
    ("&quot; &nope; &#0; &#x41;", "[Text(\"\\\" &nope; � A\")]"),
    (
        "<http://a/?b&amp;c>",
        "[Link(Target { url: \"http://a/?b&c\", title: \"\" }, [Text(\"http://a/?b&c\")])]",
    ),
    ("<b>x</b>", "[Html(\"<b>\"), Text(\"x\"), Html(\"</b>\")]"),
    (
        "[a](javascript:x)",
        "[Link(Target { url: \"javascript:x\", title: \"\" }, [Text(\"a\")])]",
    ),
    (
        "[a](/ä \"t\")",
        "[Link(Target { url: \"/ä\", title: \"t\" }, [Text(\"a\")])]",
    ),
    (
        "a  \nb\\\nc",
        "[Text(\"a\"), Hard, Text(\"b\"), Hard, Text(\"c\")]",
    ),
    (
        "~~Hi~~ Hello, ~there~ world!",
        "[Strike([Text(\"Hi\")]), Text(\" Hello, \"), Strike([Text(\"there\")]), Text(\" world!\")]",
    ),
    ("*a`*` ", "[Text(\"*a\"), Code(\"*\"), Text(\" \")]"),
    (
        "[foo [bar](/a)](/b)",
        "[Text(\"[foo \"), Link(Target { url: \"/a\", title: \"\" }, [Text(\"bar\")]), Text(\"](/b)\")]",
    ),
    (
        "![foo *bar*](/u \"t\")",
        "[Image(Target { url: \"/u\", title: \"t\" }, [Text(\"foo \"), Emph([Text(\"bar\")])])]",
    ),
    ("a ~~~b~~~", "[Text(\"a ~~~b~~~\")]"),
    ("b `|` az", "[Text(\"b \"), Code(\"|\"), Text(\" az\")]"),
    ("", "[]"),
    ("a", "[Text(\"a\")]"),
    ("a\nb", "[Text(\"a\"), Soft, Text(\"b\")]"),
    ("a \n   b  ", "[Text(\"a\"), Soft, Text(\"b  \")]"),
    ("a\n   \nb", "[Text(\"a\"), Soft, Soft, Text(\"b\")]"),
    ("a\t\nb \\\n", "[Text(\"a\\t\"), Soft, Text(\"b \"), Hard]"),
    ("a\\\\\nb", "[Text(\"a\\\\\"), Soft, Text(\"b\")]"),
    ("a\\\\\\\nb", "[Text(\"a\\\\\"), Hard, Text(\"b\")]"),
    (" a", "[Text(\" a\")]"),
    ("a  ", "[Text(\"a  \")]"),
    ("  \n", "[Hard]"),
    ("\\\n\\", "[Hard, Text(\"\\\\\")]"),
    (
        "<a@b.c>",
        "[Link(Target { url: \"mailto:a@b.c\", title: \"\" }, [Text(\"a@b.c\")])]",
    ),
    ("<a:&amp;\\*>", "[Text(\"<a:&*>\")]"),
    (
        "[a[b](/u)c](/v)",
        "[Text(\"[a\"), Link(Target { url: \"/u\", title: \"\" }, [Text(\"b\")]), Text(\"c](/v)\")]",
    ),
    (
        "![a[b](/u)c](/v)",
        "[Image(Target { url: \"/v\", title: \"\" }, [Text(\"a\"), Link(Target { url: \"/u\", title: \"\" }, [Text(\"b\")]), Text(\"c\")])]",
    ),
    (
        "[![a](/i)](/u)",
        "[Link(Target { url: \"/u\", title: \"\" }, [Image(Target { url: \"/i\", title: \"\" }, [Text(\"a\")])])]",
    ),
    ("[a][ ]", "[Text(\"[a][ ]\")]"),
    ("[a`](/u)`]", "[Text(\"[a\"), Code(\"](/u)\"), Text(\"]\")]"),
    (
        "[a<b](/u)>]",
        "[Link(Target { url: \"/u\", title: \"\" }, [Text(\"a<b\")]), Text(\">]\")]",
    ),
    ("![", "[Text(\"![\")]"),
    ("!", "[Text(\"!\")]"),
    ("[]", "[Text(\"[]\")]"),
    ("[](/u)", "[Link(Target { url: \"/u\", title: \"\" }, [])]"),
    ("[a](/u", "[Text(\"[a](/u\")]"),
    (
        "[a](b\\)c)",
        "[Link(Target { url: \"b)c\", title: \"\" }, [Text(\"a\")])]",
    ),
    ("``a`", "[Text(\"``a`\")]"),
    ("` a `", "[Code(\"a\")]"),
    ("`  `", "[Code(\"  \")]"),
    ("` a", "[Text(\"` a\")]"),
    ("`a\nb`", "[Code(\"a b\")]"),
    ("`\n`", "[Code(\" \")]"),
    ("` `` `", "[Code(\"``\")]"),
    ("<!-->", "[Html(\"<!-->\")]"),
    ("<!--->", "[Html(\"<!--->\")]"),
    ("<!--a-->", "[Html(\"<!--a-->\")]"),
    ("<?a?>", "[Html(\"<?a?>\")]"),
    ("<!A>", "[Html(\"<!A>\")]"),
    ("<![CDATA[a]]>", "[Html(\"<![CDATA[a]]>\")]"),
    ("<!a", "[Text(\"<!a\")]"),
    ("<?a", "[Text(\"<?a\")]"),
    ("<!--a", "[Text(\"<!--a\")]"),
    ("a]b", "[Text(\"a]b\")]"),
    ("![a]", "[Text(\"![a]\")]"),
    ("&amp;*a*", "[Text(\"&\"), Emph([Text(\"a\")])]"),
    ("*&amp;*", "[Emph([Text(\"&\")])]"),
    ("\\&amp;", "[Text(\"&amp;\")]"),
    ("&", "[Text(\"&\")]"),
    ("&#35;", "[Text(\"#\")]"),
    ("&#1234567;", "[Text(\"�\")]"),
    ("&#12345678;", "[Text(\"&#12345678;\")]"),
];

#[test]
fn borders_are_read(rt: HostRuntime) -> Result<(), Fail> {
    check_texts(&rt, rt.alloc(), &BORDERS)
}

/// A text, its definitions and the labels that are asked for.
static ASKED: [(&str, &[(&str, &str, &str)], &[&str]); 13] = [
    ("[a][b]", &[], &["b"]),
    ("[a][ ]", &[("a", "/u", "")], &["a"]),
    (
        "[foo][bar][baz]",
        &[("baz", "/url1", ""), ("foo", "/url2", "")],
        &["bar", "baz"],
    ),
    ("[ẞ]", &[("ss", "/url", "")], &["ss"]),
    ("[c] [b] [a] [b] [C]", &[("b", "/u", "")], &["a", "b", "c"]),
    ("[a [b](/u) c]", &[("a", "/u", "")], &[]),
    ("[a](/u) ![b][c] [d][]", &[], &["c", "d"]),
    ("[a\\]] [ b\n c ]", &[], &["a\\]", "b c"]),
    ("[a[b]c]", &[], &["b"]),
    ("[]", &[], &[]),
    ("\\[a] `[b]` <x:[c]>", &[], &["c"]),
    ("[a][b](/u)", &[], &["b"]),
    ("[a](/u \"t\" [b]", &[], &["a", "b"]),
];

#[test]
fn labels_are_asked(rt: HostRuntime) -> Result<(), Fail> {
    check_asked(&rt, rt.alloc(), &ASKED)
}

static LOOKED_UP: [Defined; 13] = [
    ("[a][b]", &[], "[Text(\"[a][b]\")]"),
    (
        "[a][ ]",
        &[("a", "/u", "")],
        "[Link(Target { url: \"/u\", title: \"\" }, [Text(\"a\")]), Text(\"[ ]\")]",
    ),
    (
        "[foo][bar][baz]",
        &[("baz", "/url1", ""), ("foo", "/url2", "")],
        "[Text(\"[foo]\"), Link(Target { url: \"/url1\", title: \"\" }, [Text(\"bar\")])]",
    ),
    (
        "[ẞ]",
        &[("ss", "/url", "")],
        "[Link(Target { url: \"/url\", title: \"\" }, [Text(\"ẞ\")])]",
    ),
    (
        "[c] [b] [a] [b] [C]",
        &[("b", "/u", "")],
        "[Text(\"[c] \"), Link(Target { url: \"/u\", title: \"\" }, [Text(\"b\")]), Text(\" [a] \"), Link(Target { url: \"/u\", \
        title: \"\" }, [Text(\"b\")]), Text(\" [C]\")]",
    ),
    (
        "[a [b](/u) c]",
        &[("a", "/u", "")],
        "[Text(\"[a \"), Link(Target { url: \"/u\", title: \"\" }, [Text(\"b\")]), Text(\" c]\")]",
    ),
    (
        "[a](/u) ![b][c] [d][]",
        &[],
        "[Link(Target { url: \"/u\", title: \"\" }, [Text(\"a\")]), Text(\" ![b][c] [d][]\")]",
    ),
    (
        "[a\\]] [ b\n c ]",
        &[],
        "[Text(\"[a]] [ b\"), Soft, Text(\"c ]\")]",
    ),
    ("[a[b]c]", &[], "[Text(\"[a[b]c]\")]"),
    ("[]", &[], "[Text(\"[]\")]"),
    (
        "\\[a] `[b]` <x:[c]>",
        &[],
        "[Text(\"[a] \"), Code(\"[b]\"), Text(\" <x:[c]>\")]",
    ),
    (
        "[a][b](/u)",
        &[],
        "[Text(\"[a]\"), Link(Target { url: \"/u\", title: \"\" }, [Text(\"b\")])]",
    ),
    ("[a](/u \"t\" [b]", &[], "[Text(\"[a](/u \\\"t\\\" [b]\")]"),
];

#[test]
fn labels_are_looked_up(rt: HostRuntime) -> Result<(), Fail> {
    check_defined(&rt, rt.alloc(), &LOOKED_UP)
}
