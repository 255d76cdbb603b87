//! Emphasis and strong emphasis (CommonMark 6.2), and strikethrough (GFM Strikethrough (extension)): examples of the standards, as trees.

use super::rows::check_texts;
use std::test::Fail;

static EMPHASIS: [(&str, &str); 29] = [
    ("*foo bar*", "[Emph([Text(\"foo bar\")])]"),
    ("a * foo bar*", "[Text(\"a * foo bar*\")]"),
    ("a*\"foo\"*", "[Text(\"a*\\\"foo\\\"*\")]"),
    ("*$*alpha.", "[Text(\"*$*alpha.\")]"),
    ("*£*bravo.", "[Text(\"*£*bravo.\")]"),
    ("*€*charlie.", "[Text(\"*€*charlie.\")]"),
    ("foo*bar*", "[Text(\"foo\"), Emph([Text(\"bar\")])]"),
    ("5*6*78", "[Text(\"5\"), Emph([Text(\"6\")]), Text(\"78\")]"),
    ("_foo bar_", "[Emph([Text(\"foo bar\")])]"),
    ("_ foo bar_", "[Text(\"_ foo bar_\")]"),
    ("a_\"foo\"_", "[Text(\"a_\\\"foo\\\"_\")]"),
    ("foo_bar_", "[Text(\"foo_bar_\")]"),
    ("5_6_78", "[Text(\"5_6_78\")]"),
    ("пристаням_стремятся_", "[Text(\"пристаням_стремятся_\")]"),
    ("aa_\"bb\"_cc", "[Text(\"aa_\\\"bb\\\"_cc\")]"),
    ("foo-_(bar)_", "[Text(\"foo-\"), Emph([Text(\"(bar)\")])]"),
    ("_foo*", "[Text(\"_foo*\")]"),
    ("*foo bar *", "[Text(\"*foo bar *\")]"),
    ("*foo bar\n*", "[Text(\"*foo bar\"), Soft, Text(\"*\")]"),
    ("*(*foo)", "[Text(\"*(*foo)\")]"),
    (
        "*(*foo*)*",
        "[Emph([Text(\"(\"), Emph([Text(\"foo\")]), Text(\")\")])]",
    ),
    ("*foo*bar", "[Emph([Text(\"foo\")]), Text(\"bar\")]"),
    ("_foo bar _", "[Text(\"_foo bar _\")]"),
    ("_(_foo)", "[Text(\"_(_foo)\")]"),
    (
        "_(_foo_)_",
        "[Emph([Text(\"(\"), Emph([Text(\"foo\")]), Text(\")\")])]",
    ),
    ("_foo_bar", "[Text(\"_foo_bar\")]"),
    ("_пристаням_стремятся", "[Text(\"_пристаням_стремятся\")]"),
    ("_foo_bar_baz_", "[Emph([Text(\"foo_bar_baz\")])]"),
    ("_(bar)_.", "[Emph([Text(\"(bar)\")]), Text(\".\")]"),
];

static STRONG: [(&str, &str); 26] = [
    ("**foo bar**", "[Strong([Text(\"foo bar\")])]"),
    ("** foo bar**", "[Text(\"** foo bar**\")]"),
    ("a**\"foo\"**", "[Text(\"a**\\\"foo\\\"**\")]"),
    ("foo**bar**", "[Text(\"foo\"), Strong([Text(\"bar\")])]"),
    ("__foo bar__", "[Strong([Text(\"foo bar\")])]"),
    ("__ foo bar__", "[Text(\"__ foo bar__\")]"),
    ("__\nfoo bar__", "[Text(\"__\"), Soft, Text(\"foo bar__\")]"),
    ("a__\"foo\"__", "[Text(\"a__\\\"foo\\\"__\")]"),
    ("foo__bar__", "[Text(\"foo__bar__\")]"),
    ("5__6__78", "[Text(\"5__6__78\")]"),
    (
        "пристаням__стремятся__",
        "[Text(\"пристаням__стремятся__\")]",
    ),
    (
        "__foo, __bar__, baz__",
        "[Strong([Text(\"foo, \"), Strong([Text(\"bar\")]), Text(\", baz\")])]",
    ),
    (
        "foo-__(bar)__",
        "[Text(\"foo-\"), Strong([Text(\"(bar)\")])]",
    ),
    ("**foo bar **", "[Text(\"**foo bar **\")]"),
    ("**(**foo)", "[Text(\"**(**foo)\")]"),
    (
        "*(**foo**)*",
        "[Emph([Text(\"(\"), Strong([Text(\"foo\")]), Text(\")\")])]",
    ),
    (
        "**Gomphocarpus (*Gomphocarpus physocarpus*, syn.\n*Asclepias physocarpa*)**",
        "[Strong([Text(\"Gomphocarpus (\"), Emph([Text(\"Gomphocarpus physocarpus\")]), Text(\", syn.\"), \
        Soft, Emph([Text(\"Asclepias physocarpa\")]), Text(\")\")])]",
    ),
    (
        "**foo \"*bar*\" foo**",
        "[Strong([Text(\"foo \\\"\"), Emph([Text(\"bar\")]), Text(\"\\\" foo\")])]",
    ),
    ("**foo**bar", "[Strong([Text(\"foo\")]), Text(\"bar\")]"),
    ("__foo bar __", "[Text(\"__foo bar __\")]"),
    ("__(__foo)", "[Text(\"__(__foo)\")]"),
    (
        "_(__foo__)_",
        "[Emph([Text(\"(\"), Strong([Text(\"foo\")]), Text(\")\")])]",
    ),
    ("__foo__bar", "[Text(\"__foo__bar\")]"),
    (
        "__пристаням__стремятся",
        "[Text(\"__пристаням__стремятся\")]",
    ),
    ("__foo__bar__baz__", "[Strong([Text(\"foo__bar__baz\")])]"),
    ("__(bar)__.", "[Strong([Text(\"(bar)\")]), Text(\".\")]"),
];

static SPANS_IN_EMPHASIS: [(&str, &str); 15] = [
    (
        "*foo [bar](/url)*",
        "[Emph([Text(\"foo \"), Link(Target { url: \"/url\", title: \"\" }, [Text(\"bar\")])])]",
    ),
    ("*foo\nbar*", "[Emph([Text(\"foo\"), Soft, Text(\"bar\")])]"),
    (
        "_foo __bar__ baz_",
        "[Emph([Text(\"foo \"), Strong([Text(\"bar\")]), Text(\" baz\")])]",
    ),
    (
        "_foo _bar_ baz_",
        "[Emph([Text(\"foo \"), Emph([Text(\"bar\")]), Text(\" baz\")])]",
    ),
    (
        "__foo_ bar_",
        "[Emph([Emph([Text(\"foo\")]), Text(\" bar\")])]",
    ),
    (
        "*foo *bar**",
        "[Emph([Text(\"foo \"), Emph([Text(\"bar\")])])]",
    ),
    (
        "*foo **bar** baz*",
        "[Emph([Text(\"foo \"), Strong([Text(\"bar\")]), Text(\" baz\")])]",
    ),
    (
        "*foo**bar**baz*",
        "[Emph([Text(\"foo\"), Strong([Text(\"bar\")]), Text(\"baz\")])]",
    ),
    ("*foo**bar*", "[Emph([Text(\"foo**bar\")])]"),
    (
        "***foo** bar*",
        "[Emph([Strong([Text(\"foo\")]), Text(\" bar\")])]",
    ),
    (
        "*foo **bar***",
        "[Emph([Text(\"foo \"), Strong([Text(\"bar\")])])]",
    ),
    (
        "*foo**bar***",
        "[Emph([Text(\"foo\"), Strong([Text(\"bar\")])])]",
    ),
    (
        "foo***bar***baz",
        "[Text(\"foo\"), Emph([Strong([Text(\"bar\")])]), Text(\"baz\")]",
    ),
    (
        "foo******bar*********baz",
        "[Text(\"foo\"), Strong([Strong([Strong([Text(\"bar\")])])]), Text(\"***baz\")]",
    ),
    (
        "*foo **bar *baz* bim** bop*",
        "[Emph([Text(\"foo \"), Strong([Text(\"bar \"), Emph([Text(\"baz\")]), Text(\" bim\")]), Text(\" bop\")])]",
    ),
];

#[test]
fn emphasis_is_read(rt: HostRuntime) -> Result<(), Fail> {
    check_texts(&rt, rt.alloc(), &EMPHASIS)?;
    check_texts(&rt, rt.alloc(), &STRONG)?;
    check_texts(&rt, rt.alloc(), &SPANS_IN_EMPHASIS)
}
