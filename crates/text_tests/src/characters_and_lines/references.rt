//! Entity and numeric references and backslash escapes that are resolved.

use super::entities::check_names;
use mdtext::{Entities, unescape};
use std::alloc::{AllocError, Global};
use std::test::Fail;

static BUILTIN: [(&str, Option<&str>); 27] = [
    ("amp", Some("&")),
    ("lt", Some("<")),
    ("gt", Some(">")),
    ("quot", Some("\"")),
    ("apos", Some("'")),
    ("nbsp", Some("\u{A0}")),
    ("copy", Some("\u{A9}")),
    ("reg", Some("\u{AE}")),
    ("trade", Some("\u{2122}")),
    ("AElig", Some("\u{C6}")),
    ("auml", Some("\u{E4}")),
    ("ouml", Some("\u{F6}")),
    ("frac34", Some("\u{BE}")),
    ("Dcaron", Some("\u{10E}")),
    ("ndash", Some("\u{2013}")),
    ("mdash", Some("\u{2014}")),
    ("lsquo", Some("\u{2018}")),
    ("rsquo", Some("\u{2019}")),
    ("ldquo", Some("\u{201C}")),
    ("rdquo", Some("\u{201D}")),
    ("hellip", Some("\u{2026}")),
    ("euro", Some("\u{20AC}")),
    ("times", Some("\u{D7}")),
    ("AMP", None),
    ("", None),
    ("am", None),
    ("ampx", None),
];

#[test]
fn builtin_names(rt: HostRuntime) -> Result<(), Fail> {
    let entities = Entities::builtin(rt.alloc())?;
    check_names(&rt, &entities, &BUILTIN, "built in");
    Ok(())
}

/// What a text becomes, behind a backslash that stands before it.
fn unescaped(alloc: Global, text: &str, entities: &Entities) -> Result<String, AllocError> {
    let mut out = String::new(alloc);
    out.push('\\')?;
    unescape(text, entities, &mut out)?;
    Ok(out)
}

static RESOLVED: [(&str, &str); 22] = [
    ("", ""),
    ("\\a\\*&copy;&#X22;", "\\a*\u{A9}\""),
    ("\\&amp;", "&amp;"),
    ("\\\\&amp;\\", "\\&\\"),
    (
        "\\!\\\"\\#\\$\\%\\&\\'\\(\\)\\*\\+\\,\\-\\.\\/\\:\\;\\<\\=\\>\\?\\@\\[\\\\\\]\\^\\_\\`\\{\\|\\}\\~",
        "!\"#$%&'()*+,-./:;<=>?@[\\]^_`{|}~",
    ),
    ("\\\tA\\ 3\\\u{3C6}\\\u{AB}", "\\\tA\\ 3\\\u{3C6}\\\u{AB}"),
    (
        "&nope; &copy &; &#; &#x; &#87654321; &#abcdef0; &ThisIsNotDefined; &hi?;",
        "&nope; &copy &; &#; &#x; &#87654321; &#abcdef0; &ThisIsNotDefined; &hi?;",
    ),
    ("&#0;", "\u{FFFD}"),
    ("&#x0;", "\u{FFFD}"),
    ("&#1114111;", "\u{10FFFF}"),
    ("&#x10FFFF;", "\u{10FFFF}"),
    ("&#1114112;", "\u{FFFD}"),
    ("&#x110000;", "\u{FFFD}"),
    (
        "&#xD7FF;&#xD800;&#xDFFF;&#xE000;",
        "\u{D7FF}\u{FFFD}\u{FFFD}\u{E000}",
    ),
    ("&#0000065;", "A"),
    ("&#00000065;", "&#00000065;"),
    ("&#x000041;&#X00004a;", "AJ"),
    ("&#x0000041;", "&#x0000041;"),
    (
        "&#35; &#1234; &#992; &#98765432;",
        "# \u{4D2} \u{3E0} &#98765432;",
    ),
    ("&amp;amp;", "&amp;"),
    ("&&amp;&", "&&&"),
    ("\u{E4}&auml;\u{E4}", "\u{E4}\u{E4}\u{E4}"),
];

#[test]
fn text_after_escapes_and_references(rt: HostRuntime) -> Result<(), Fail> {
    let entities = Entities::builtin(rt.alloc())?;
    for &(text, want) in &RESOLVED {
        let out = unescaped(rt.alloc(), text, &entities)?;
        assert_eq!(rt; out.as_str().strip_prefix("\\"), Some(want), "{text:?}");
    }
    Ok(())
}
