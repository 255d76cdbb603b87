//! HTML's escapes of text and of destinations.

use mdtext::{escape_text, escape_url};
use std::alloc::{AllocError, Global};
use std::test::Fail;

/// A text behind what stands before it.
fn escaped_text(alloc: Global, text: &str) -> Result<String, AllocError> {
    let mut out = String::from_str(alloc, "<")?;
    escape_text(text, &mut out)?;
    Ok(out)
}

/// A destination behind what stands before it.
fn escaped_url(alloc: Global, text: &str) -> Result<String, AllocError> {
    let mut out = String::from_str(alloc, "&")?;
    escape_url(text, &mut out)?;
    Ok(out)
}

static TEXTS: [(&str, &str); 6] = [
    ("", ""),
    ("a", "a"),
    ("<a href=\"b\">&'", "&lt;a href=&quot;b&quot;&gt;&amp;'"),
    ("&", "&amp;"),
    ("\u{E4}<\u{1F600}>", "\u{E4}&lt;\u{1F600}&gt;"),
    ("&amp;", "&amp;amp;"),
];

#[test]
fn text_as_html(rt: HostRuntime) -> Result<(), Fail> {
    for &(text, want) in &TEXTS {
        let out = escaped_text(rt.alloc(), text)?;
        assert_eq!(rt; out.as_str().strip_prefix("<"), Some(want), "{text:?}");
    }
    Ok(())
}

static DESTINATIONS: [(&str, &str); 6] = [
    ("", ""),
    ("/\u{E4}&'", "/%C3%A4&amp;&#x27;"),
    ("AZaz09-_.+!*(),%#@?=;:/$~", "AZaz09-_.+!*(),%#@?=;:/$~"),
    (" \"<>[\\]^`{|}", "%20%22%3C%3E%5B%5C%5D%5E%60%7B%7C%7D"),
    ("\u{0}\u{7F}\u{1F600}", "%00%7F%F0%9F%98%80"),
    ("%20", "%20"),
];

#[test]
fn destinations_as_html(rt: HostRuntime) -> Result<(), Fail> {
    for &(text, want) in &DESTINATIONS {
        let out = escaped_url(rt.alloc(), text)?;
        assert_eq!(rt; out.as_str().strip_prefix("&"), Some(want), "{text:?}");
    }
    Ok(())
}
