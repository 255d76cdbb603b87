//! Lines of a text, and what is cleaned in them.

use mdtext::{clean_len, clean_line, lines_of};
use std::alloc::{AllocError, Global};
use std::test::Fail;

/// The lines of a text, each with `|` after it.
fn marked(alloc: Global, text: &str) -> Result<String, AllocError> {
    let mut out = String::new(alloc);
    for line in &lines_of(alloc, text)? {
        out.push_str(line.as_str())?;
        out.push('|')?;
    }
    Ok(out)
}

static ENDINGS: [(&str, &str); 15] = [
    ("", ""),
    ("a", "a|"),
    ("a\n", "a|"),
    ("a\r", "a|"),
    ("a\r\n", "a|"),
    ("\n", "|"),
    ("\r", "|"),
    ("\r\n", "|"),
    ("\n\r", "||"),
    ("\r\r\n\n", "|||"),
    ("a\nb\rc\r\nd", "a|b|c|d|"),
    ("\u{FEFF}a\u{FEFF}\n\u{FEFF}b", "a\u{FEFF}|\u{FEFF}b|"),
    ("\u{FEFF}", ""),
    ("\u{0}a\n\u{0}", "\u{FFFD}a|\u{FFFD}|"),
    ("a\u{85}b\u{2028}c\u{B}d", "a\u{85}b\u{2028}c\u{B}d|"),
];

#[test]
fn lines_by_their_endings(rt: HostRuntime) -> Result<(), Fail> {
    for &(text, want) in &ENDINGS {
        let lines = marked(rt.alloc(), text)?;
        assert_eq!(rt; lines.as_str(), want, "{text:?}");
    }
    Ok(())
}

static NULS: [(&str, &str); 4] = [
    ("", ""),
    ("ab", "ab"),
    ("\u{0}", "\u{FFFD}"),
    ("a\u{0}\u{0}b\u{E4}", "a\u{FFFD}\u{FFFD}b\u{E4}"),
];

/// Whether a line becomes this one without U+0000, of that length.
fn is_cleaned(alloc: Global, line: &str, want: &str) -> Result<bool, AllocError> {
    let clean = clean_line(alloc, line)?;
    Ok(clean.as_str() == want && clean_len(line) == want.len())
}

#[test]
fn nul_in_a_line(rt: HostRuntime) -> Result<(), Fail> {
    for &(line, want) in &NULS {
        assert!(rt; is_cleaned(rt.alloc(), line, want)?, "{line:?}");
    }
    Ok(())
}
