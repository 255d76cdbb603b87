//! Rows of the standard (CommonMark 6.2; GFM Strikethrough (extension)), read from their texts.

mod plain_search;
mod rooms;

use mdpair::{DelimiterRun, Match, delimiter_run, pair};
use std::alloc::{AllocError, Global};
use std::process::Abort;
use std::test::Fail;

/// The run at a byte that is not before this end of another.
fn run_behind(text: &str, at: usize, end: usize) -> Option<DelimiterRun> {
    if at < end {
        return None;
    }
    delimiter_run(text, at)
}

/// The delimiter runs of a text without brackets, escapes and code.
fn runs_of(alloc: Global, text: &str) -> Result<Vec<DelimiterRun>, AllocError> {
    let mut runs = Vec::new(alloc);
    let mut end = 0;
    for at in 0..text.len() {
        if let Some(run) = run_behind(text, at, end) {
            runs.push(run)?;
            end = at.saturating_add(run.length);
        }
    }
    Ok(runs)
}

/// Whether a match has this opener, this closer and this width.
fn is_match(matched: &Match, opener: usize, closer: usize, width: usize) -> bool {
    matched.opener == opener && matched.closer == closer && matched.width == width
}

/// Whether the matches are those.
fn are_matches(matches: &[Match], wants: &[Match]) -> bool {
    for (matched, want) in matches.iter().zip(wants) {
        if !is_match(matched, want.opener, want.closer, want.width) {
            return false;
        }
    }
    matches.len() == wants.len()
}

fn check(
    rt: &impl Abort,
    alloc: Global,
    text: &str,
    want: &[(usize, usize, usize)],
) -> Result<(), AllocError> {
    let runs = runs_of(alloc, text)?;
    let matches = pair(alloc, &runs)?;
    assert_eq!(rt; matches.len(), want.len(), "in {text}");
    for (matched, &(opener, closer, width)) in matches.iter().zip(want) {
        assert!(rt; is_match(matched, opener, closer, width), "in {text}");
    }
    Ok(())
}

static PAIRED: &[(&str, &[(usize, usize, usize)])] = &[
    ("*foo bar*", &[(0, 1, 1)]),
    ("foo*bar*", &[(0, 1, 1)]),
    ("foo_bar_baz", &[]),
    ("_foo*", &[]),
    ("**foo bar**", &[(0, 1, 2)]),
    ("*foo**bar*", &[(0, 2, 1)]),
    ("*foo**bar**baz*", &[(1, 2, 2), (0, 3, 1)]),
    ("***foo** bar*", &[(0, 1, 2), (0, 2, 1)]),
    ("*foo **bar***", &[(1, 2, 2), (0, 2, 1)]),
    ("foo***bar***baz", &[(0, 1, 2), (0, 1, 1)]),
    (
        "foo******bar*********baz",
        &[(0, 1, 2), (0, 1, 2), (0, 1, 2)],
    ),
    ("__foo, __bar__, baz__", &[(1, 2, 2), (0, 3, 2)]),
    ("*foo _bar* baz_", &[(0, 2, 1)]),
    ("*foo __bar *baz bim__ bam*", &[(1, 3, 2), (0, 4, 1)]),
    ("**foo*", &[(0, 1, 1)]),
    ("*foo**", &[(0, 1, 1)]),
    ("****foo*", &[(0, 1, 1)]),
    ("**foo***", &[(0, 1, 2)]),
    ("**foo *bar **baz**", &[(2, 3, 2)]),
    ("~~Hi~~ Hello, ~there~ world!", &[(0, 1, 2), (2, 3, 1)]),
    ("a ~~~b~~~", &[]),
    ("~a~~ b~", &[(0, 2, 1)]),
    ("~~a~ b", &[]),
    ("*a ~b* c~", &[(0, 2, 1)]),
    ("~a *b~ c*", &[(0, 2, 1)]),
    ("", &[]),
];

/// Each row is a text and the matches of its runs: opener, closer, width.
#[test]
fn runs_are_paired(rt: HostRuntime) -> Result<(), Fail> {
    for &(text, want) in PAIRED {
        check(&rt, rt.alloc(), text, want)?;
    }
    Ok(())
}

/// The length of the run at a byte, and whether it can open and can close.
fn run_at(text: &str, at: usize) -> Option<(usize, bool, bool)> {
    match delimiter_run(text, at) {
        Some(run) => Some((run.length, run.can_open, run.can_close)),
        None => None,
    }
}

/// Texts, and a byte of each at which no run begins.
static NO_RUNS: &[(&str, usize)] = &[("a*", 0), ("a*", 2), ("\u{301}*", 1)];

static NEIGHBOURS: &[(&str, usize, usize, bool, bool)] = &[
    ("***abc", 0, 3, true, false),
    ("  _abc", 2, 1, true, false),
    ("**\"abc\"", 0, 2, true, false),
    (" abc***", 4, 3, false, true),
    ("\"abc\"**", 5, 2, false, true),
    (" abc***def", 4, 3, true, true),
    ("abc _ def", 4, 1, false, false),
    ("a_b", 1, 1, false, false),
    ("a\"_\"b", 2, 1, true, true),
    ("a*\"foo\"*", 1, 1, false, true),
    // The no-break space is Unicode whitespace.
    ("*\u{A0}a\u{A0}*", 0, 1, false, false),
    ("*\u{A0}a\u{A0}*", 6, 1, false, false),
    // Currency signs are symbols, which count as punctuation.
    ("a*\u{A3}*bravo.", 1, 1, false, true),
    ("*\u{20AC}*charlie.", 4, 1, true, false),
    ("\u{20AC}*a", 3, 1, true, false),
    // A dash is punctuation.
    ("_foo_\u{2014}bar", 4, 1, false, true),
    ("foo\u{2014}_bar_", 6, 1, true, false),
    // A combining mark is neither.
    ("a*\u{301}b", 1, 1, true, true),
    ("e\u{301}_a", 3, 1, false, false),
    // A line ending is whitespace, U+200B is not.
    ("*\na", 0, 1, false, false),
    ("*\u{200B}", 0, 1, true, false),
    ("\u{1F600}*a", 4, 1, true, false),
    ("a~~b", 1, 2, true, true),
    ("a~~~b", 1, 3, false, false),
    ("\\*a", 1, 1, true, false),
];

/// Each row is a text, a byte of it, and of the run there the length and whether it can open and can close.
#[test]
fn neighbours_decide(rt: HostRuntime) {
    for &(text, at, length, can_open, can_close) in NEIGHBOURS {
        let want = Some((length, can_open, can_close));
        assert_eq!(rt; run_at(text, at), want, "in {text}");
    }
    for &(text, at) in NO_RUNS {
        assert_eq!(rt; run_at(text, at), None, "in {text}");
    }
}
