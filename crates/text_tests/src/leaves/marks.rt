//! Task marks.

use mdleaf::task_mark;

static TASKS: [(&str, Option<(bool, usize)>); 24] = [
    ("[ ] foo", Some((false, 4))),
    ("[x] bar", Some((true, 4))),
    ("[X] baz", Some((true, 4))),
    ("[\t] a", Some((false, 4))),
    ("[x]\ta", Some((true, 4))),
    ("[x]  \t a", Some((true, 7))),
    ("[ ]", None),
    ("[ ] ", None),
    ("[ ]foo", None),
    ("[x]\nfoo", None),
    ("[x] \nfoo", None),
    ("[\n] a", None),
    ("[] a", None),
    ("[xx] a", None),
    ("[y] a", None),
    (" [ ] a", None),
    ("a [ ] b", None),
    ("", None),
    ("[", None),
    ("[x", None),
    ("[x] ä", Some((true, 4))),
    ("[ ] \u{A0}", Some((false, 4))),
    ("[x] [ ] a", Some((true, 4))),
    ("\\[ ] a", None),
];

/// Whether a mark is ticked, and where the text behind it begins.
fn mark_parts(text: &str) -> Option<(bool, usize)> {
    let mark = task_mark(text)?;
    Some((mark.ticked, mark.after))
}

/// Ticked and not, spaces and tabs, line endings, and nothing behind.
#[test]
fn task_marks(rt: HostRuntime) {
    for &(text, want) in &TASKS {
        assert_eq!(rt; mark_parts(text), want, "at {text}");
    }
}
