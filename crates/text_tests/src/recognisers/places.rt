//! Texts and their places, with what a recogniser is to find at each.

use std::fmt::Debug;
use std::process::Abort;

fn check_place<T: Copy + Debug + PartialEq>(
    rt: &impl Abort,
    text: &str,
    at: usize,
    found: Option<T>,
    want: Option<T>,
) {
    assert!(rt; text.is_char_boundary(at));
    assert_eq!(rt; found, want, "at {at} of {text}");
}

/// Looks at each place of each text.
pub(super) fn compare<T: Copy + Debug + PartialEq, F: Fn(&str, usize) -> Option<T>>(
    rt: &impl Abort,
    found_at: F,
    rows: &[(&str, &[(usize, Option<T>)])],
)
    requires { F.IsAlwaysCallable found_at }
{
    for &(text, places) in rows {
        for &(at, want) in places {
            check_place(rt, text, at, found_at(text, at), want);
        }
    }
}
