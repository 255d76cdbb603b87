//! Markers of task list items.

ghost use Rattle.std.specs.Prelude.{◌≡◌, ◌<◌, ◌≤◌, IfSome, IsTrue, length};
ghost use Rattle.std.specs.Str.{IsCharBoundary};
ghost use Rattle.mdscan.specs.TaskListItem.{begins_box, begins_text, is_tick, task_marker};

use crate::byte_runs::{blank, leading_blanks};

/// A task marker: whether it is ticked, and where the text goes on after it and the spaces and tabs behind it.
#[derive(Clone, Copy, Debug, PartialEq, Eq)]
pub struct TaskMark {
    /// Whether the box has a tick.
    pub ticked: bool,
    /// Where the text goes on, in bytes.
    pub after: usize,
}

/// The task marker that a paragraph's text begins with (GFM Task list items (extension)).
#[tactic(auto, unfolding(crate::specs::TaskListItem::task_marker))]
pub fn task(text: &str) -> Option<TaskMark>
    ensures mark { result ≡ task_marker text.now }
    ensures within { IfSome result (λ mark. mark.after < length text.now) }
    ensures boundary { IfSome result (λ mark. IsCharBoundary text.now mark.after) }
{
    let bytes = text.as_bytes();
    if !has_box(bytes) {
        return None;
    }
    let blanks = leading_blanks(&bytes[3..]);
    let after = 3 + blanks;
    if blanks > 0 && text_follows(&bytes[after..]) {
        Some(TaskMark {
            ticked: tick(bytes[1]),
            after,
        })
    } else {
        None
    }
}

/// Whether a byte is `x` in either case.
fn tick(byte: u8) -> bool
    ensures { result ≡ is_tick byte }
{
    matches!(byte, b'x' | b'X')
}

/// Whether a text begins with brackets round a space, a tab or a tick.
fn has_box(text: &[u8]) -> bool
    ensures value { result ≡ begins_box text.now }
    ensures long { IsTrue result → 3 ≤ length text.now }
{
    match text {
        [b'[', inside, b']', ..] => blank(*inside) || tick(*inside),
        _ => false,
    }
}

/// Whether a text has something before its first line ends.
fn text_follows(rest: &[u8]) -> bool
    ensures value { result ≡ begins_text rest.now }
    ensures some { IsTrue result → 0 < length rest.now }
{
    match rest {
        [first, ..] => *first != b'\n',
        [] => false,
    }
}
