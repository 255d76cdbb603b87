//! The marker of a task list item.

ghost use Rattle.std.specs.Prelude.{◌≡◌, ◌<◌, IfSome, length};
ghost use Rattle.std.specs.Str.{IsCharBoundary};
ghost use Rattle.mdscan.specs.TaskListItem.{task_marker};

use mdscan::{TaskMark, task};

/// The task list item marker that a paragraph's text begins with (GFM Task list items (extension)): whether it is ticked, and where the
/// text goes on after it and the spaces and tabs behind it, in bytes.
pub fn task_mark(text: &str) -> Option<TaskMark>
    ensures mark { result ≡ task_marker text.now }
    ensures within { IfSome result (λ mark. mark.after < length text.now) }
    ensures boundary { IfSome result (λ mark. IsCharBoundary text.now mark.after) }
{
    task(text)
}
