//! Task list items (GFM Task list items (extension)): the marker with which the first paragraph of an item may begin.

ghost use Rattle.std.specs.Prelude.{◌≡◌, IfOk, string_bytes};
ghost use Rattle.mdblock.specs.held.HandedIn.{taken};
ghost use Rattle.blockspec.specs.NodeTree.{paragraph_leaf};

use mdleaf::task_mark;
use std::alloc::AllocError;

/// Takes a task marker off the first text of an item, and says whether it is ticked.
pub(crate) fn take_task(text: &mut String, first: bool) -> Result<Option<bool>, AllocError>
    ensures { IfOk result (λ task. paragraph_leaf task (string_bytes text.new) ≡ taken first (string_bytes text.old)) }
{
    if !first {
        return Ok(None);
    }
    match task_mark(text.as_str()) {
        Some(mark) => {
            text.replace_range(..mark.after, "")?;
            Ok(Some(mark.ticked))
        }
        None => Ok(None),
    }
}
