//! HTML of the box of a task list item.

ghost use Rattle.std.specs.Prelude.{◌≡◌, ◌++◌, OnOk, string_bytes};
ghost use Rattle.htmlspec.specs.BlockHtml.{task_box};

use mdtext::NoMemory;

/// The box of a task list item, which stands at the front of its paragraph.
pub(crate) fn write_box(task: Option<bool>, out: &mut String) -> Result<(), NoMemory>
    ensures { OnOk result (string_bytes out.new ≡ string_bytes out.old ++ task_box task) }
{
    match task {
        None => {}
        Some(false) => out.push_str("<input disabled=\"\" type=\"checkbox\"> ")?,
        Some(true) => out.push_str("<input checked=\"\" disabled=\"\" type=\"checkbox\"> ")?,
    }
    Ok(())
}
