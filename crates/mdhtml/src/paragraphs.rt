//! HTML of paragraphs.

ghost use Rattle.std.specs.Prelude.{◌≡◌, ◌++◌, ◌<◌, OnOk, length, string_bytes};
ghost use Rattle.mdhtml.specs.held.UnitTexts.{shown_texts};
ghost use Rattle.htmlspec.specs.BlockHtml.{paragraph_html, text_html, task_box};

use crate::lists::task_list_items::write_box;
use crate::pieces::write_fresh;
use crate::unit_texts::UnitTexts;
use mdtext::NoMemory;

/// A paragraph; `tight` is whether it is a direct child of a tight list's item.
pub(crate) fn write_paragraph(
    text: usize,
    task: Option<bool>,
    tight: bool,
    texts: &UnitTexts<'_>,
    out: &mut String,
) -> Result<(), NoMemory>
    requires { text < length (shown_texts texts.now) }
    ensures { OnOk result (string_bytes out.new ≡ paragraph_html tight
        (task_box task ++ text_html (shown_texts texts.now) text) (string_bytes out.old)) }
{
    if tight {
        write_box(task, out)?;
        return texts.append_text(text, out);
    }
    write_fresh(out)?;
    out.push_str("<p>")?;
    write_box(task, out)?;
    texts.append_text(text, out)?;
    out.push_str("</p>\n")?;
    Ok(())
}
