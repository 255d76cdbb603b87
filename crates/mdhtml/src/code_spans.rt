//! HTML of code spans.

ghost use Rattle.std.specs.Prelude.{◌≡◌, ◌++◌, OnOk, codes, string_bytes};
ghost use Rattle.mdtext.specs.HtmlEscapes.{escaped};
ghost use Rattle.inlinespec.specs.CodeSpans.{as_one_line};
ghost use Rattle.htmlspec.specs.InlineHtml.{wrapped};

use mdtext::{NoMemory, escape_text};

pub(crate) fn write_code_span(text: &str, out: &mut String) -> Result<(), NoMemory>
    ensures { OnOk result (string_bytes out.new
        ≡ string_bytes out.old ++ wrapped (codes "code") (escaped text.now)) }
{
    out.push_str("<code>")?;
    escape_text(text, out)?;
    out.push_str("</code>")?;
    Ok(())
}

/// Appends a code span's content with a space for each line ending (CommonMark 6.1).
pub(crate) fn write_as_one_line(content: &str, out: &mut String) -> Result<(), NoMemory>
    ensures { OnOk result (string_bytes out.new ≡ string_bytes out.old ++ escaped (as_one_line content.now)) }
{
    let mut rest = content;
    while let Some((line, after)) = rest.split_once('\n') {
        escape_text(line, out)?;
        out.push_str(" ")?;
        rest = after;
    }
    escape_text(rest, out)
}
