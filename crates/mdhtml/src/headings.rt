//! HTML of headings.

ghost use Rattle.std.specs.Prelude.{◌≡◌, ◌++◌, ◌<◌, OnOk, codes, length, string_bytes};
ghost use Rattle.mdhtml.specs.held.UnitTexts.{shown_texts};
ghost use Rattle.htmlspec.specs.BlockHtml.{fresh, heading_html, heading_tag, text_html};

use crate::pieces::write_fresh;
use crate::unit_texts::UnitTexts;
use mdtext::NoMemory;

pub(crate) fn write_heading(
    level: u8,
    text: usize,
    texts: &UnitTexts<'_>,
    out: &mut String,
) -> Result<(), NoMemory>
    requires { text < length (shown_texts texts.now) }
    ensures { OnOk result (string_bytes out.new ≡ fresh (string_bytes out.old)
        ++ heading_html level (text_html (shown_texts texts.now) text)) }
{
    let (opening, closing) = tags(level);
    write_fresh(out)?;
    out.push_str(opening)?;
    texts.append_text(text, out)?;
    out.push_str(closing)?;
    Ok(())
}

/// The tags at both ends of a heading, and the end of its line. Each is whole, so that it is appended at once.
fn tags(level: u8) -> (&'static str, &'static str)
    ensures opening { result.0.now ≡ codes "<" ++ heading_tag level ++ codes ">" }
    ensures closing { result.1.now ≡ codes "</" ++ heading_tag level ++ codes ">\n" }
{
    match level {
        1 => ("<h1>", "</h1>\n"),
        2 => ("<h2>", "</h2>\n"),
        3 => ("<h3>", "</h3>\n"),
        4 => ("<h4>", "</h4>\n"),
        5 => ("<h5>", "</h5>\n"),
        _ => ("<h6>", "</h6>\n"),
    }
}
