//! HTML of line breaks, soft and hard.

ghost use Rattle.std.specs.Prelude.{◌≡◌, ◌++◌, OnOk, codes, string_bytes};
ghost use Rattle.htmlspec.specs.InlineHtml.{break_html};

use htmlspec::{Breaks, Options};
use mdtext::NoMemory;

pub(crate) fn write_soft(options: &Options, out: &mut String) -> Result<(), NoMemory>
    ensures { OnOk result (string_bytes out.new
        ≡ string_bytes out.old ++ break_html options.now.breaks) }
{
    match options.breaks {
        Breaks::Soft => out.push_str("\n")?,
        Breaks::Hard => write_hard(out)?,
        Breaks::Space => out.push_str(" ")?,
    }
    Ok(())
}

pub(crate) fn write_hard(out: &mut String) -> Result<(), NoMemory>
    ensures { OnOk result (string_bytes out.new ≡ string_bytes out.old ++ codes "<br />\n") }
{
    out.push_str("<br />\n")?;
    Ok(())
}
