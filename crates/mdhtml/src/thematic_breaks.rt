//! HTML of thematic breaks.

ghost use Rattle.std.specs.Prelude.{◌≡◌, ◌++◌, OnOk, codes, string_bytes};
ghost use Rattle.htmlspec.specs.BlockHtml.{fresh};

use crate::pieces::write_fresh;
use mdtext::NoMemory;

pub(crate) fn write_thematic_break(out: &mut String) -> Result<(), NoMemory>
    ensures { OnOk result (string_bytes out.new
        ≡ fresh (string_bytes out.old) ++ codes "<hr />\n") }
{
    write_fresh(out)?;
    out.push_str("<hr />\n")?;
    Ok(())
}
