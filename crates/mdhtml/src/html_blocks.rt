//! HTML blocks.

ghost use Rattle.std.specs.Prelude.{◌≡◌, ◌++◌, OnOk, string_bytes};
ghost use Rattle.htmlspec.specs.BlockHtml.{fresh, raw_block_html};

use crate::pieces::write_fresh;
use crate::raw_html::write_raw;
use htmlspec::Options;
use mdtext::NoMemory;

pub(crate) fn write_html(text: &str, options: &Options, out: &mut String) -> Result<(), NoMemory>
    ensures { OnOk result (string_bytes out.new
        ≡ fresh (string_bytes out.old) ++ raw_block_html options.now text.now) }
{
    write_fresh(out)?;
    write_raw(text, options, out)?;
    out.push_str("\n")?;
    Ok(())
}
