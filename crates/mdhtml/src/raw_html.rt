//! Raw HTML.

ghost use Rattle.std.specs.Prelude.{◌≡◌, ◌++◌, OnOk, string_bytes};
ghost use Rattle.htmlspec.specs.InlineHtml.{raw_html};

use htmlspec::Options;
use mdtext::NoMemory;

/// Raw HTML, which is left out without `unsafe_html`.
pub(crate) fn write_raw(text: &str, options: &Options, out: &mut String) -> Result<(), NoMemory>
    ensures { OnOk result (string_bytes out.new
        ≡ string_bytes out.old ++ raw_html options.now text.now) }
{
    let shown = if options.unsafe_html {
        text
    } else {
        "<!-- raw HTML omitted -->"
    };
    out.push_str(shown)?;
    Ok(())
}
