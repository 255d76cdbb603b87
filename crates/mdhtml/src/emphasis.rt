//! HTML of emphasis, strong emphasis and strikethrough.

ghost use Rattle.std.specs.Prelude.{◌≡◌, ◌++◌, OnOk, string_bytes};
ghost use Rattle.mdinline.specs.TreeView.{inlines_view};
ghost use Rattle.htmlspec.specs.InlineHtml.{wrapped, inlines_html};

use crate::inlines::write_inlines;
use htmlspec::Options;
use mdinline::Inline;
use mdtext::NoMemory;

#[cycle(inline)]
pub(crate) fn write_wrapped(
    tag: &str,
    inner: &[Inline],
    options: &Options,
    out: &mut String,
) -> Result<(), NoMemory>
    ensures { OnOk result (string_bytes out.new
        ≡ string_bytes out.old ++ wrapped tag.now (inlines_html options.now (inlines_view inner.now))) }
{
    out.push_str("<")?;
    out.push_str(tag)?;
    out.push_str(">")?;
    write_inlines(inner, options, out)?;
    out.push_str("</")?;
    out.push_str(tag)?;
    out.push_str(">")?;
    Ok(())
}
