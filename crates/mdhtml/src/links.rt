//! HTML of links.

ghost use Rattle.std.specs.Prelude.{◌≡◌, ◌++◌, OnOk, codes, string_bytes};
ghost use Rattle.mdinline.specs.TreeView.{inlines_view};
ghost use Rattle.htmlspec.specs.InlineHtml.{inlines_html, link_open};

use crate::destinations::{write_destination, write_title};
use crate::inlines::write_inlines;
use htmlspec::Options;
use mdinline::Inline;
use mdtext::{NoMemory, Target};

#[cycle(inline)]
pub(crate) fn write_link(
    target: &Target,
    inner: &[Inline],
    options: &Options,
    out: &mut String,
) -> Result<(), NoMemory>
    ensures { OnOk result (string_bytes out.new ≡ string_bytes out.old
        ++ link_open options.now (string_bytes target.now.url) (string_bytes target.now.title)
        ++ inlines_html options.now (inlines_view inner.now) ++ codes "</a>") }
{
    open_link(&target.url, &target.title, options, out)?;
    write_inlines(inner, options, out)?;
    out.push_str("</a>")?;
    Ok(())
}

/// The tag with which a link begins.
pub(crate) fn open_link(
    url: &str,
    title: &str,
    options: &Options,
    out: &mut String,
) -> Result<(), NoMemory>
    ensures { OnOk result (string_bytes out.new ≡ string_bytes out.old ++ link_open options.now url.now title.now) }
{
    out.push_str("<a href=\"")?;
    write_destination(url, options, out)?;
    out.push_str("\"")?;
    write_title(title, out)?;
    out.push_str(">")?;
    Ok(())
}
