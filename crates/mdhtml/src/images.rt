//! HTML of images.

ghost use Rattle.std.specs.Prelude.{◌≡◌, ◌++◌, OnOk, codes, string_bytes};
ghost use Rattle.mdtext.specs.HtmlEscapes.{escaped};
ghost use Rattle.mdinline.specs.TreeView.{inline_view, inlines_view};
ghost use Rattle.htmlspec.specs.InlineHtml.{alt, alts, image_begins, image_ends, image_html};

use crate::destinations::{write_destination, write_title};
use htmlspec::Options;
use mdinline::Inline;
use mdtext::{NoMemory, Target, escape_text};

/// An image with its alternative text, which has no tags.
pub(crate) fn write_image(
    target: &Target,
    inner: &[Inline],
    options: &Options,
    out: &mut String,
) -> Result<(), NoMemory>
    ensures { OnOk result (string_bytes out.new ≡ string_bytes out.old ++ image_html options.now
        (string_bytes target.now.url) (string_bytes target.now.title) (alts (inlines_view inner.now))) }
{
    begin_image(&target.url, options, out)?;
    write_alts(inner, out)?;
    end_image(&target.title, out)
}

/// Appends what stands before an image's alternative text.
pub(crate) fn begin_image(url: &str, options: &Options, out: &mut String) -> Result<(), NoMemory>
    ensures { OnOk result (string_bytes out.new ≡ string_bytes out.old ++ image_begins options.now url.now) }
{
    out.push_str("<img src=\"")?;
    write_destination(url, options, out)?;
    out.push_str("\" alt=\"")?;
    Ok(())
}

/// Appends what stands behind an image's alternative text.
pub(crate) fn end_image(title: &str, out: &mut String) -> Result<(), NoMemory>
    ensures { OnOk result (string_bytes out.new ≡ string_bytes out.old ++ image_ends title.now) }
{
    out.push_str("\"")?;
    write_title(title, out)?;
    out.push_str(" />")?;
    Ok(())
}

#[cycle(alt)]
fn write_alts(inlines: &[Inline], out: &mut String) -> Result<(), NoMemory>
    ensures { OnOk result (string_bytes out.new
        ≡ string_bytes out.old ++ escaped (alts (inlines_view inlines.now))) }
{
    for inline in inlines {
        write_alt(inline, out)?;
    }
    Ok(())
}

#[cycle(alt)]
fn write_alt(inline: &Inline, out: &mut String) -> Result<(), NoMemory>
    ensures { OnOk result (string_bytes out.new
        ≡ string_bytes out.old ++ escaped (alt (inline_view inline.now))) }
{
    match inline {
        Inline::Text(text) | Inline::Code(text) | Inline::Html(text) => escape_text(text, out),
        Inline::Soft | Inline::Hard => escape_text(" ", out),
        Inline::Emph(inner) | Inline::Strong(inner) | Inline::Strike(inner) => {
            write_alts(inner, out)
        }
        Inline::Link(_, inner) | Inline::Image(_, inner) => write_alts(inner, out),
    }
}
