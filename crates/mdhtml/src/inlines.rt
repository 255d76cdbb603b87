//! HTML of inlines, one behind the other.

ghost use Rattle.std.specs.Prelude.{◌≡◌, ◌++◌, OnOk, string_bytes};
ghost use Rattle.mdinline.specs.TreeView.{inline_view, inlines_view};
ghost use Rattle.htmlspec.specs.InlineHtml.{inline_html, inlines_html};

use crate::code_spans::write_code_span;
use crate::emphasis::write_wrapped;
use crate::images::write_image;
use crate::line_breaks::{write_hard, write_soft};
use crate::links::write_link;
use crate::raw_html::write_raw;
use htmlspec::Options;
use mdinline::Inline;
use mdtext::{NoMemory, escape_text};

#[cycle(inline)]
pub(crate) fn write_inlines(
    inlines: &[Inline],
    options: &Options,
    out: &mut String,
) -> Result<(), NoMemory>
    ensures { OnOk result (string_bytes out.new
        ≡ string_bytes out.old ++ inlines_html options.now (inlines_view inlines.now)) }
{
    for inline in inlines {
        write_inline(inline, options, out)?;
    }
    Ok(())
}

#[cycle(inline)]
fn write_inline(inline: &Inline, options: &Options, out: &mut String) -> Result<(), NoMemory>
    ensures { OnOk result (string_bytes out.new
        ≡ string_bytes out.old ++ inline_html options.now (inline_view inline.now)) }
{
    match inline {
        Inline::Text(text) => escape_text(text, out),
        Inline::Code(text) => write_code_span(text, out),
        Inline::Html(text) => write_raw(text, options, out),
        Inline::Soft => write_soft(options, out),
        Inline::Hard => write_hard(out),
        Inline::Emph(inner) => write_wrapped("em", inner, options, out),
        Inline::Strong(inner) => write_wrapped("strong", inner, options, out),
        Inline::Strike(inner) => write_wrapped("del", inner, options, out),
        Inline::Link(target, inner) => write_link(target, inner, options, out),
        Inline::Image(target, inner) => write_image(target, inner, options, out),
    }
}
