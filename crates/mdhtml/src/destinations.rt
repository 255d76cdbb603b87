//! Destinations and titles of links and images, as attributes hold them.

ghost use Rattle.std.specs.Prelude.{◌≡◌, ◌++◌, OnOk, string_bytes};
ghost use Rattle.htmlspec.specs.Attributes.{begins_with, is_harmful, destination_html, title_html};

use htmlspec::Options;
use mdtext::{NoMemory, escape_text, escape_url};

/// A destination; without `unsafe_html` a harmful one is written empty.
pub(crate) fn write_destination(
    url: &str,
    options: &Options,
    out: &mut String,
) -> Result<(), NoMemory>
    ensures { OnOk result (string_bytes out.new
        ≡ string_bytes out.old ++ destination_html options.now url.now) }
{
    if options.unsafe_html || !is_harmful(url.as_bytes()) {
        escape_url(url, out)?;
    }
    Ok(())
}

/// A title, where there is one.
pub(crate) fn write_title(title: &str, out: &mut String) -> Result<(), NoMemory>
    ensures { OnOk result (string_bytes out.new ≡ string_bytes out.old ++ title_html title.now) }
{
    if !title.is_empty() {
        out.push_str(" title=\"")?;
        escape_text(title, out)?;
        out.push_str("\"")?;
    }
    Ok(())
}

/// Whether a destination may run a script or show local data.
#[tactic(auto, unfolding(htmlspec::specs::Attributes::is_harmful))]
fn is_harmful(url: &[u8]) -> bool
    ensures { result ≡ is_harmful url.now }
{
    (begins_with(url, b"javascript:")
        || begins_with(url, b"vbscript:")
        || begins_with(url, b"file:")
        || begins_with(url, b"data:"))
        && !(begins_with(url, b"data:image/png")
            || begins_with(url, b"data:image/gif")
            || begins_with(url, b"data:image/jpeg")
            || begins_with(url, b"data:image/webp"))
}

/// Whether the bytes begin with a text, in any case of the ASCII letters.
fn begins_with(bytes: &[u8], text: &[u8]) -> bool
    ensures { result ≡ begins_with text.now bytes.now }
{
    let mut rest = bytes;
    for want in text {
        match rest {
            [have, after @ ..] if have.eq_ignore_ascii_case(want) => rest = after,
            _ => return false,
        }
    }
    true
}
