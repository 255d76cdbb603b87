//! HTML of code blocks, fenced and indented.

ghost use Rattle.std.specs.Prelude.{◌≡◌, ◌++◌, OnOk, string_bytes};
ghost use Rattle.htmlspec.specs.BlockHtml.{fresh, code_html, code_open, meta_attribute};

use crate::pieces::write_fresh;
use htmlspec::Options;
use mdtext::{NoMemory, escape_text};

pub(crate) fn write_code(
    lang: &str,
    meta: &str,
    body: &str,
    options: &Options,
    out: &mut String,
) -> Result<(), NoMemory>
    ensures { OnOk result (string_bytes out.new
        ≡ fresh (string_bytes out.old) ++ code_html options.now lang.now meta.now body.now) }
{
    write_fresh(out)?;
    open_code(lang, meta, options, out)?;
    escape_text(body, out)?;
    out.push_str("</code></pre>\n")?;
    Ok(())
}

fn open_code(lang: &str, meta: &str, options: &Options, out: &mut String) -> Result<(), NoMemory>
    ensures { OnOk result (string_bytes out.new ≡ string_bytes out.old ++ code_open options.now lang.now meta.now) }
{
    if lang.is_empty() {
        out.push_str("<pre><code>")?;
    } else if options.pre_lang {
        out.push_str("<pre lang=\"")?;
        escape_text(lang, out)?;
        write_meta(meta, options, out)?;
        out.push_str("\"><code>")?;
    } else {
        out.push_str("<pre><code class=\"language-")?;
        escape_text(lang, out)?;
        write_meta(meta, options, out)?;
        out.push_str("\">")?;
    }
    Ok(())
}

/// Writes the rest of the info string, where it is asked for and is not empty.
fn write_meta(meta: &str, options: &Options, out: &mut String) -> Result<(), NoMemory>
    ensures ok { OnOk result (string_bytes out.new ≡ string_bytes out.old ++ meta_attribute options.now meta.now) }
{
    if options.full_info_string && !meta.is_empty() {
        out.push_str("\" data-meta=\"")?;
        escape_text(meta, out)?;
    }
    Ok(())
}
