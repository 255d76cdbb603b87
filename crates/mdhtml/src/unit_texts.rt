//! The HTML of the inline texts of a unit, by their positions.

ghost use Rattle.std.specs.Prelude.{◌≡◌, ◌++◌, ◌<◌, OnOk, length, map, string_bytes};
ghost use Rattle.htmlspec.specs.BlockHtml.{texts_html};
ghost use Rattle.htmlspec.specs.TableHtml.{text_html};

use crate::inlines::write_inlines;
use htmlspec::Options;
use mdinline::Parsed;
use mdtext::NoMemory;

/// The inline texts of a unit, as the HTML of its blocks takes them, and the options for both.
#[derive(Clone, Copy, Drop)]
pub(crate) struct UnitTexts<'a> {
    pub(crate) held: HeldTexts<'a>,
    pub(crate) options: &'a Options,
}

/// What is held of the texts.
#[derive(Clone, Copy, Drop)]
pub(crate) enum HeldTexts<'a> {
    /// They were read.
    Read(&'a [Parsed]),
    /// Their HTML is written.
    Written(&'a [String]),
}

impl<'a> UnitTexts<'a> {
    ghost use Rattle.std.specs.Prelude.{◌≡◌, ◌++◌, ◌<◌, OnOk, length, string_bytes};
    ghost use Rattle.htmlspec.specs.TableHtml.{text_html};
    ghost use Rattle.mdhtml.specs.held.UnitTexts.{shown_texts};

    /// Appends the HTML of the text at a position.
    pub(crate) fn append_text(&self, text: usize, out: &mut String) -> Result<(), NoMemory>
        requires { text < length (shown_texts self.now) }
        ensures { OnOk result (string_bytes out.new ≡ string_bytes out.old ++ text_html (shown_texts self.now) text) }
    {
        match self.held {
            HeldTexts::Read(texts) => append_read(texts, text, self.options, out),
            HeldTexts::Written(texts) => append_written(texts, text, out),
        }
    }
}

fn append_read(
    texts: &[Parsed],
    text: usize,
    options: &Options,
    out: &mut String,
) -> Result<(), NoMemory>
    requires { text < length texts.now }
    ensures { OnOk result (string_bytes out.new ≡ string_bytes out.old ++ text_html (texts_html options.now texts.now) text) }
{
    write_inlines(texts[text].tree(), options, out)
}

fn append_written(texts: &[String], text: usize, out: &mut String) -> Result<(), NoMemory>
    requires { text < length texts.now }
    ensures { OnOk result (string_bytes out.new ≡ string_bytes out.old ++ text_html (map string_bytes texts.now) text) }
{
    out.push_str(&texts[text])?;
    Ok(())
}
