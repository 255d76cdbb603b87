//! The piece of a unit.

ghost use Rattle.std.specs.Prelude.{◌≡◌, ◌++◌, ◌<◌, IfOk, OnOk, true, false, [], length, string_bytes};
ghost use Rattle.mdblock.specs.BlockView.{blocks_view};
ghost use Rattle.mdblock.specs.Positions.{BlocksIn};
ghost use Rattle.mdhtml.specs.held.UnitTexts.{shown_texts};
ghost use Rattle.htmlspec.specs.BlockHtml.{fresh, ends_line, texts_html, blocks_html};

use crate::blocks::write_blocks;
use crate::unit_texts::{HeldTexts, UnitTexts};
use htmlspec::Options;
use mdblock::Block;
use mdinline::Parsed;
use mdtext::NoMemory;
use std::alloc::Global;

/// The HTML of a unit: of its blocks, whose texts read as `texts`. A piece that is not empty ends with LF. It is refused for want of memory alone.
pub fn unit_html(
    alloc: Global,
    blocks: &[Block],
    texts: &[Parsed],
    options: &Options,
) -> Result<String, NoMemory>
    requires { BlocksIn (length texts.now) (blocks_view blocks.now) }
    ensures value { IfOk result (λ piece. string_bytes piece
        ≡ blocks_html options.now (texts_html options.now texts.now) false (blocks_view blocks.now) []) }
    ensures ends_line { IfOk result (λ piece. ends_line (string_bytes piece) ≡ true) }
{
    let mut out = String::new(alloc);
    append_unit_html(blocks, texts, options, &mut out)?;
    Ok(out)
}

/// Appends to a text that is empty or ends with LF what `unit_html` answers, and leaves it so. After `NoMemory` a beginning of it may stand there.
pub fn append_unit_html(
    blocks: &[Block],
    texts: &[Parsed],
    options: &Options,
    out: &mut String,
) -> Result<(), NoMemory>
    requires within { BlocksIn (length texts.now) (blocks_view blocks.now) }
    requires on_a_line { ends_line (string_bytes out.old) ≡ true }
    ensures value { OnOk result (string_bytes out.new
        ≡ string_bytes out.old ++ blocks_html options.now (texts_html options.now texts.now) false (blocks_view blocks.now) []) }
    ensures ends_line { OnOk result (ends_line (string_bytes out.new) ≡ true) }
{
    let texts = UnitTexts {
        held: HeldTexts::Read(texts),
        options,
    };
    append_blocks(blocks, &texts, out)
}

/// Appends to a text that is empty or ends with LF the HTML of a unit's blocks, and leaves it so.
pub(crate) fn append_blocks(
    blocks: &[Block],
    texts: &UnitTexts<'_>,
    out: &mut String,
) -> Result<(), NoMemory>
    requires within { BlocksIn (length (shown_texts texts.now)) (blocks_view blocks.now) }
    requires on_a_line { ends_line (string_bytes out.old) ≡ true }
    ensures value { OnOk result (string_bytes out.new
        ≡ string_bytes out.old ++ blocks_html texts.now.options.now (shown_texts texts.now) false (blocks_view blocks.now) []) }
    ensures ends_line { OnOk result (ends_line (string_bytes out.new) ≡ true) }
{
    write_blocks(blocks, false, texts, out)?;
    Ok(())
}

/// A line ending, unless the piece so far is empty or ends with one.
#[tactic(auto, unfolding(htmlspec::specs::BlockHtml::fresh))]
pub(crate) fn write_fresh(out: &mut String) -> Result<(), NoMemory>
    ensures { OnOk result (string_bytes out.new ≡ fresh (string_bytes out.old)) }
{
    match out.as_bytes() {
        [] | [.., b'\n'] => Ok(()),
        _ => {
            out.push_str("\n")?;
            Ok(())
        }
    }
}
