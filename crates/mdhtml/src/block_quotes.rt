//! HTML of block quotes.

ghost use Rattle.std.specs.Prelude.{◌≡◌, ◌++◌, ◌<◌, OnOk, false, length, string_bytes};
ghost use Rattle.mdblock.specs.BlockView.{blocks_view};
ghost use Rattle.blockspec.specs.BlockTree.{block_quote};
ghost use Rattle.mdblock.specs.Positions.{BlocksIn};
ghost use Rattle.mdhtml.specs.held.UnitTexts.{shown_texts};
ghost use Rattle.htmlspec.specs.BlockHtml.{block_html};

use crate::blocks::write_blocks;
use crate::pieces::write_fresh;
use crate::unit_texts::UnitTexts;
use mdblock::Block;
use mdtext::NoMemory;

#[cycle(block)]
pub(crate) fn write_quote(
    inner: &[Block],
    texts: &UnitTexts<'_>,
    out: &mut String,
) -> Result<(), NoMemory>
    requires { BlocksIn (length (shown_texts texts.now)) (blocks_view inner.now) }
    ensures { OnOk result (string_bytes out.new ≡ block_html texts.now.options.now
        (shown_texts texts.now) false (block_quote (blocks_view inner.now)) (string_bytes out.old)) }
{
    write_fresh(out)?;
    out.push_str("<blockquote>\n")?;
    write_blocks(inner, false, texts, out)?;
    write_fresh(out)?;
    out.push_str("</blockquote>\n")?;
    Ok(())
}
