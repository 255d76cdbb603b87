//! HTML of an item of a list.

ghost use Rattle.std.specs.Prelude.{◌≡◌, ◌++◌, ◌<◌, OnOk, length, string_bytes};
ghost use Rattle.mdblock.specs.BlockView.{item_view};
ghost use Rattle.mdblock.specs.Positions.{BlocksIn};
ghost use Rattle.mdhtml.specs.held.UnitTexts.{shown_texts};
ghost use Rattle.htmlspec.specs.ListEnds.{item_html};

use crate::blocks::write_blocks;
use crate::pieces::write_fresh;
use crate::unit_texts::UnitTexts;
use mdblock::Item;
use mdtext::NoMemory;

/// An item with what it holds. It is inlined, so that a level of blocks takes no more calls.
#[inline(always)]
#[cycle(block)]
pub(crate) fn write_item(
    item: &Item,
    tight: bool,
    texts: &UnitTexts<'_>,
    out: &mut String,
) -> Result<(), NoMemory>
    requires { BlocksIn (length (shown_texts texts.now)) (item_view item.now) }
    ensures { OnOk result (string_bytes out.new ≡ item_html texts.now.options.now
        (shown_texts texts.now) tight (item_view item.now) (string_bytes out.old)) }
{
    write_fresh(out)?;
    out.push_str("<li>")?;
    write_blocks(&item.blocks, tight, texts, out)?;
    out.push_str("</li>\n")?;
    Ok(())
}
