//! HTML of a unit that is one list, and where each of its items ends in it.

ghost use Rattle.std.specs.Prelude.{◌≡◌, ◌++◌, [], MatchOption, OnOk, false, length, string_bytes};
ghost use Rattle.blockspec.specs.BlockTree.{list, block, no_blocks};
ghost use Rattle.mdblock.specs.BlockView.{block_view, blocks_view, items_view};
ghost use Rattle.mdblock.specs.Positions.{BlocksIn, ItemsIn};
ghost use Rattle.mdhtml.specs.held.ListUnits.{NoList, unit_of};
ghost use Rattle.mdhtml.specs.held.UnitTexts.{shown_texts};
ghost use Rattle.htmlspec.specs.BlockHtml.{texts_html, blocks_html, items_html};
ghost use Rattle.htmlspec.specs.ListEnds.{item_ends, unit_ends};

use crate::blocks::write_blocks;
use crate::lists::items::write_item;
use crate::lists::{begin_list, close_list};
use crate::unit_texts::{HeldTexts, UnitTexts};
use htmlspec::Options;
use mdblock::{Block, Item, ListKind};
use mdinline::Parsed;
use mdtext::NoMemory;

/// A list that is all of a unit.
#[derive(Clone, Copy, Drop)]
pub(crate) struct OneList<'a> {
    pub(crate) kind: ListKind,
    pub(crate) tight: bool,
    pub(crate) items: &'a [Item],
}

/// Writes to an empty text what `append_unit_html` does, and where the unit is one list the lengths of the text behind each item to `ends`. After `NoMemory`
/// a beginning of both may stand there.
pub fn append_unit_ends(
    blocks: &[Block],
    texts: &[Parsed],
    options: &Options,
    out: &mut String,
    ends: &mut Vec<usize>,
) -> Result<(), NoMemory>
    requires within { BlocksIn (length texts.now) (blocks_view blocks.now) }
    requires no_text { string_bytes out.old ≡ [] }
    requires no_ends { ends.old.items ≡ [] }
    ensures html { OnOk result (string_bytes out.new
        ≡ blocks_html options.now (texts_html options.now texts.now) false (blocks_view blocks.now) []) }
    ensures ends { OnOk result (ends.new.items ≡ unit_ends options.now (texts_html options.now texts.now) (blocks_view blocks.now)) }
{
    let texts = UnitTexts {
        held: HeldTexts::Read(texts),
        options,
    };
    match one_list(blocks) {
        Some(list) => write_list_ends(&list, &texts, out, ends),
        None => write_blocks(blocks, false, &texts, out),
    }
}

/// The list that is all of a unit, if it is one.
pub(crate) fn one_list(blocks: &[Block]) -> Option<OneList<'_>>
    ensures { MatchOption result (NoList (blocks_view blocks.now)) (λ list. blocks_view blocks.now ≡ unit_of list) }
{
    match blocks {
        [] => None,
        [only] => as_list(only),
        [_, _, ..] => None,
    }
}

fn as_list(only: &Block) -> Option<OneList<'_>>
    ensures { MatchOption result (NoList (block (block_view only.now) no_blocks)) (λ list. block (block_view only.now) no_blocks ≡ unit_of list) }
{
    match only {
        Block::List { kind, tight, items } => Some(OneList {
            kind: *kind,
            tight: *tight,
            items,
        }),
        Block::Paragraph { .. } => None,
        Block::Heading { .. } => None,
        Block::Break => None,
        Block::Code { .. } => None,
        Block::Html(_) => None,
        Block::Quote(_) => None,
        Block::Table { .. } => None,
    }
}

fn write_list_ends(
    list: &OneList<'_>,
    texts: &UnitTexts<'_>,
    out: &mut String,
    ends: &mut Vec<usize>,
) -> Result<(), NoMemory>
    requires within { ItemsIn (length (shown_texts texts.now)) (items_view list.now.items.now) }
    requires no_text { string_bytes out.old ≡ [] }
    requires no_ends { ends.old.items ≡ [] }
    ensures html { OnOk result (string_bytes out.new
        ≡ blocks_html texts.now.options.now (shown_texts texts.now) false (unit_of list.now) []) }
    ensures ends { OnOk result (ends.new.items ≡ unit_ends texts.now.options.now (shown_texts texts.now) (unit_of list.now)) }
{
    ends.reserve(list.items.len())?;
    begin_list(list.kind, out)?;
    write_item_ends(list.items, list.tight, texts, out, ends)?;
    close_list(list.kind, out)
}

/// Items, and the lengths of the text behind each of them.
pub(crate) fn write_item_ends(
    items: &[Item],
    tight: bool,
    texts: &UnitTexts<'_>,
    out: &mut String,
    ends: &mut Vec<usize>,
) -> Result<(), NoMemory>
    requires { ItemsIn (length (shown_texts texts.now)) (items_view items.now) }
    ensures html { OnOk result (string_bytes out.new ≡ items_html texts.now.options.now
        (shown_texts texts.now) tight (items_view items.now) (string_bytes out.old)) }
    ensures ends { OnOk result (ends.new.items ≡ ends.old.items ++ item_ends texts.now.options.now
        (shown_texts texts.now) tight (items_view items.now) (string_bytes out.old)) }
{
    for item in items {
        write_item(item, tight, texts, out)?;
        ends.push(out.len())?;
    }
    Ok(())
}
