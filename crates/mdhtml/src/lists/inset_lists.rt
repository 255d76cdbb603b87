//! HTML of a unit that is one list, of which some items are new and those in front of them and behind them stay where an old unit holds them.

ghost use Rattle.std.specs.Prelude.{◌≡◌, ◌+◌, ◌<◌, ◌≤◌, [], IfOk, OnOk, false, true, length, string_bytes};
ghost use Rattle.std.specs.List.{AllByRecursion};
ghost use Rattle.mdblock.specs.BlockView.{blocks_view, items_view};
ghost use Rattle.mdblock.specs.Copies.{IsBehind, items_positions};
ghost use Rattle.mdblock.specs.Positions.{BlocksIn, ItemsIn};
ghost use Rattle.mdblock.specs.Spliced.{drop_items, first_items, take_items};
ghost use Rattle.htmlspec.specs.BlockHtml.{texts_html, blocks_html};
ghost use Rattle.mdhtml.specs.InsetLists.{inset_blocks, inset_readings};
ghost use Rattle.htmlspec.specs.ListEnds.{unit_ends};
ghost use Rattle.mdhtml.specs.held.KeptItems.{list_around, list_ends_around};

use crate::lists::item_ends::{OneList, one_list, write_item_ends};
use crate::lists::kept_items::{Between, append_between};
use crate::lists::like_lists::Like;
use crate::lists::{begin_list, close_list};
use crate::unit_texts::{HeldTexts, UnitTexts};
use htmlspec::Options;
use mdblock::Item;
use mdinline::Parsed;
use mdtext::NoMemory;

/// Writes to an empty text what `append_unit_ends` does for a list of an old unit's first `front` items, `items`, and the old unit's items from number `later` on
/// (counted from 0), which is one list; of the same kind, and tight or loose as that is. Neither the items nor their texts are put together: `texts` is what those
/// of `items` read as, in order, and they come in the place of as many behind `like.front` old ones. The bytes of the old items are taken from the old unit's
/// HTML; how many texts at the end are the same is not looked at.
///
/// Answers whether it wrote them: nothing is written where the old unit is not one list with so many items, or where its HTML can't be cut. After `NoMemory` a
/// beginning of both may stand there.
pub fn append_inset_list(
    items: &[Item],
    front: usize,
    later: usize,
    texts: &[Parsed],
    options: &Options,
    like: &Like<'_>,
    out: &mut String,
    ends: &mut Vec<usize>,
) -> Result<bool, NoMemory>
    requires within { ItemsIn (length texts.now) (items_view items.now) }
    requires order { IsBehind 0 (items_positions (items_view items.now)) (length texts.now) }
    requires room { like.now.front ≤ length like.now.texts.now }
    requires before { AllByRecursion (λ at. at < like.now.front) (items_positions (take_items front (first_items (blocks_view like.now.blocks.now)))) }
    requires behind { AllByRecursion (λ at. like.now.front + length texts.now ≤ at) (items_positions (drop_items later (first_items (blocks_view like.now.blocks.now)))) }
    requires no_text { string_bytes out.old ≡ [] }
    requires no_ends { ends.old.items ≡ [] }
    requires like_html { like.now.html.now ≡ blocks_html options.now (texts_html options.now like.now.texts.now) false (blocks_view like.now.blocks.now) [] }
    requires like_ends { like.now.ends.now ≡ unit_ends options.now (texts_html options.now like.now.texts.now) (blocks_view like.now.blocks.now) }
    ensures html { IfOk result (λ done. done ≡ true → string_bytes out.new
        ≡ blocks_html options.now (texts_html options.now (inset_readings like.now.front texts.now like.now.texts.now)) false
        (inset_blocks front like.now.front (items_view items.now) later (blocks_view like.now.blocks.now)) []) }
    ensures ends { IfOk result (λ done. done ≡ true → ends.new.items
        ≡ unit_ends options.now (texts_html options.now (inset_readings like.now.front texts.now like.now.texts.now))
        (inset_blocks front like.now.front (items_view items.now) later (blocks_view like.now.blocks.now))) }
    ensures no_text { IfOk result (λ done. done ≡ false → string_bytes out.new ≡ []) }
    ensures no_ends { IfOk result (λ done. done ≡ false → ends.new.items ≡ []) }
{
    let Some(other) = one_list(like.blocks) else {
        return Ok(false);
    };
    if front.max(later) > other.items.len() {
        return Ok(false);
    }
    let between = Between {
        items,
        front,
        later,
    };
    append_between(&between, texts, options, &other, like, out, ends)
}

/// The same where it is not known where the items of the old unit end in its HTML: all items are written. The old unit's HTML, and where its items end, are not looked at.
pub fn append_inset_anew(
    items: &[Item],
    front: usize,
    later: usize,
    texts: &[Parsed],
    options: &Options,
    like: &Like<'_>,
    out: &mut String,
    ends: &mut Vec<usize>,
) -> Result<bool, NoMemory>
    requires within { ItemsIn (length texts.now) (items_view items.now) }
    requires old_within { BlocksIn (length like.now.texts.now) (blocks_view like.now.blocks.now) }
    requires order { IsBehind 0 (items_positions (items_view items.now)) (length texts.now) }
    requires room { like.now.front ≤ length like.now.texts.now }
    requires before { AllByRecursion (λ at. at < like.now.front) (items_positions (take_items front (first_items (blocks_view like.now.blocks.now)))) }
    requires behind { AllByRecursion (λ at. like.now.front + length texts.now ≤ at) (items_positions (drop_items later (first_items (blocks_view like.now.blocks.now)))) }
    requires no_text { string_bytes out.old ≡ [] }
    requires no_ends { ends.old.items ≡ [] }
    ensures html { IfOk result (λ done. done ≡ true → string_bytes out.new
        ≡ blocks_html options.now (texts_html options.now (inset_readings like.now.front texts.now like.now.texts.now)) false
        (inset_blocks front like.now.front (items_view items.now) later (blocks_view like.now.blocks.now)) []) }
    ensures ends { IfOk result (λ done. done ≡ true → ends.new.items
        ≡ unit_ends options.now (texts_html options.now (inset_readings like.now.front texts.now like.now.texts.now))
        (inset_blocks front like.now.front (items_view items.now) later (blocks_view like.now.blocks.now))) }
    ensures no_text { IfOk result (λ done. done ≡ false → string_bytes out.new ≡ []) }
    ensures no_ends { IfOk result (λ done. done ≡ false → ends.new.items ≡ []) }
{
    let Some(other) = one_list(like.blocks) else {
        return Ok(false);
    };
    if front.max(later) > other.items.len() {
        return Ok(false);
    }
    let between = Between {
        items,
        front,
        later,
    };
    write_around(&between, texts, options, &other, like.texts, out, ends)?;
    Ok(true)
}

/// Items between those of an old list, whose texts read as others.
fn write_around(
    between: &Between<'_>,
    texts: &[Parsed],
    options: &Options,
    other: &OneList<'_>,
    others: &[Parsed],
    out: &mut String,
    ends: &mut Vec<usize>,
) -> Result<(), NoMemory>
    requires within { ItemsIn (length texts.now) (items_view between.now.items.now) }
    requires old_within { ItemsIn (length others.now) (items_view other.now.items.now) }
    requires front { between.now.front ≤ length other.now.items.now }
    requires later { between.now.later ≤ length other.now.items.now }
    requires no_text { string_bytes out.old ≡ [] }
    requires no_ends { ends.old.items ≡ [] }
    ensures html { OnOk result (string_bytes out.new ≡ list_around options.now texts.now others.now other.now between.now) }
    ensures ends { OnOk result (ends.new.items ≡ list_ends_around options.now texts.now others.now other.now between.now) }
{
    let old_texts = UnitTexts {
        held: HeldTexts::Read(others),
        options,
    };
    let new_texts = UnitTexts {
        held: HeldTexts::Read(texts),
        options,
    };
    begin_list(other.kind, out)?;
    write_item_ends(
        &other.items[..between.front],
        other.tight,
        &old_texts,
        out,
        ends,
    )?;
    write_item_ends(between.items, other.tight, &new_texts, out, ends)?;
    write_item_ends(
        &other.items[between.later..],
        other.tight,
        &old_texts,
        out,
        ends,
    )?;
    close_list(other.kind, out)
}
