//! HTML of a unit that is one list, made from that of a list like it: what stands for the items at the front and at the end that are the same in both is
//! taken over.

ghost use Rattle.std.specs.Prelude.{◌≡◌, ◌-◌, ◌≤◌, [], OnOk, IfOk, false, true, length, string_bytes, take, drop};
ghost use Rattle.mdblock.specs.BlockView.{blocks_view, items_view, kind_view};
ghost use Rattle.mdblock.specs.Positions.{BlocksIn, ItemsIn};
ghost use Rattle.mdhtml.specs.held.LikeLists.{SharedReadings, AreSameEnds};
ghost use Rattle.mdhtml.specs.held.ListUnits.{unit_of};
ghost use Rattle.htmlspec.specs.BlockHtml.{texts_html, blocks_html};
ghost use Rattle.htmlspec.specs.ListEnds.{unit_ends};

use crate::lists::item_ends::{OneList, append_unit_ends, one_list};
use crate::lists::kept_items::{Between, append_between};
use crate::lists::same_blocks::{SharedTexts, same_behind, same_front};
use htmlspec::Options;
use mdblock::Block;
use mdinline::Parsed;
use mdtext::NoMemory;

/// A unit that was written before, with what a unit like it takes over.
#[derive(Clone, Copy, Drop)]
pub struct Like<'a> {
    /// Its blocks.
    pub blocks: &'a [Block],
    /// What its texts read as.
    pub texts: &'a [Parsed],
    /// Its HTML.
    pub html: &'a str,
    /// The lengths of its HTML behind each item, if it is one list.
    pub ends: &'a [usize],
    /// So many texts at the front read as those of the unit that is to be written.
    pub front: usize,
    /// So many texts at the end do.
    pub behind: usize,
}

/// Writes what `append_unit_ends` does. Where the unit is one list and the one that was written before is one of the same kind, tight or loose as it is, the
/// bytes of the items that are the same in both, at the front and at the end, are taken from there. After `NoMemory` a beginning of both may stand there.
pub fn append_unit_like(
    blocks: &[Block],
    texts: &[Parsed],
    options: &Options,
    like: &Like<'_>,
    out: &mut String,
    ends: &mut Vec<usize>,
) -> Result<(), NoMemory>
    requires within { BlocksIn (length texts.now) (blocks_view blocks.now) }
    requires no_text { string_bytes out.old ≡ [] }
    requires no_ends { ends.old.items ≡ [] }
    requires like_within { BlocksIn (length like.now.texts.now) (blocks_view like.now.blocks.now) }
    requires like_html { like.now.html.now ≡ blocks_html options.now (texts_html options.now like.now.texts.now) false (blocks_view like.now.blocks.now) [] }
    requires like_ends { like.now.ends.now ≡ unit_ends options.now (texts_html options.now like.now.texts.now) (blocks_view like.now.blocks.now) }
    requires front_within { like.now.front ≤ length texts.now }
    requires front_within_like { like.now.front ≤ length like.now.texts.now }
    requires front { take like.now.front texts.now ≡ take like.now.front like.now.texts.now }
    requires behind_within { like.now.behind ≤ length texts.now }
    requires behind_within_like { like.now.behind ≤ length like.now.texts.now }
    requires behind { drop (length texts.now - like.now.behind) texts.now ≡ drop (length like.now.texts.now - like.now.behind) like.now.texts.now }
    ensures html { OnOk result (string_bytes out.new
        ≡ blocks_html options.now (texts_html options.now texts.now) false (blocks_view blocks.now) []) }
    ensures ends { OnOk result (ends.new.items ≡ unit_ends options.now (texts_html options.now texts.now) (blocks_view blocks.now)) }
{
    let (Some(list), Some(other)) = (one_list(blocks), one_list(like.blocks)) else {
        return append_unit_ends(blocks, texts, options, out, ends);
    };
    if list.kind == other.kind && list.tight == other.tight {
        if append_list_like(&list, &other, texts, options, like, out, ends)? {
            return Ok(());
        }
    }
    append_unit_ends(blocks, texts, options, out, ends)
}

/// Writes a list like another to an empty text, if the HTML of that can be cut; else nothing.
fn append_list_like(
    list: &OneList<'_>,
    other: &OneList<'_>,
    texts: &[Parsed],
    options: &Options,
    like: &Like<'_>,
    out: &mut String,
    ends: &mut Vec<usize>,
) -> Result<bool, NoMemory>
    requires within { ItemsIn (length texts.now) (items_view list.now.items.now) }
    requires no_text { string_bytes out.old ≡ [] }
    requires no_ends { ends.old.items ≡ [] }
    requires kind { kind_view list.now.kind ≡ kind_view other.now.kind }
    requires tight { list.now.tight ≡ other.now.tight }
    requires like_html { like.now.html.now ≡ blocks_html options.now (texts_html options.now like.now.texts.now) false (unit_of other.now) [] }
    requires like_ends { like.now.ends.now ≡ unit_ends options.now (texts_html options.now like.now.texts.now) (unit_of other.now) }
    requires shared { SharedReadings texts.now like.now.texts.now like.now.front like.now.behind }
    ensures html { IfOk result (λ done. done ≡ true → string_bytes out.new
        ≡ blocks_html options.now (texts_html options.now texts.now) false (unit_of list.now) []) }
    ensures ends { IfOk result (λ done. done ≡ true → ends.new.items ≡ unit_ends options.now (texts_html options.now texts.now) (unit_of list.now)) }
    ensures no_text { IfOk result (λ done. done ≡ false → string_bytes out.new ≡ []) }
    ensures no_ends { IfOk result (λ done. done ≡ false → ends.new.items ≡ []) }
{
    let same = same_ends(list, other, texts, like);
    let between = Between {
        items: &list.items[same.front..list.items.len() - same.behind],
        front: same.front,
        later: other.items.len() - same.behind,
    };
    append_between(&between, texts, options, other, like, out, ends)
}

/// How many items are the same in both lists: from the front on, and from the end on, where no item is counted twice.
#[derive(Clone, Copy, Drop)]
pub(crate) struct SameEnds {
    pub(crate) front: usize,
    pub(crate) behind: usize,
}

fn same_ends(list: &OneList<'_>, other: &OneList<'_>, texts: &[Parsed], like: &Like<'_>) -> SameEnds
    requires { SharedReadings texts.now like.now.texts.now like.now.front like.now.behind }
    ensures { AreSameEnds texts.now like.now.texts.now list.now.items.now other.now.items.now result }
{
    let at_front = SharedTexts {
        at: 0,
        like_at: 0,
        count: like.front,
    };
    let at_end = SharedTexts {
        at: texts.len() - like.behind,
        like_at: like.texts.len() - like.behind,
        count: like.behind,
    };
    let front = same_front(list.items, other.items, at_front);
    let behind = same_behind(&list.items[front..], &other.items[front..], at_end);
    SameEnds { front, behind }
}
