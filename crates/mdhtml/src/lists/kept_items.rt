//! HTML of a list of which some items, at the front and at the end, are those of an old list: what stands for these is taken over.

ghost use Rattle.std.specs.Prelude.{◌≡◌, ◌++◌, ◌∷◌, [], ◌+◌, ◌-◌, ◌<◌, ◌≤◌, ◌^◌};
ghost use Rattle.std.specs.Prelude.{OnOk, IfOk, IfSome, false, true, length, string_bytes, take, drop, slice_index};
ghost use Rattle.std.specs.List.{AllByRecursion};
ghost use Rattle.mdblock.specs.BlockView.{items_view};
ghost use Rattle.mdblock.specs.Positions.{ItemsIn};
ghost use Rattle.mdhtml.specs.held.KeptItems.{AreKept, AreInTail, html_between, ends_between, moved_ends, list_around, list_ends_around};
ghost use Rattle.mdhtml.specs.held.ListUnits.{unit_of};
ghost use Rattle.htmlspec.specs.BlockHtml.{texts_html, blocks_html};
ghost use Rattle.htmlspec.specs.ListEnds.{unit_ends};

use crate::lists::item_ends::{OneList, write_item_ends};
use crate::lists::like_lists::Like;
use crate::lists::{begin_list, close_list};
use crate::unit_texts::{HeldTexts, UnitTexts};
use htmlspec::Options;
use mdblock::Item;
use mdinline::Parsed;
use mdtext::NoMemory;

/// Room for the items that are written between those that are taken over, so that it need not grow for a few of them.
const WRITTEN_ROOM: usize = 1_000;

/// Items that stand in a list between those of an old one.
#[derive(Clone, Copy, Drop)]
pub(crate) struct Between<'a> {
    pub(crate) items: &'a [Item],
    /// So many of the old list's items stand in front of them.
    pub(crate) front: usize,
    /// Those of the old list from this number on stand behind them.
    pub(crate) later: usize,
}

/// Writes to an empty text the HTML of a list of the kind of an old one, tight or loose as that is, with these items between its own; if the old one's HTML can't be cut, nothing.
pub(crate) fn append_between(
    between: &Between<'_>,
    texts: &[Parsed],
    options: &Options,
    other: &OneList<'_>,
    like: &Like<'_>,
    out: &mut String,
    ends: &mut Vec<usize>,
) -> Result<bool, NoMemory>
    requires within { ItemsIn (length texts.now) (items_view between.now.items.now) }
    requires front { between.now.front ≤ length other.now.items.now }
    requires later { between.now.later ≤ length other.now.items.now }
    requires no_text { string_bytes out.old ≡ [] }
    requires no_ends { ends.old.items ≡ [] }
    requires like_html { like.now.html.now ≡ blocks_html options.now (texts_html options.now like.now.texts.now) false (unit_of other.now) [] }
    requires like_ends { like.now.ends.now ≡ unit_ends options.now (texts_html options.now like.now.texts.now) (unit_of other.now) }
    ensures html { IfOk result (λ done. done ≡ true → string_bytes out.new ≡ list_around options.now texts.now like.now.texts.now other.now between.now) }
    ensures ends { IfOk result (λ done. done ≡ true → ends.new.items ≡ list_ends_around options.now texts.now like.now.texts.now other.now between.now) }
    ensures no_text { IfOk result (λ done. done ≡ false → string_bytes out.new ≡ []) }
    ensures no_ends { IfOk result (λ done. done ≡ false → ends.new.items ≡ []) }
{
    begin_list(other.kind, out)?;
    match kept_html(like, out.len(), between.front, between.later) {
        None => {
            out.clear();
            Ok(false)
        }
        Some(kept) => {
            let later = other.items.len() - between.later;
            let count = between.front.saturating_add(between.items.len());
            ends.reserve(count.saturating_add(later))?;
            let taken_over = kept.front.len().saturating_add(kept.tail.len());
            out.reserve(taken_over.saturating_add(WRITTEN_ROOM))?;
            append_kept(between, other.tight, texts, options, like, &kept, out, ends)?;
            close_list(other.kind, out)?;
            Ok(true)
        }
    }
}

/// HTML of items that is taken over: of those at the front, and of those at the end and where it stands.
#[derive(Clone, Copy, Drop)]
pub(crate) struct KeptHtml<'a> {
    pub(crate) front: &'a str,
    pub(crate) tail: &'a str,
    pub(crate) tail_at: usize,
}

/// The HTML of so many items at the front, and of those behind the first `tail` ones; the first item begins at `begin`.
fn kept_html<'a>(like: &Like<'a>, begin: usize, front: usize, tail: usize) -> Option<KeptHtml<'a>>
    requires front { front ≤ length like.now.ends.now }
    requires tail { tail ≤ length like.now.ends.now }
    ensures { IfSome result (λ kept. AreKept like.now begin front tail kept) }
{
    let tail_at = place(like.ends, begin, tail);
    let front_end = place(like.ends, begin, front);
    let tail_end = place(like.ends, begin, like.ends.len());
    let front = like.html.get(begin..front_end)?;
    let tail = like.html.get(tail_at..tail_end)?;
    Some(KeptHtml {
        front,
        tail,
        tail_at,
    })
}

/// Where so many items end, if the first of them begins there.
fn place(ends: &[usize], begin: usize, count: usize) -> usize
    requires { count ≤ length ends.now }
    ensures { result ≡ slice_index (begin ∷ ends.now) count }
{
    match count.checked_sub(1) {
        None => begin,
        Some(last) => ends[last],
    }
}

/// Appends the items of a list, with the HTML of those at both ends that is taken over.
fn append_kept(
    between: &Between<'_>,
    tight: bool,
    texts: &[Parsed],
    options: &Options,
    like: &Like<'_>,
    kept: &KeptHtml<'_>,
    out: &mut String,
    ends: &mut Vec<usize>,
) -> Result<(), NoMemory>
    requires within { ItemsIn (length texts.now) (items_view between.now.items.now) }
    requires front { between.now.front ≤ length like.now.ends.now }
    requires later { between.now.later ≤ length like.now.ends.now }
    requires tail { AreInTail kept.now (drop between.now.later like.now.ends.now) }
    requires no_ends { ends.old.items ≡ [] }
    ensures html { OnOk result (string_bytes out.new
        ≡ html_between options.now texts.now tight between.now (string_bytes out.old ++ kept.now.front.now) ++ kept.now.tail.now) }
    ensures ends { OnOk result (ends.new.items
        ≡ (take between.now.front like.now.ends.now
        ++ ends_between options.now texts.now tight between.now (string_bytes out.old ++ kept.now.front.now))
        ++ moved_ends kept.now.tail_at
        (length (html_between options.now texts.now tight between.now (string_bytes out.old ++ kept.now.front.now)))
        (drop between.now.later like.now.ends.now)) }
{
    out.push_str(kept.front)?;
    ends.extend_from_slice(&like.ends[..between.front])?;
    let texts = UnitTexts {
        held: HeldTexts::Read(texts),
        options,
    };
    write_item_ends(between.items, tight, &texts, out, ends)?;
    out.push_str(kept.tail)?;
    let to = out.len() - kept.tail.len();
    push_moved(&like.ends[between.later..], kept.tail_at, to, ends)
}

/// Appends numbers, each as far behind one number as it is behind another.
fn push_moved(
    moved: &[usize],
    from: usize,
    to: usize,
    ends: &mut Vec<usize>,
) -> Result<(), NoMemory>
    requires { AllByRecursion (λ end. (from ≤ end) × ((end - from) + to < 2 ^ 64)) moved.now }
    ensures { OnOk result (ends.new.items ≡ ends.old.items ++ moved_ends from to moved.now) }
{
    for end in moved {
        ends.push(*end - from + to)?;
    }
    Ok(())
}
