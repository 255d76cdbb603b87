//! HTML of lists.

ghost use Rattle.std.specs.Prelude.{◌≡◌, ◌++◌, ◌<◌, OnOk, false, length, string_bytes};
ghost use Rattle.mdblock.specs.BlockView.{kind_view, items_view};
ghost use Rattle.blockspec.specs.BlockTree.{list};
ghost use Rattle.mdblock.specs.Positions.{ItemsIn};
ghost use Rattle.mdhtml.specs.held.UnitTexts.{shown_texts};
ghost use Rattle.htmlspec.specs.BlockHtml.{block_html, fresh, list_open, list_close, numbered_open};

pub(crate) mod inset_lists;
pub(crate) mod item_ends;
pub(crate) mod items;
mod kept_items;
pub(crate) mod like_lists;
mod same_blocks;
pub(crate) mod task_list_items;

use crate::lists::items::write_item;
use crate::pieces::write_fresh;
use crate::unit_texts::UnitTexts;
use mdblock::{Item, ListKind};
use mdtext::NoMemory;

#[cycle(block)]
pub(crate) fn write_list(
    kind: ListKind,
    tight: bool,
    items: &[Item],
    texts: &UnitTexts<'_>,
    out: &mut String,
) -> Result<(), NoMemory>
    requires { ItemsIn (length (shown_texts texts.now)) (items_view items.now) }
    ensures { OnOk result (string_bytes out.new ≡ block_html texts.now.options.now
        (shown_texts texts.now) false (list (kind_view kind) tight (items_view items.now))
        (string_bytes out.old)) }
{
    begin_list(kind, out)?;
    for item in items {
        write_item(item, tight, texts, out)?;
    }
    close_list(kind, out)
}

/// The tag with which a list begins, on a line of its own.
pub(crate) fn begin_list(kind: ListKind, out: &mut String) -> Result<(), NoMemory>
    ensures { OnOk result (string_bytes out.new
        ≡ fresh (string_bytes out.old) ++ list_open (kind_view kind)) }
{
    write_fresh(out)?;
    open_list(kind, out)
}

fn open_list(kind: ListKind, out: &mut String) -> Result<(), NoMemory>
    ensures { OnOk result (string_bytes out.new
        ≡ string_bytes out.old ++ list_open (kind_view kind)) }
{
    match kind {
        ListKind::Bullet(_) => out.push_str("<ul>\n")?,
        ListKind::Ordered { start, .. } => open_numbered(start, out)?,
    }
    Ok(())
}

fn open_numbered(start: u32, out: &mut String) -> Result<(), NoMemory>
    ensures { OnOk result (string_bytes out.new ≡ string_bytes out.old ++ numbered_open start) }
{
    if start == 1 {
        out.push_str("<ol>\n")?;
    } else {
        write!(out, "<ol start=\"{start}\">\n")?;
    }
    Ok(())
}

pub(crate) fn close_list(kind: ListKind, out: &mut String) -> Result<(), NoMemory>
    ensures { OnOk result (string_bytes out.new
        ≡ string_bytes out.old ++ list_close (kind_view kind)) }
{
    match kind {
        ListKind::Bullet(_) => out.push_str("</ul>\n")?,
        ListKind::Ordered { .. } => out.push_str("</ol>\n")?,
    }
    Ok(())
}
