//! Whether blocks are those of another unit, with texts that read the same: the HTML of both is then the same.

ghost use Rattle.std.specs.Prelude.{◌≡◌, ◌≤◌, true, length, map, take, drop, ◌-◌};
ghost use Rattle.blockspec.specs.BlockTree.{paragraph, heading, thematic_break, code_block, html_block, block_quote, list, table};
ghost use Rattle.mdblock.specs.BlockView.{block_view, blocks_view, item_view, items_view, kind_view};
ghost use Rattle.mdhtml.specs.held.Alike.{TextAlike, CellsAlike, RowsAlike, BlockAlike, BlocksAlike, ItemsAlike};

use mdblock::{Align, Block, Item, ListKind};

/// Texts of a unit, so many from a position on, that read as those of another unit do, and where they stand there.
#[derive(Clone, Copy, Drop)]
pub(crate) struct SharedTexts {
    pub(crate) at: usize,
    pub(crate) like_at: usize,
    pub(crate) count: usize,
}

/// How many items at the front are the same in both lists.
pub(crate) fn same_front(items: &[Item], like: &[Item], shared: SharedTexts) -> usize
    ensures within { result ≤ length items.now }
    ensures within_like { result ≤ length like.now }
    ensures same { ItemsAlike shared (items_view (take result items.now)) (items_view (take result like.now)) }
{
    let most = items.len().min(like.len());
    for at in 0..most {
        if !same_item(&items[at], &like[at], shared) {
            return at;
        }
    }
    most
}

/// How many items at the end are the same in both lists.
pub(crate) fn same_behind(items: &[Item], like: &[Item], shared: SharedTexts) -> usize
    ensures within { result ≤ length items.now }
    ensures within_like { result ≤ length like.now }
    ensures same { ItemsAlike shared (items_view (drop (length items.now - result) items.now)) (items_view (drop (length like.now - result) like.now)) }
{
    let most = items.len().min(like.len());
    for count in 0..most {
        let item = &items[items.len() - 1 - count];
        let other = &like[like.len() - 1 - count];
        if !same_item(item, other, shared) {
            return count;
        }
    }
    most
}

fn same_item(item: &Item, like: &Item, shared: SharedTexts) -> bool
    ensures { result ≡ true → BlocksAlike shared (item_view item.now) (item_view like.now) }
{
    same_blocks(&item.blocks, &like.blocks, shared)
}

/// Whether the items are the same. The blocks of each are compared at once, so that a level of blocks takes no more calls here than where it is written.
#[cycle(block)]
fn same_items(items: &[Item], like: &[Item], shared: SharedTexts) -> bool
    ensures { result ≡ true → ItemsAlike shared (items_view items.now) (items_view like.now) }
{
    let mut rest = like;
    for item in items {
        match rest {
            [other, behind @ ..] => {
                if !same_blocks(&item.blocks, &other.blocks, shared) {
                    return false;
                }
                rest = behind;
            }
            [] => return false,
        }
    }
    rest.is_empty()
}

#[cycle(block)]
fn same_blocks(blocks: &[Block], like: &[Block], shared: SharedTexts) -> bool
    ensures { result ≡ true → BlocksAlike shared (blocks_view blocks.now) (blocks_view like.now) }
{
    let mut rest = like;
    for block in blocks {
        match rest {
            [other, behind @ ..] => {
                if !same_block(block, other, shared) {
                    return false;
                }
                rest = behind;
            }
            [] => return false,
        }
    }
    rest.is_empty()
}

#[cycle(block)]
fn same_block(block: &Block, like: &Block, shared: SharedTexts) -> bool
    ensures { result ≡ true → BlockAlike shared (block_view block.now) (block_view like.now) }
{
    match block {
        Block::Paragraph { text, task } => same_paragraph(*text, *task, like, shared),
        Block::Heading { level, text } => same_heading(*level, *text, like, shared),
        Block::Break => same_break(like, shared),
        Block::Code { lang, meta, body } => same_code(lang, meta, body, like, shared),
        Block::Html(lines) => same_html(lines, like, shared),
        Block::Quote(inner) => same_quote(inner, like, shared),
        Block::List { kind, tight, items } => same_list(*kind, *tight, items, like, shared),
        Block::Table { aligns, head, rows } => same_table(aligns, head, rows, like, shared),
    }
}

fn same_paragraph(text: usize, task: Option<bool>, like: &Block, shared: SharedTexts) -> bool
    ensures { result ≡ true → BlockAlike shared (paragraph text task) (block_view like.now) }
{
    match like {
        Block::Paragraph {
            text: other,
            task: ticked,
        } => same_text(text, *other, shared) && task == *ticked,
        _ => false,
    }
}

fn same_heading(level: u8, text: usize, like: &Block, shared: SharedTexts) -> bool
    ensures { result ≡ true → BlockAlike shared (heading level text) (block_view like.now) }
{
    match like {
        Block::Heading {
            level: rank,
            text: other,
        } => same_text(text, *other, shared) && level == *rank,
        _ => false,
    }
}

/// Whether a block is a thematic break too.
fn same_break(like: &Block, shared: SharedTexts) -> bool
    ensures { result ≡ true → BlockAlike shared thematic_break (block_view like.now) }
{
    match like {
        Block::Break => true,
        _ => false,
    }
}

fn same_code(lang: &str, meta: &str, body: &str, like: &Block, shared: SharedTexts) -> bool
    ensures { result ≡ true → BlockAlike shared (code_block lang.now meta.now body.now) (block_view like.now) }
{
    match like {
        Block::Code {
            lang: word,
            meta: rest,
            body: lines,
        } => lang == word.as_str() && meta == rest.as_str() && body == lines.as_str(),
        _ => false,
    }
}

fn same_html(lines: &str, like: &Block, shared: SharedTexts) -> bool
    ensures { result ≡ true → BlockAlike shared (html_block lines.now) (block_view like.now) }
{
    match like {
        Block::Html(other) => lines == other.as_str(),
        _ => false,
    }
}

#[cycle(block)]
fn same_quote(inner: &[Block], like: &Block, shared: SharedTexts) -> bool
    ensures { result ≡ true → BlockAlike shared (block_quote (blocks_view inner.now)) (block_view like.now) }
{
    match like {
        Block::Quote(other) => same_blocks(inner, other, shared),
        _ => false,
    }
}

#[cycle(block)]
fn same_list(kind: ListKind, tight: bool, items: &[Item], like: &Block, shared: SharedTexts) -> bool
    ensures { result ≡ true → BlockAlike shared (list (kind_view kind) tight (items_view items.now)) (block_view like.now) }
{
    match like {
        Block::List {
            kind: marks,
            tight: close,
            items: other,
        } => kind == *marks && tight == *close && same_items(items, other, shared),
        _ => false,
    }
}

fn same_table(
    aligns: &[Align],
    head: &[usize],
    rows: &[Vec<usize>],
    like: &Block,
    shared: SharedTexts,
) -> bool
    ensures { result ≡ true → BlockAlike shared (table aligns.now head.now (map (λ row. row.items) rows.now)) (block_view like.now) }
{
    match like {
        Block::Table {
            aligns: columns,
            head: cells,
            rows: others,
        } => same_aligns(aligns, columns)
            && same_row(head, cells, shared)
            && same_rows(rows, others, shared),
        _ => false,
    }
}

fn same_aligns(aligns: &[Align], like: &[Align]) -> bool
    ensures { result ≡ true → aligns.now ≡ like.now }
{
    let mut rest = like;
    for align in aligns {
        match rest {
            [other, behind @ ..] => {
                if *align != *other {
                    return false;
                }
                rest = behind;
            }
            [] => return false,
        }
    }
    rest.is_empty()
}

fn same_rows(rows: &[Vec<usize>], like: &[Vec<usize>], shared: SharedTexts) -> bool
    ensures { result ≡ true → RowsAlike shared (map (λ row. row.items) rows.now) (map (λ row. row.items) like.now) }
{
    let mut rest = like;
    for row in rows {
        match rest {
            [other, behind @ ..] => {
                if !same_row(row, other, shared) {
                    return false;
                }
                rest = behind;
            }
            [] => return false,
        }
    }
    rest.is_empty()
}

fn same_row(cells: &[usize], like: &[usize], shared: SharedTexts) -> bool
    ensures { result ≡ true → CellsAlike shared cells.now like.now }
{
    let mut rest = like;
    for cell in cells {
        match rest {
            [other, behind @ ..] => {
                if !same_text(*cell, *other, shared) {
                    return false;
                }
                rest = behind;
            }
            [] => return false,
        }
    }
    rest.is_empty()
}

/// Whether two positions are the same one among the texts that read the same.
fn same_text(text: usize, like: usize, shared: SharedTexts) -> bool
    ensures { result ≡ true → TextAlike shared text like }
{
    if text < shared.at || like < shared.like_at {
        return false;
    }
    let here = text - shared.at;
    here < shared.count && here == like - shared.like_at
}
