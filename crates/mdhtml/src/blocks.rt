//! HTML of blocks, one behind the other.

ghost use Rattle.std.specs.Prelude.{◌≡◌, ◌<◌, OnOk, length, string_bytes};
ghost use Rattle.mdblock.specs.BlockView.{block_view, blocks_view};
ghost use Rattle.mdblock.specs.Positions.{BlockIn, BlocksIn};
ghost use Rattle.mdhtml.specs.held.UnitTexts.{shown_texts};
ghost use Rattle.htmlspec.specs.BlockHtml.{block_html, blocks_html};

use crate::block_quotes::write_quote;
use crate::code_blocks::write_code;
use crate::headings::write_heading;
use crate::html_blocks::write_html;
use crate::lists::write_list;
use crate::paragraphs::write_paragraph;
use crate::tables::write_table;
use crate::thematic_breaks::write_thematic_break;
use crate::unit_texts::UnitTexts;
use mdblock::Block;
use mdtext::NoMemory;

/// Blocks in a row; `tight` is whether they are the children of a tight list's item.
#[cycle(block)]
pub(crate) fn write_blocks(
    blocks: &[Block],
    tight: bool,
    texts: &UnitTexts<'_>,
    out: &mut String,
) -> Result<(), NoMemory>
    requires { BlocksIn (length (shown_texts texts.now)) (blocks_view blocks.now) }
    ensures { OnOk result (string_bytes out.new ≡ blocks_html texts.now.options.now
        (shown_texts texts.now) tight (blocks_view blocks.now) (string_bytes out.old)) }
{
    for block in blocks {
        write_block(block, tight, texts, out)?;
    }
    Ok(())
}

#[cycle(block)]
fn write_block(
    block: &Block,
    tight: bool,
    texts: &UnitTexts<'_>,
    out: &mut String,
) -> Result<(), NoMemory>
    requires { BlockIn (length (shown_texts texts.now)) (block_view block.now) }
    ensures { OnOk result (string_bytes out.new ≡ block_html texts.now.options.now
        (shown_texts texts.now) tight (block_view block.now) (string_bytes out.old)) }
{
    match block {
        Block::Paragraph { text, task } => { write_paragraph(*text, *task, tight, texts, out) }
        Block::Heading { level, text } => write_heading(*level, *text, texts, out),
        Block::Break => write_thematic_break(out),
        Block::Code { lang, meta, body } => write_code(lang, meta, body, texts.options, out),
        Block::Html(lines) => write_html(lines, texts.options, out),
        Block::Quote(inner) => write_quote(inner, texts, out),
        Block::List { kind, tight, items } => { write_list(*kind, *tight, items, texts, out) }
        Block::Table { aligns, head, rows } => { write_table(aligns, head, rows, texts, out) }
    }
}
