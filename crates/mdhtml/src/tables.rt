//! HTML of tables.

ghost use Rattle.std.specs.Prelude.{◌≡◌, ◌++◌, ◌<◌, OnOk, codes, length, map, string_bytes, slice_index_or};
ghost use Rattle.std.specs.List.{AllByRecursion};
ghost use Rattle.mdblock.specs.Positions.{CellsIn};
ghost use Rattle.mdhtml.specs.held.CellTags.{tag_of};
ghost use Rattle.mdhtml.specs.held.UnitTexts.{shown_texts};
ghost use Rattle.htmlspec.specs.BlockHtml.{fresh, text_html};
ghost use Rattle.htmlspec.specs.TableHtml.{align_attribute, align_of, cell_html, row_html, head_html, body_html, table_html};

use crate::pieces::write_fresh;
use crate::unit_texts::UnitTexts;
use mdblock::Align;
use mdtext::NoMemory;

/// A cell of the header row, or of another.
#[derive(Clone, Copy, Drop)]
pub(crate) enum CellKind {
    Head,
    Data,
}

pub(crate) fn write_table(
    aligns: &[Align],
    head: &[usize],
    rows: &[Vec<usize>],
    texts: &UnitTexts<'_>,
    out: &mut String,
) -> Result<(), NoMemory>
    requires head { CellsIn (length (shown_texts texts.now)) head.now }
    requires rows { AllByRecursion (CellsIn (length (shown_texts texts.now))) (map (λ row. row.items) rows.now) }
    ensures { OnOk result (string_bytes out.new ≡ fresh (string_bytes out.old)
        ++ table_html texts.now.options.now (shown_texts texts.now) aligns.now head.now (map (λ row. row.items) rows.now)) }
{
    write_fresh(out)?;
    out.push_str("<table>\n")?;
    write_head(aligns, head, texts, out)?;
    write_body(aligns, rows, texts, out)?;
    out.push_str("</table>\n")?;
    Ok(())
}

/// The header row.
fn write_head(
    aligns: &[Align],
    head: &[usize],
    texts: &UnitTexts<'_>,
    out: &mut String,
) -> Result<(), NoMemory>
    requires { CellsIn (length (shown_texts texts.now)) head.now }
    ensures { OnOk result (string_bytes out.new ≡ string_bytes out.old
        ++ head_html texts.now.options.now (shown_texts texts.now) aligns.now head.now) }
{
    out.push_str("<thead>\n")?;
    write_row(CellKind::Head, aligns, head, texts, out)?;
    out.push_str("</thead>\n")?;
    Ok(())
}

/// The data rows; a table without any has no body.
fn write_body(
    aligns: &[Align],
    rows: &[Vec<usize>],
    texts: &UnitTexts<'_>,
    out: &mut String,
) -> Result<(), NoMemory>
    requires { AllByRecursion (CellsIn (length (shown_texts texts.now))) (map (λ row. row.items) rows.now) }
    ensures { OnOk result (string_bytes out.new ≡ string_bytes out.old
        ++ body_html texts.now.options.now (shown_texts texts.now) aligns.now (map (λ row. row.items) rows.now)) }
{
    if rows.is_empty() {
        return Ok(());
    }
    out.push_str("<tbody>\n")?;
    for row in rows {
        write_row(CellKind::Data, aligns, row, texts, out)?;
    }
    out.push_str("</tbody>\n")?;
    Ok(())
}

fn write_row(
    kind: CellKind,
    aligns: &[Align],
    cells: &[usize],
    texts: &UnitTexts<'_>,
    out: &mut String,
) -> Result<(), NoMemory>
    requires { CellsIn (length (shown_texts texts.now)) cells.now }
    ensures { OnOk result (string_bytes out.new ≡ string_bytes out.old
        ++ row_html texts.now.options.now (shown_texts texts.now) (tag_of kind) aligns.now cells.now) }
{
    out.push_str("<tr>\n")?;
    for (column, cell) in cells.iter().enumerate() {
        write_cell(kind, align_of(aligns, column), *cell, texts, out)?;
    }
    out.push_str("</tr>\n")?;
    Ok(())
}

fn write_cell(
    kind: CellKind,
    align: Align,
    text: usize,
    texts: &UnitTexts<'_>,
    out: &mut String,
) -> Result<(), NoMemory>
    requires { text < length (shown_texts texts.now) }
    ensures { OnOk result (string_bytes out.new ≡ string_bytes out.old
        ++ cell_html texts.now.options.now (tag_of kind) align (text_html (shown_texts texts.now) text)) }
{
    out.push_str(opening_tag(kind, align, texts.options.align_style))?;
    texts.append_text(text, out)?;
    out.push_str(closing_tag(kind))?;
    Ok(())
}

/// The alignment of a column.
fn align_of(aligns: &[Align], column: usize) -> Align
    ensures { result ≡ align_of aligns.now column }
{
    match aligns.get(column) {
        Some(align) => *align,
        None => Align::Plain,
    }
}

/// The tag with which a cell begins. Each is whole, so that it is appended at once.
fn opening_tag(kind: CellKind, align: Align, style: bool) -> &'static str
    ensures { result.now ≡ codes "<" ++ tag_of kind ++ align_attribute align style ++ codes ">" }
{
    match (kind, align, style) {
        (CellKind::Head, Align::Plain, _) => "<th>",
        (CellKind::Head, Align::Left, false) => "<th align=\"left\">",
        (CellKind::Head, Align::Left, true) => "<th style=\"text-align: left\">",
        (CellKind::Head, Align::Center, false) => "<th align=\"center\">",
        (CellKind::Head, Align::Center, true) => "<th style=\"text-align: center\">",
        (CellKind::Head, Align::Right, false) => "<th align=\"right\">",
        (CellKind::Head, Align::Right, true) => "<th style=\"text-align: right\">",
        (CellKind::Data, Align::Plain, _) => "<td>",
        (CellKind::Data, Align::Left, false) => "<td align=\"left\">",
        (CellKind::Data, Align::Left, true) => "<td style=\"text-align: left\">",
        (CellKind::Data, Align::Center, false) => "<td align=\"center\">",
        (CellKind::Data, Align::Center, true) => "<td style=\"text-align: center\">",
        (CellKind::Data, Align::Right, false) => "<td align=\"right\">",
        (CellKind::Data, Align::Right, true) => "<td style=\"text-align: right\">",
    }
}

/// The tag that ends a cell, and its line.
fn closing_tag(kind: CellKind) -> &'static str
    ensures { result.now ≡ codes "</" ++ tag_of kind ++ codes ">\n" }
{
    match kind {
        CellKind::Head => "</th>\n",
        CellKind::Data => "</td>\n",
    }
}
