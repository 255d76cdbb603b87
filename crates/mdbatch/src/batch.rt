//! From a whole text to its HTML.
ghost use Rattle.std.specs.Prelude.{ℕ, List, [], ◌≡◌, ◌++◌, true, None, IfErr, IfOk, OnOk, string_bytes};
ghost use Rattle.std.specs.List.{All};
ghost use Rattle.blockspec.specs.UnitTree.{FoundUnit};
ghost use Rattle.mdtext.specs.Lines.{text_lines};
ghost use Rattle.htmlspec.specs.Limits.{HasLimits};
ghost use Rattle.htmlspec.specs.BlockHtml.{ends_line};
ghost use Rattle.mdsource.specs.Preludes.{IsDefinedBy};
ghost use Rattle.mdbatch.specs.CleanText.{lines_in, nested_in, setting_for};
ghost use Rattle.mdbatch.specs.BatchHtml.{IsFaultOf, TextHtml, WritesPage, WritesUnits, deep_line, deep_on_page};
ghost use Rattle.mdsource.specs.TextFaults.{IsTextFault};
ghost use Rattle.mdbatch.specs.GatheredUnits.{EndsLine, Gathers, HasGathered, IsWoven, IsWrittenTo, setting_of};
ghost use Rattle.mdbatch.specs.TextLabels.{page_table, target_on_page};
ghost use Rattle.mdbatch.specs.ViewHtml.{ViewHtml};

use crate::at_once::html_at_once;
use crate::clean_text::CleanText;
use crate::gathered::{Gathered, Waiting, gathered_units};
use crate::guesses::is_written_at_once;
use crate::limits::within_limits;
use crate::page_labels::PageLabels;
use mdhtml::{Options, UnitWriter};
use mdsource::{EditFault, Prelude, fault_in_unit};
use mdtext::{Entities, NoMemory, after_mark, clean_line, is_clean};
use std::alloc::Global;

/// The HTML of a whole text: its lines end as CommonMark 2.1 says, a leading U+FEFF is dropped, and U+FFFD stands for each U+0000 (CommonMark 2.3). A label
/// that the text does not define leads where the prelude says.
///
/// Refused as the first edit of a preview with this prelude that brings this text, in this order: `TooManyLines`, `TooLarge`, whatever the memory; then `NestedTooDeep`,
/// `InlineTooDeep`; `NoMemory` at any point behind the first two. Lines are counted from 0. The limits of the options are 1 to 256.
pub fn to_html(
    alloc: Global,
    text: &str,
    entities: &Entities,
    options: &Options,
    prelude: &Prelude,
) -> Result<String, EditFault>
    requires { HasLimits options.now }
    ensures html { TextHtml result (record { entities = entities.now; options = options.now }) prelude.now (text_lines text.now) }
    // With a prelude that these entities read, this is the view of the text.
    ensures viewed { IsDefinedBy entities.now prelude.now
        → ViewHtml result (record { entities = entities.now; options = options.now }) (record { lines = text_lines text.now; prelude = prelude.now.lines }) }
{
    let text = after_mark(text);
    within_limits(text)?;
    if is_clean(text) {
        let clean = CleanText {
            alloc,
            text,
            entities,
            options,
        };
        return clean_html(clean, prelude);
    }
    let cleaned = clean_line(alloc, text)?;
    let clean = CleanText {
        alloc,
        text: &cleaned,
        entities,
        options,
    };
    clean_html(clean, prelude)
}

fn clean_html(clean: CleanText<'_>, prelude: &Prelude) -> Result<String, EditFault>
    ensures html { IfOk result (λ html. WritesPage (setting_for clean.entry) prelude.now (lines_in clean.entry) (string_bytes html)) }
    ensures nesting { OnOk result (nested_in clean.entry ≡ None) }
    ensures fault { IfErr result (IsFaultOf (nested_in clean.entry) (deep_on_page (setting_for clean.entry) prelude.now (lines_in clean.entry))) }
{
    if is_written_at_once(clean.text, clean.options.max_containers) {
        if let Some(html) = html_at_once(clean, prelude)? {
            return Ok(html);
        }
    }
    let gathered = gathered_units(clean)?;
    gathered_html(clean, gathered, prelude)
}

/// Writes the units that wait, each at its place, under the labels of the whole text.
fn gathered_html(
    clean: CleanText<'_>,
    gathered: Gathered,
    prelude: &Prelude,
) -> Result<String, EditFault>
    requires { HasGathered (setting_for clean) gathered }
    ensures html { (all : List FoundUnit) → Gathers (setting_for clean.entry) all gathered
        → IfOk result (λ html. WritesUnits (setting_for clean.entry) (page_table all prelude.now) all [] (string_bytes html)) }
    ensures fault { (all : List FoundUnit) → Gathers (setting_for clean.entry) all gathered
        → IfErr result (IsTextFault (deep_line (setting_for clean.entry) (page_table all prelude.now) all)) }
{
    let Gathered {
        waiting,
        html,
        labels,
        too_deep,
    } = gathered;
    let labels = PageLabels {
        own: &labels,
        prelude,
    };
    let mut writer = UnitWriter::new(clean.alloc, clean.entities, clean.options);
    let mut out = String::new(clean.alloc);
    append_waiting(&mut writer, waiting, &labels, &mut out)?;
    if let Some(line) = too_deep {
        return Err(EditFault::InlineTooDeep { line });
    }
    put_behind(html, &mut out)?;
    Ok(out)
}

/// Appends the units that wait, each with the HTML before it; each is let go as soon as it is written.
fn append_waiting<'a>(
    writer: &mut UnitWriter<'a>,
    waiting: Vec<Waiting>,
    labels: &'a PageLabels<'a>,
    out: &mut String,
) -> Result<(), EditFault>
    requires out { ends_line (string_bytes out.old) ≡ true }
    requires lines { All EndsLine waiting.items }
    ensures html { (all : List FoundUnit) (html : List ℕ) → IsWoven (setting_of writer.old) all waiting.items html
        → OnOk result (IsWrittenTo (setting_of writer.old) (target_on_page labels.now) all [] html (string_bytes out.old) (string_bytes out.new)) }
    ensures fault { (all : List FoundUnit) (html : List ℕ) → IsWoven (setting_of writer.old) all waiting.items html
        → IfErr result (IsTextFault (deep_line (setting_of writer.old) (target_on_page labels.now) all)) }
{
    for waits in waiting {
        put_behind(waits.before, out)?;
        if let Err(fault) = writer.append_unit(waits.found.unit(), labels, out) {
            return Err(fault_in_unit(fault, waits.found.begin()));
        }
    }
    Ok(())
}

/// Puts HTML behind other HTML. Where none stands yet, the HTML that comes brings its room.
fn put_behind(html: String, out: &mut String) -> Result<(), NoMemory>
    ensures { OnOk result (string_bytes out.new ≡ string_bytes out.old ++ string_bytes html) }
{
    if out.is_empty() {
        *out = html;
        return Ok(());
    }
    out.push_str(&html)?;
    Ok(())
}
