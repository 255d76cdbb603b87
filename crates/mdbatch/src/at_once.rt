//! The HTML of a text that defines no label: each unit is written as it is found.
ghost use Rattle.std.specs.Prelude.{◌≡◌, ◌∷◌, [], IfErr, IfOk, IfSome, None, string_bytes, true};
ghost use Rattle.mdblock.specs.FoundLists.{found_unit};
ghost use Rattle.htmlspec.specs.BlockHtml.{ends_line};
ghost use Rattle.mdbatch.specs.BatchHtml.{IsReadFault, WritesPage};
ghost use Rattle.mdbatch.specs.CleanText.{lines_in, nested_in, setting_for, units_in};
ghost use Rattle.mdbatch.specs.GatheredUnits.{setting_of};
ghost use Rattle.mdbatch.specs.TextLabels.{target_on_page};
ghost use Rattle.mdbatch.specs.UnitsAtOnce.{AddsUnits};

use crate::clean_text::CleanText;
use crate::page_labels::PageLabels;
use crate::units::{UnitSink, read_units};
use mdblock::Found;
use mdhtml::UnitWriter;
use mdinline::{InlineFault, LabelTable};
use mdsource::{EditFault, Prelude};
use mdtext::NoMemory;
use std::alloc::AllocError;

/// The HTML of a text that defines no label: so where labels lead is known before its first line. Nothing where a unit
/// defines one, or where spans lie too deep: a container may begin too deep further on, which is the answer then.
pub(crate) fn html_at_once(
    clean: CleanText<'_>,
    prelude: &Prelude,
) -> Result<Option<String>, EditFault>
    ensures html { IfOk result (λ html. IfSome html (λ html. WritesPage (setting_for clean.entry) prelude.now (lines_in clean.entry) (string_bytes html))) }
    ensures nesting { IfOk result (λ html. IfSome html (λ _. nested_in clean.entry ≡ None)) }
    ensures fault { IfErr result (IsReadFault (nested_in clean.entry)) }
{
    let no_labels = LabelTable::new(clean.alloc);
    let labels = PageLabels {
        own: &no_labels,
        prelude,
    };
    written_units(clean, &labels)
}

/// The HTML of the units of such a text, where labels lead so.
fn written_units<'a>(
    clean: CleanText<'a>,
    labels: &'a PageLabels<'a>,
) -> Result<Option<String>, EditFault>
    ensures adds { IfOk result (λ html. IfSome html (λ html.
        AddsUnits (setting_for clean.entry) (target_on_page labels.now) (units_in clean.entry) [] (string_bytes html))) }
    ensures nesting { IfOk result (λ html. IfSome html (λ _. nested_in clean.entry ≡ None)) }
    ensures fault { IfErr result (IsReadFault (nested_in clean.entry)) }
{
    let mut written = UnitsAtOnce {
        writer: UnitWriter::new(clean.alloc, clean.entities, clean.options),
        labels,
        html: String::with_capacity(clean.alloc, clean.text.len())?,
    };
    if read_units(clean, &mut written)? {
        Ok(Some(written.html))
    } else {
        Ok(None)
    }
}

/// Writes each unit; where one defines a label, or spans lie too deep in it, it needs no more.
#[derive(Drop)]
struct UnitsAtOnce<'a> {
    writer: UnitWriter<'a>,
    labels: &'a PageLabels<'a>,
    html: String,
}

impl<'a> UnitSink for UnitsAtOnce<'a> {
    ghost use Rattle.mdbatch.specs.UnitsTaken.{AreWritten, WriteAlike, write_alike, write_all_alike};

    ghost took = { AreWritten };

    ghost alike = { WriteAlike };

    ghost may_stop = { λ _. Unit {0} };

    // It is inlined, so that the unit is not moved again.
    #[inline(always)]
    fn take(&mut self, found: Found) -> Result<bool, EditFault> {
        Ok(write_unit(&found, &mut self.writer, self.labels, &mut self.html)?)
    }

    ghost alike_itself = { write_alike };

    ghost alike_both = { write_all_alike };
}

/// Writes a unit. The answer is false where it defines a label or spans lie too deep in it.
fn write_unit<'a>(
    found: &Found,
    writer: &mut UnitWriter<'a>,
    labels: &'a PageLabels<'a>,
    html: &mut String,
) -> Result<bool, NoMemory>
    requires { ends_line (string_bytes html.old) ≡ true }
    ensures adds { IfOk result (λ written. written ≡ true → AddsUnits (setting_of writer.old) (target_on_page labels.now)
        (found_unit found.now ∷ []) (string_bytes html.old) (string_bytes html.new)) }
    ensures setting { setting_of writer.new ≡ setting_of writer.old }
{
    let unit = found.unit();
    if !unit.definitions().is_empty() {
        return Ok(false);
    }
    match writer.append_unit(unit, labels, html) {
        Ok(()) => Ok(true),
        Err(InlineFault::TooDeep) => Ok(false),
        Err(InlineFault::NoMemory) => Err(AllocError),
    }
}
