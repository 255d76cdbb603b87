//! What is read of a whole text before all its labels are known.
ghost use Rattle.std.specs.Prelude.{List, ◌≡◌, ◌++◌, ◌∷◌, [], IfErr, IfOk, None, OnOk, false, string_bytes};
ghost use Rattle.std.specs.List.{list_any};
ghost use Rattle.blockspec.specs.UnitTree.{FoundUnit};
ghost use Rattle.mdblock.specs.FoundLists.{found_unit};
ghost use Rattle.mdsource.specs.Setting.{Setting};
ghost use Rattle.mdbatch.specs.BatchHtml.{IsReadFault};
ghost use Rattle.mdbatch.specs.CleanText.{nested_in, setting_for, units_in};
ghost use Rattle.mdsource.specs.declared.fault.EditFault.TheVariants.{NoMemory};
ghost use Rattle.mdbatch.specs.GatheredUnits.{Gathers, HasGathered, closes_bracket, setting_of};
ghost use Rattle.mdbatch.specs.declared.gathered.Waiting.{Waiting};

use crate::clean_text::CleanText;
use crate::labels::add_definitions;
use crate::units::{UnitSink, read_units};
use mdblock::{Found, Unit};
use mdhtml::UnitWriter;
use mdinline::{InlineFault, LabelTable};
use mdsource::EditFault;
use mdtext::NoMemory;
use memchr::memchr;
use std::alloc::Global;
use std::mem::replace;

/// HTML of more bytes is moved, and not copied, where a unit has to wait behind it. So is that before the first one that waits.
const LONG: usize = 16_384;

/// A unit that waits for the labels of the whole text, and the HTML of the units between the one that waits before it and itself.
#[derive(Drop)]
pub(crate) struct Waiting {
    pub(crate) before: String,
    pub(crate) found: Found,
}

/// The units read so far: most of them are written as they are found.
#[derive(Drop)]
pub(crate) struct Gathered {
    pub(crate) waiting: Vec<Waiting>,
    /// The HTML of the units behind the last one that waits.
    pub(crate) html: String,
    /// Where the labels of all units lead.
    pub(crate) labels: LabelTable,
    /// The line at which the first unit begins whose spans lie too deep, of those that wait for no label. Behind it no unit is written or kept.
    pub(crate) too_deep: Option<usize>,
}

impl Gathered {
    /// Nothing read yet, and room for so many bytes of HTML.
    fn new(alloc: Global, room: usize) -> Result<Gathered, NoMemory>
        ensures { IfOk result (λ gathered. (setting : Setting) → Gathers setting [] gathered) }
    {
        Ok(Gathered {
            waiting: Vec::new(alloc),
            html: String::with_capacity(alloc, room)?,
            labels: LabelTable::new(alloc),
            too_deep: None,
        })
    }

    /// Writes a unit, or has it wait.
    fn take_unit<'a>(
        &mut self,
        alloc: Global,
        found: Found,
        writer: &mut UnitWriter<'a>,
        no_labels: &'a LabelTable,
    ) -> Result<(), EditFault>
        requires { HasGathered (setting_of writer.old) self.old }
        ensures gathers { (all : List FoundUnit) → Gathers (setting_of writer.old) all self.old
            → OnOk result (Gathers (setting_of writer.old) (all ++ found_unit found ∷ []) self.new) }
        ensures setting { setting_of writer.new ≡ setting_of writer.old }
        ensures fault { IfErr result (λ fault. fault ≡ NoMemory) }
    {
        add_definitions(alloc, &mut self.labels, found.unit().definitions())?;
        if self.too_deep.is_some() {
            return Ok(());
        }
        if may_ask(found.unit()) {
            self.keep(alloc, found)?;
            return Ok(());
        }
        match writer.append_unit(found.unit(), no_labels, &mut self.html) {
            Ok(()) => Ok(()),
            Err(InlineFault::TooDeep) => {
                self.too_deep = Some(found.begin());
                Ok(())
            }
            Err(InlineFault::NoMemory) => Err(EditFault::NoMemory),
        }
    }

    /// The unit waits, behind all that is written so far.
    fn keep(&mut self, alloc: Global, found: Found) -> Result<(), NoMemory>
        ensures waits { OnOk result ((w : Waiting) × (self.new.waiting.items ≡ self.old.waiting.items ++ w ∷ []) × (w.found ≡ found) × (string_bytes w.before ≡ string_bytes self.old.html)) }
        ensures html { OnOk result (string_bytes self.new.html ≡ []) }
        ensures labels { self.new.labels ≡ self.old.labels }
        ensures too_deep { self.new.too_deep ≡ self.old.too_deep }
    {
        let before = self.taken_html(alloc)?;
        self.waiting.push(Waiting { before, found })?;
        Ok(())
    }

    /// Takes the HTML of the units behind the last one that waits. Before the first one that waits its room goes with it, which is made for the HTML of the
    /// whole text; later it stays for that of the units that come, save of a long one, which is not copied.
    fn taken_html(&mut self, alloc: Global) -> Result<String, NoMemory>
        ensures taken { IfOk result (λ html. string_bytes html ≡ string_bytes self.old.html) }
        ensures html { OnOk result (string_bytes self.new.html ≡ []) }
        ensures waiting { self.new.waiting ≡ self.old.waiting }
        ensures labels { self.new.labels ≡ self.old.labels }
        ensures too_deep { self.new.too_deep ≡ self.old.too_deep }
    {
        if self.waiting.is_empty() || self.html.len() > LONG {
            return Ok(replace(&mut self.html, String::new(alloc)));
        }
        let html = String::from_str(alloc, &self.html)?;
        self.html.clear();
        Ok(html)
    }
}

/// Gathers the units of a text, whose labels are not known yet.
#[derive(Drop)]
struct UnitGatherer<'a> {
    alloc: Global,
    gathered: Gathered,
    writer: UnitWriter<'a>,
    no_labels: &'a LabelTable,
}

impl<'a> UnitSink for UnitGatherer<'a> {
    ghost use Rattle.mdbatch.specs.UnitsTaken.{AreGathered, GatherAlike, gather_alike, gather_all_alike};

    ghost took = { AreGathered };

    ghost alike = { GatherAlike };

    ghost may_stop = { λ _. ⊥ };

    // It is inlined, so that the unit is not moved again.
    #[inline(always)]
    fn take(&mut self, found: Found) -> Result<bool, EditFault> {
        self.gathered
            .take_unit(self.alloc, found, &mut self.writer, self.no_labels)?;
        Ok(true)
    }

    ghost alike_itself = { gather_alike };

    ghost alike_both = { gather_all_alike };
}

/// Reads a text: most of its units are written as they are found.
pub(crate) fn gathered_units(clean: CleanText<'_>) -> Result<Gathered, EditFault>
    ensures gathers { IfOk result (Gathers (setting_for clean.entry) (units_in clean.entry)) }
    ensures nesting { OnOk result (nested_in clean.entry ≡ None) }
    ensures fault { IfErr result (IsReadFault (nested_in clean.entry)) }
{
    let no_labels = LabelTable::new(clean.alloc);
    let mut gatherer = UnitGatherer {
        alloc: clean.alloc,
        gathered: Gathered::new(clean.alloc, clean.text.len())?,
        writer: UnitWriter::new(clean.alloc, clean.entities, clean.options),
        no_labels: &no_labels,
    };
    if !read_units(clean, &mut gatherer)? {
        // It takes all units (`may_stop`).
        unreachable!();
    }
    Ok(gatherer.gathered)
}

/// Whether a label may be looked up for a text of the unit: one is looked up only where a bracket closes (CommonMark 6.3).
fn may_ask(unit: &Unit) -> bool
    ensures { result ≡ false → list_any closes_bracket unit.now.texts ≡ false }
{
    let texts = unit.texts();
    for text in texts {
        if closes_bracket(text.as_bytes()) {
            return true;
        }
    }
    false
}

#[tactic(auto, using(crate::proofs::ClosedBrackets::none_closes))]
fn closes_bracket(text: &[u8]) -> bool
    ensures { result ≡ false → closes_bracket text.now ≡ false }
{
    memchr(b']', text).is_some()
}
