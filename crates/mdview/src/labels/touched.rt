//! The labels that an edit or a new prelude touches, and where they lead after it.

ghost use Rattle.std.specs.Prelude.{◌≡◌, ◌≤◌, length, ◌∷◌, ◌++◌, [], ℕ, List, IfOk, None, OnOk, map, option_copied, option_map, true};
ghost use Rattle.std.specs.Int.RustNames.{bit_and};
ghost use Rattle.std.specs.Option.{option_or};
ghost use Rattle.inlinespec.specs.LabelMap.{target_of};
ghost use Rattle.mdleaf.specs.DefinedLinks.{definition_of};
ghost use Rattle.mdsource.specs.Changes.{is_same_target};
ghost use Rattle.mdview.specs.HeldTexts.{between};
ghost use Rattle.mdview.specs.HeldUnit.{unit_in};
ghost use Rattle.mdview.specs.LabelMarks.{label_mark};
ghost use Rattle.mdview.specs.LabelTargets.{definitions_by};
ghost use Rattle.mdview.specs.ToldLabels.{Sees, Touches, elsewhere_in, labels_by, labels_in, said_in, told, told_in};

use crate::held::label_marks::marks_of_keys;
use crate::held::labels::HeldLabels;
use crate::held::marked_units::next_marked;
use crate::held::units::HeldUnit;
use mdblock::{Definition, Found, Unit};
use mdchunks::Chunks;
use mdinline::Labels;
use mdsource::{Prelude, or_beside};
use mdtext::{Label, NoMemory, Target};
use std::alloc::Global;
use std::collections::BTreeMap;

/// The labels that an edit or a new prelude touches: those that units or a prelude define which go, and those that units or a
/// prelude define which come. A label leads nowhere until the first unit that defines it was seen.
#[derive(Drop)]
pub(crate) struct TouchedLabels {
    alloc: Global,
    targets: BTreeMap<Label, Option<Target>, Global>,
}

impl TouchedLabels {
    /// No label. Takes no memory.
    pub(crate) fn new(alloc: Global) -> TouchedLabels
        ensures { (label : List ℕ) → told result label ≡ None }
    {
        TouchedLabels {
            alloc,
            targets: BTreeMap::new(alloc),
        }
    }

    fn is_empty(&self) -> bool
        ensures { result ≡ true → (label : List ℕ) → told self.now label ≡ None }
    {
        self.targets.is_empty()
    }

    /// The labels that units define which go: those from number `first` up to `next`.
    pub(crate) fn touch_held(
        &mut self,
        units: &Chunks<HeldUnit>,
        first: usize,
        next: usize,
    ) -> Result<(), NoMemory>
        requires order { first ≤ next }
        requires within { next ≤ length units.now.items }
        ensures { OnOk result (Touches (labels_by (map unit_in (between first next units.now.items))) self.old self.new) }
    {
        let mut rest = units.iter_from(first);
        for _ in first..next {
            self.touch(rest.next().unwrap().unit())?;
        }
        Ok(())
    }

    /// The labels that units define which come.
    pub(crate) fn touch_found(&mut self, found: &[Found]) -> Result<(), NoMemory>
        ensures { OnOk result (Touches (labels_by (map (λ one. one.unit) found.now)) self.old self.new) }
    {
        for one in found {
            self.touch(one.unit())?;
        }
        Ok(())
    }

    fn touch(&mut self, unit: &Unit) -> Result<(), NoMemory>
        ensures { OnOk result (Touches (labels_in unit.now.definitions) self.old self.new) }
    {
        for definition in unit.definitions() {
            self.touch_label(&definition.label)?;
        }
        Ok(())
    }

    /// The labels that a prelude defines which goes or comes.
    pub(crate) fn touch_prelude(&mut self, prelude: &Prelude) -> Result<(), NoMemory>
        ensures { OnOk result (Touches (map (λ e. e.0) prelude.now.labels) self.old self.new) }
    {
        for label in prelude.labels() {
            self.touch_label(label)?;
        }
        Ok(())
    }

    fn touch_label(&mut self, label: &Label) -> Result<(), NoMemory>
        ensures { OnOk result (Touches (label.now ∷ []) self.old self.new) }
    {
        if !self.targets.contains_key(label) {
            self.targets.insert(label.copy(self.alloc)?, None)?;
        }
        Ok(())
    }

    /// Where the labels lead by the units of the text after the edit, in their order: those that are held in front of number
    /// `first`, those that were found, and those that are held from number `next` on.
    pub(crate) fn define_all(
        &mut self,
        units: &Chunks<HeldUnit>,
        first: usize,
        found: &[Found],
        next: usize,
    ) -> Result<(), NoMemory>
        requires first { first ≤ length units.now.items }
        requires next { next ≤ length units.now.items }
        ensures { OnOk result (Sees (definitions_by (map unit_in (between 0 first units.now.items) ++ map (λ one. one.unit) found.now
            ++ map unit_in (between next (length units.now.items) units.now.items))) self.old self.new) }
    {
        if self.is_empty() {
            return Ok(());
        }
        self.define_held(units, 0, first)?;
        self.define_found(found)?;
        self.define_held(units, next, units.len())?;
        Ok(())
    }

    /// The marks of the labels that are touched.
    fn marks(&self) -> u64
        ensures { (label : List ℕ) → bit_and (label_mark label) result ≡ 0 → told self.now label ≡ None }
    {
        marks_of_keys(&self.targets)
    }

    /// Units that define no label that is touched are passed by their marks.
    fn define_held(
        &mut self,
        units: &Chunks<HeldUnit>,
        first: usize,
        next: usize,
    ) -> Result<(), NoMemory>
        requires order { first ≤ next }
        requires within { next ≤ length units.now.items }
        ensures { OnOk result (Sees (definitions_by (map unit_in (between first next units.now.items))) self.old self.new) }
    {
        let marks = self.marks();
        let mut rest = units.iter_from(first);
        let mut i = next_marked(units, &mut rest, first, next, marks);
        while i < next {
            self.define(rest.next().unwrap().unit())?;
            i = next_marked(units, &mut rest, i + 1, next, marks);
        }
        Ok(())
    }

    fn define_found(&mut self, found: &[Found]) -> Result<(), NoMemory>
        ensures { OnOk result (Sees (definitions_by (map (λ one. one.unit) found.now)) self.old self.new) }
    {
        for one in found {
            self.define(one.unit())?;
        }
        Ok(())
    }

    /// Each label that is touched and leads nowhere yet leads where the unit defines it to lead.
    fn define(&mut self, unit: &Unit) -> Result<(), NoMemory>
        ensures { OnOk result (Sees unit.now.definitions self.old self.new) }
    {
        for definition in unit.definitions() {
            self.define_one(definition)?;
        }
        Ok(())
    }

    fn define_one(&mut self, definition: &Definition) -> Result<(), NoMemory>
        ensures { OnOk result (Sees (definition_of definition.now ∷ []) self.old self.new) }
    {
        let Some(target) = self.targets.get_mut(&definition.label) else {
            return Ok(());
        };
        if target.is_none() {
            *target = Some(definition.target.copy(self.alloc)?);
        }
        Ok(())
    }

    /// Those that lead elsewhere than they do now, where a label that no unit defines leads where this prelude says.
    pub(crate) fn changed(
        self,
        held: &HeldLabels,
        prelude: &Prelude,
    ) -> Result<BTreeMap<Label, Option<Target>, Global>, NoMemory>
        ensures { IfOk result (λ changed. (label : List ℕ) → told_in changed.entries label ≡ said_in self.targets.entries held.now prelude.now label) }
    {
        let alloc = self.alloc;
        let mut changed = BTreeMap::new(alloc);
        if self.is_empty() {
            return Ok(changed);
        }
        for (label, target) in self.targets {
            let target = or_beside(alloc, target, &label, prelude)?;
            put_elsewhere(&mut changed, label, target, held)?;
        }
        Ok(changed)
    }
}

/// Puts a label that leads so after the edit among those that lead elsewhere, if it does.
fn put_elsewhere(
    changed: &mut BTreeMap<Label, Option<Target>, Global>,
    label: Label,
    target: Option<Target>,
    held: &HeldLabels,
) -> Result<(), NoMemory>
    ensures { OnOk result ((q : List ℕ) → told_in changed.new.entries q
        ≡ option_or (elsewhere_in ((label, target) ∷ []) held.now q) (told_in changed.old.entries q)) }
{
    if !is_same(held.find(&label), target.as_ref()) {
        changed.insert(label, target)?;
    }
    Ok(())
}

fn is_same(one: Option<&Target>, other: Option<&Target>) -> bool
    ensures { result ≡ is_same_target (option_map target_of (option_copied one.entry)) (option_map target_of (option_copied other.entry)) }
{
    match (one, other) {
        (None, None) => true,
        (Some(one), Some(other)) => one == other,
        _ => false,
    }
}
