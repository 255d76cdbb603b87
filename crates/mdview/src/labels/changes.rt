//! What an edit or a new prelude changes of where labels lead.

ghost use Rattle.std.specs.Prelude.{◌≡◌, ◌≤◌, ◌++◌, ℕ, List, IfOk, IfSome, None, drop, false, is_some, length, map, option_copied, take, true, OnOk};
ghost use Rattle.std.specs.BTreeMap.{keys};
ghost use Rattle.std.specs.Int.RustNames.{bit_and};
ghost use Rattle.std.specs.Cmp.Lexicographic.{slice_cmp};
ghost use Rattle.std.specs.List.{list_any};
ghost use Rattle.std.specs.Map.Iter.{ShowsInOrder, deref};
ghost use Rattle.std.specs.Option.{option_to_list};
ghost use Rattle.std.specs.Ordering.{eq_by_cmp, nat_cmp};
ghost use Rattle.std.specs.Set.{is_member};
ghost use Rattle.mdview.specs.HeldUnit.{unit_in};
ghost use Rattle.mdview.specs.LabelMarks.{label_mark};
ghost use Rattle.mdview.specs.LabelTargets.{HasRoom, IsElsewhere, LeadsAfter, at, led_after, target_held, leading, target_after};
ghost use Rattle.mdview.specs.UnitsFound.{IsHeldOn, trees_found};

use crate::blocks::reparse::Reparsed;
use crate::held::HeldText;
use crate::held::label_marks::marks_of_keys;
use crate::held::labels::HeldLabels;
use crate::labels::touched::TouchedLabels;
use mdinline::{Asked, Labels};
use mdsource::Prelude;
use mdtext::{Label, NoMemory, Target};
use std::alloc::Global;
use std::collections::BTreeMap;
use std::collections::btree_map::Keys;

/// The labels that lead elsewhere after an edit or a new prelude than before it, and where they lead then.
#[derive(Drop)]
pub(crate) struct LabelChanges {
    targets: BTreeMap<Label, Option<Target>, Global>,
}

impl LabelChanges {
    /// What an edit changes that reads this. The first definition of a label in the text counts (CommonMark 4.7).
    pub(crate) fn of(held: &HeldText<'_>, reparsed: &Reparsed<'_>) -> Result<LabelChanges, NoMemory>
        requires first { reparsed.now.first ≤ reparsed.now.next }
        requires next { reparsed.now.next ≤ length held.now.units.now.items }
        requires list { IfSome reparsed.now.list (IsHeldOn held.now.units.now.items reparsed.now) }
        ensures led { IfOk result (LeadsAfter held.now.labels.now
            (take reparsed.now.first (map unit_in held.now.units.now.items) ++ trees_found reparsed.now ++ drop reparsed.now.next (map unit_in held.now.units.now.items))
            held.now.prelude.now) }
        ensures elsewhere { IfOk result (IsElsewhere held.now.labels.now) }
    {
        let mut touched = TouchedLabels::new(held.alloc);
        // A list that is not put together defines no label.
        touched.touch_held(held.units, reparsed.first, reparsed.next)?;
        touched.touch_found(&reparsed.found)?;
        touched.define_all(held.units, reparsed.first, &reparsed.found, reparsed.next)?;
        Ok(LabelChanges {
            targets: touched.changed(held.labels, held.prelude)?,
        })
    }

    /// What this prelude changes in the place of the one that is held. A definition of the text counts before one of a prelude.
    pub(crate) fn of_prelude(
        held: &HeldText<'_>,
        prelude: &Prelude,
    ) -> Result<LabelChanges, NoMemory>
        ensures led { IfOk result (LeadsAfter held.now.labels.now (map unit_in held.now.units.now.items) prelude.now) }
        ensures elsewhere { IfOk result (IsElsewhere held.now.labels.now) }
    {
        let mut touched = TouchedLabels::new(held.alloc);
        touched.touch_prelude(held.prelude)?;
        touched.touch_prelude(prelude)?;
        let all = held.units.len();
        touched.define_all(held.units, all, &[], all)?;
        Ok(LabelChanges {
            targets: touched.changed(held.labels, prelude)?,
        })
    }

    /// Where a label leads after the edit, or that it leads nowhere then; none where it leads where it led.
    pub(crate) fn get(&self, label: &Label) -> Option<&Option<Target>>
        ensures { option_copied result ≡ at label.now self.now.targets.entries }
    {
        self.targets.get(label)
    }

    /// The labels that lead elsewhere after the edit.
    pub(crate) fn labels(&self) -> Keys<'_, Label, Option<Target>>
        ensures rest { result ≡ keys self.now.targets }
        ensures runs { ShowsInOrder (deref {X = List ℕ}) }
        ensures has { (label : List ℕ) → is_some (at label self.now.targets.entries) ≡ is_member (eq_by_cmp (slice_cmp nat_cmp)) result label }
    {
        self.targets.keys()
    }

    /// Whether each label leads where it led.
    pub(crate) fn is_empty(&self) -> bool
        ensures { result ≡ true → (label : List ℕ) → at label self.now.targets.entries ≡ None }
    {
        self.targets.is_empty()
    }

    /// The marks of the labels that lead elsewhere after the edit.
    pub(crate) fn marks(&self) -> u64
        ensures { (label : List ℕ) → bit_and (label_mark label) result ≡ 0 → is_some (at label self.now.targets.entries) ≡ false }
    {
        marks_of_keys(&self.targets)
    }

    /// Whether a label was asked for that leads elsewhere after the edit.
    pub(crate) fn concern(&self, asked: &Asked) -> bool
        ensures { result ≡ list_any (λ label. is_some (at label self.now.targets.entries)) asked.now }
    {
        for i in 0..asked.len() {
            if self.concerns_some(asked.get(i)) {
                return true;
            }
        }
        false
    }

    fn concerns_some(&self, label: Option<&Label>) -> bool
        ensures { result ≡ list_any (λ label. is_some (at label self.now.targets.entries)) (option_to_list (option_copied label.entry)) }
    {
        match label {
            Some(label) => self.targets.contains_key(label),
            None => false,
        }
    }

    /// Lets the labels lead where they do after the edit. It takes no memory: room was made before.
    pub(crate) fn commit(self, held: &mut HeldLabels)
        requires room { HasRoom held.old self }
        ensures { (label : List ℕ) → target_held held.new label ≡ led_after held.old self label }
    {
        if self.is_empty() {
            return;
        }
        for (label, target) in self.targets {
            held.set(&label, target);
        }
    }
}

/// Where labels lead after an edit: those that it changes as it says, and all others as before.
#[derive(Clone, Copy)]
pub(crate) struct LabelsAfter<'a> {
    pub(crate) held: &'a HeldLabels,
    pub(crate) changes: &'a LabelChanges,
}

impl<'a> Labels for LabelsAfter<'a> {
    ghost target = { target_after };

    fn find(&self, label: &Label) -> Option<&Target> {
        match self.changes.get(label) {
            Some(target) => target.as_ref(),
            None => self.held.find(label),
        }
    }
}

impl HeldLabels {
    /// Makes room for the labels that lead elsewhere after an edit. They lead where they led.
    pub(crate) fn make_room(
        &mut self,
        alloc: Global,
        changes: &LabelChanges,
    ) -> Result<(), NoMemory>
        ensures led { leading self.new.targets.entries ≡ leading self.old.targets.entries }
        ensures room { OnOk result (HasRoom self.new changes.now) }
        ensures same { (q : List ℕ) → target_held self.new q ≡ target_held self.old q }
    {
        for label in changes.labels() {
            self.make_room_for(alloc, label)?;
        }
        Ok(())
    }
}
