//! Where the labels of a text and its prelude lead.

ghost use Rattle.std.specs.Prelude.{◌≡◌, ◌∷◌, [], ℕ, List, None, OnOk, ◌||◌, false, is_some, true};
ghost use Rattle.std.specs.Str.{bytes_eq};
ghost use Rattle.mdview.specs.LabelTargets.{at, changed, leading, target_held};

use mdinline::Labels;
use mdtext::{Label, NoMemory, Target};
use std::alloc::Global;
use std::collections::BTreeMap;

/// Where each label of the text and its prelude leads (CommonMark 4.7). A label may have room here and lead nowhere.
#[derive(Drop)]
pub(crate) struct HeldLabels {
    targets: BTreeMap<Label, Option<Target>, Global>,
}

impl Labels for HeldLabels {
    ghost target = { target_held };

    fn find(&self, label: &Label) -> Option<&Target> {
        match self.targets.get(label) {
            Some(target) => target.as_ref(),
            None => None,
        }
    }
}

impl HeldLabels {
    /// No label leads anywhere. Takes no memory.
    pub(crate) fn new(alloc: Global) -> HeldLabels
        ensures led { leading result.targets.entries ≡ [] }
        ensures none { (q : List ℕ) → target_held result q ≡ None }
    {
        HeldLabels {
            targets: BTreeMap::new(alloc),
        }
    }

    pub(crate) fn make_room_for(&mut self, alloc: Global, label: &Label) -> Result<(), NoMemory>
        ensures led { leading self.new.targets.entries ≡ leading self.old.targets.entries }
        ensures room { OnOk result ((q : List ℕ) → is_some (at q self.new.targets.entries) ≡ bytes_eq q label.now || is_some (at q self.old.targets.entries)) }
        ensures same { (q : List ℕ) → target_held self.new q ≡ target_held self.old q }
    {
        if !self.targets.contains_key(label) {
            self.targets.insert(label.copy(alloc)?, None)?;
        }
        Ok(())
    }

    /// Lets a label lead elsewhere, or nowhere. It takes no memory: room was made before.
    pub(crate) fn set(&mut self, label: &Label, target: Option<Target>)
        requires room { is_some (at label.now self.old.targets.entries) ≡ true }
        ensures led { (q : List ℕ) → target_held self.new q ≡ changed (at q ((label.now, target) ∷ [])) (target_held self.old q) }
        ensures room { (q : List ℕ) → bytes_eq q label.now ≡ false → is_some (at q self.new.targets.entries) ≡ is_some (at q self.old.targets.entries) }
    {
        match target {
            None => {
                self.targets.remove(label);
            }
            Some(_) => {
                if let Some(held) = self.targets.get_mut(label) {
                    *held = target;
                }
            }
        }
    }
}
