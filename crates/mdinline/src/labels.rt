//! Where labels lead.

ghost use Rattle.std.specs.Prelude.{◌≡◌, ℕ, List, [], Option, MatchOption, OnOk, OnErr};
ghost use Rattle.inlinespec.specs.LabelMap.{LinkTarget, target_of, target_in, put_first};

use mdtext::{Label, NoMemory, Target};
use std::alloc::Global;
use std::collections::BTreeMap;
use std::marker::Model;

/// A finite map from link labels to their targets (CommonMark 4.7).
pub trait Labels {
    ghost target: { Self → List ℕ → Option LinkTarget };

    /// The target of a label, and `None` exactly where the map has none; so equal maps answer equally. Takes no memory.
    fn find(&self, label: &Label) -> Option<&Target>
        ensures { MatchOption result (target self.now label.now ≡ None) (λ t. target self.now label.now ≡ Some (target_of t.now)) };
}

/// A map from link labels to targets in which a label keeps the first target that it was given (CommonMark 4.7).
#[derive(Debug, Drop)]
pub struct LabelTable {
    targets: BTreeMap<Label, Target, Global>,
}

impl Model for LabelTable {
    ghost use Rattle.std.specs.Prelude.{map};
    ghost use Rattle.inlinespec.specs.LabelMap.{LabelMap, map_code, target_of};

    ghost Value = { LabelMap };

    ghost coded = { map_code };

    ghost view = { λ table. map (λ e. (e.0, target_of e.1)) table.targets.entries };
}

impl LabelTable {
    /// The empty map. Takes no memory.
    pub fn new(alloc: Global) -> LabelTable
        ensures { result ≡ [] }
    {
        LabelTable {
            targets: BTreeMap::new(alloc),
        }
    }

    /// Gives a label its target, unless it has one already. After `NoMemory` the map is as it was.
    pub fn add(&mut self, label: Label, target: Target) -> Result<(), NoMemory>
        ensures ok { OnOk result (self.new ≡ put_first self.old label (target_of target)) }
        ensures err { OnErr result (self.new ≡ self.old) }
    {
        if self.targets.contains_key(&label) {
            return Ok(());
        }
        self.targets.insert(label, target)?;
        Ok(())
    }
}

impl Labels for LabelTable {
    ghost target = { target_in };

    fn find(&self, label: &Label) -> Option<&Target> {
        self.targets.get(label)
    }
}
