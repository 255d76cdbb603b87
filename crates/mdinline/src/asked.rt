//! The labels that were looked up for a text.

ghost use Rattle.std.specs.Prelude.{◌≡◌, ◌==◌, ◌↔◌, ◌∷◌, ◌++◌, [], ℕ, List, IsTrue, IfOk, OnOk, Contains};
ghost use Rattle.std.specs.Prelude.{length, refl, slice_get, option_copied};
ghost use Rattle.mdinline.specs.held.AskedLabels.{asked_more, with_asked};

use mdtext::{Label, NoMemory};
use std::alloc::Global;
use std::collections::BTreeSet;
use std::marker::Model;

/// The labels that were looked up for a text, found or not: each once, in ascending order.
#[derive(Debug, Drop)]
pub struct Asked {
    labels: Vec<Label>,
}

impl Model for Asked {
    ghost use Rattle.std.specs.Prelude.{List, ℕ};

    ghost Value = { List (List ℕ) };

    ghost use Rattle.std.specs.List.Sorted.{IsStrictlySortedBy};
    ghost use Rattle.std.specs.Cmp.Lexicographic.{slice_cmp};
    ghost use Rattle.std.specs.Ordering.{nat_cmp};

    ghost view = { λ asked. asked.labels.items };

    ghost invariant = { λ asked. IsStrictlySortedBy (slice_cmp nat_cmp) asked.labels.items };
}

impl Asked {
    ghost use Rattle.std.specs.List.Sorted.{IsStrictlySortedBy};
    ghost use Rattle.std.specs.Cmp.Lexicographic.{slice_cmp};
    ghost use Rattle.std.specs.Ordering.{nat_cmp};

    /// The labels of a set. For most texts no label is looked up.
    pub(crate) fn of(alloc: Global, set: BTreeSet<Label, Global>) -> Result<Asked, NoMemory>
        ensures { IfOk result (λ asked. asked ≡ set.keys) }
    {
        if set.is_empty() {
            return Ok(Asked {
                labels: Vec::new(alloc),
            });
        }
        Ok(Asked {
            labels: set.into_iter().collect(alloc)?,
        })
    }

    /// How many labels were looked up. Takes no memory.
    pub fn len(&self) -> usize
        ensures { result ≡ length self.now }
    {
        self.labels.len()
    }

    /// Whether no label was looked up. Takes no memory.
    pub fn is_empty(&self) -> bool
        ensures { result ≡ (length self.now == 0) }
    {
        self.labels.is_empty()
    }

    /// The label at a place of the ascending order. Takes no memory.
    pub fn get(&self, i: usize) -> Option<&Label>
        ensures value { option_copied result ≡ slice_get self.now i }
        ensures ascending { IsStrictlySortedBy (slice_cmp nat_cmp) self.now }
    {
        self.labels.get(i)
    }

    /// Whether a label was looked up. Takes no memory.
    pub fn has(&self, label: &Label) -> bool
        ensures { IsTrue result ↔ Contains self.now label.now }
    {
        self.labels.contains(label)
    }

    /// An equal set.
    pub(crate) fn copy(&self, alloc: Global) -> Result<Asked, NoMemory>
        ensures { IfOk result (λ copy. copy ≡ self.now) }
    {
        Ok(Asked {
            labels: copy_labels(alloc, &self.labels)?,
        })
    }
}

/// What is told which labels are looked up for texts, found or not.
pub trait AsksLabels {
    /// The value after these labels were looked up.
    ghost asks: { Self → List (List ℕ) → Self → Type 0 };

    /// Takes a label that is looked up. Refused for want of memory alone; the reading ends then, with `NoMemory`.
    fn ask(&mut self, label: &Label) -> Result<(), NoMemory>
        ensures { OnOk result (asks self.old (label.now ∷ []) self.new) };

    ghost asks_none: { (a : Self) → asks a [] a };

    ghost asks_more: { (a b c : Self) (ls ms : List (List ℕ)) → asks a ls b → asks b ms c → asks a (ls ++ ms) c };
}

/// Keeps no labels.
#[derive(Clone, Copy, Debug, Drop)]
pub struct Unasked;

impl AsksLabels for Unasked {
    ghost asks = { λ a labels b. Unit {0} };

    ghost asks_none = { λ a. tt };

    ghost asks_more = { λ a b c ls ms h k. tt };

    fn ask(&mut self, _label: &Label) -> Result<(), NoMemory> {
        Ok(())
    }
}

/// The labels that were looked up so far.
#[derive(Drop)]
pub(crate) struct AskedSet {
    alloc: Global,
    labels: BTreeSet<Label, Global>,
}

impl AskedSet {
    pub(crate) fn new(alloc: Global) -> AskedSet
        ensures { result.labels.keys ≡ [] }
    {
        AskedSet {
            alloc,
            labels: BTreeSet::new(alloc),
        }
    }

    pub(crate) fn finish(self) -> Result<Asked, NoMemory>
        ensures { IfOk result (λ asked. asked ≡ self.labels.keys) }
    {
        Asked::of(self.alloc, self.labels)
    }
}

impl AsksLabels for AskedSet {
    ghost asks = { λ a labels b. b.labels.keys ≡ with_asked a.labels.keys labels };

    ghost asks_none = { λ a. refl };

    ghost asks_more = { λ a b c ls ms h k. asked_more a.labels.keys b.labels.keys c.labels.keys ls ms h k };

    fn ask(&mut self, label: &Label) -> Result<(), NoMemory> {
        self.labels.insert(label.copy(self.alloc)?)?;
        Ok(())
    }
}

fn copy_labels(alloc: Global, labels: &[Label]) -> Result<Vec<Label>, NoMemory>
    ensures { IfOk result (λ copy. copy.items ≡ labels.now) }
{
    let mut copy = Vec::with_capacity(alloc, labels.len())?;
    for label in labels {
        copy.push(label.copy(alloc)?)?;
    }
    Ok(copy)
}
