//! A chunk: at most 64 members in their order, with room for 64, and what they weigh together, and all their marks.

ghost use Rattle.std.specs.Prelude.{◌≡◌, ◌≤◌, ◌<◌, ◌+◌, ◌++◌, [], length, take, drop, IfOk, slice_index_or, slice_set};
ghost use Rattle.std.specs.Vec.{vec_len, vec_capacity};
ghost use Rattle.std.specs.Vec.Iter.{into_iter_items};
ghost use Rattle.mdchunks.specs.Lists.{replaced, weigh};
ghost use Rattle.mdchunks.specs.Marks.{AreMarksOf};

use crate::moves::splice;
use crate::weights::{Change, Weighed, all_marks, sum_weights};
use std::alloc::{AllocError, Global};
use std::marker::Model;
use std::mem;
use std::vec::IntoIter;

pub(crate) const FULL: usize = 64;

#[derive(Drop)]
pub(crate) struct Chunk<T: Weighed> {
    items: Vec<T>,
    weight: usize,
    marks: u64,
}

impl<T: Weighed> Model for Chunk<T> {
    ghost use Rattle.std.specs.Prelude.{◌≡◌, ◌≤◌, List, length};
    ghost use Rattle.std.specs.Vec.{vec_capacity};
    ghost use Rattle.mdchunks.specs.Lists.{weigh};
    ghost use Rattle.mdchunks.specs.Marks.{AreMarksOf};

    ghost Value = { List T };

    ghost view = { λ c. c.items.items };

    ghost invariant = { λ c. (length c.items.items ≤ 64) × (64 ≤ vec_capacity c.items) × (c.weight ≡ weigh T.weight c.items.items)
        × AreMarksOf T.marks c.items.items c.marks };
}

impl<T: Weighed + Drop> Chunk<T> {
    #[tactic(auto, using(crate::proofs::MarkSums::marks_none))]
    pub(crate) fn empty(alloc: Global) -> Result<Chunk<T>, AllocError>
        ensures { IfOk result (λ chunk. chunk ≡ []) }
    {
        Ok(Chunk {
            items: Vec::with_capacity(alloc, FULL)?,
            weight: 0,
            marks: 0,
        })
    }

    pub(crate) fn len(&self) -> usize
        ensures value { result ≡ length self.now }
        ensures small { result ≤ 64 }
    {
        self.items.len()
    }

    pub(crate) fn items(&self) -> &[T]
        ensures value { result.now ≡ self.now }
        ensures small { length result.now ≤ 64 }
    {
        &self.items
    }

    /// What the members weigh together.
    pub(crate) fn weight(&self) -> usize
        ensures { result ≡ weigh T.weight self.now }
    {
        self.weight
    }

    /// Bits of which none is shared with marks that no member has.
    pub(crate) fn marks(&self) -> u64
        ensures { AreMarksOf T.marks self.now result }
    {
        self.marks
    }

    /// Drops so many members from a place on.
    pub(crate) fn remove(&mut self, from: usize, gone: usize)
        requires { from + gone ≤ length self.old }
        ensures { self.new ≡ take from self.old ++ drop (from + gone) self.old }
    {
        if gone > 0 {
            self.items.drain(from..from + gone);
            self.weight = sum_weights(&self.items);
            self.marks = all_marks(&self.items);
        }
    }

    /// Puts members in the place of others.
    pub(crate) fn splice(&mut self, at: usize, removed: usize, mut added: Vec<T>)
        requires within { at + removed ≤ length self.old }
        requires fits { length self.old + vec_len added ≤ 64 + removed }
        ensures { self.new ≡ replaced self.old at removed added.items }
    {
        splice(&mut self.items, at, removed, &mut added);
        self.weight = sum_weights(&self.items);
        self.marks = all_marks(&self.items);
    }

    /// Moves all members to the end of a list.
    #[tactic(auto, using(crate::proofs::MarkSums::marks_none))]
    pub(crate) fn pour(&mut self, all: &mut Vec<T>)
        requires { vec_len all.old + 64 ≤ vec_capacity all.old }
        ensures empty { self.new ≡ [] }
        ensures all { all.new.items ≡ all.old.items ++ self.old }
        ensures few { vec_len all.new ≤ vec_len all.old + 64 }
    {
        all.append(&mut self.items).unwrap();
        self.weight = 0;
        self.marks = 0;
    }

    /// Takes the members of another one behind its own.
    pub(crate) fn append(&mut self, mut other: Chunk<T>)
        requires { length self.old + length other ≤ 64 }
        ensures { self.new ≡ self.old ++ other }
    {
        self.items.append(&mut other.items).unwrap();
        self.weight = sum_weights(&self.items);
        self.marks = all_marks(&self.items);
    }

    /// Lets its members go, and takes as many others as there are, up to a number.
    pub(crate) fn fill(&mut self, source: &mut IntoIter<T>, size: usize)
        requires { size ≤ 64 }
        ensures front { self.new ≡ take size (into_iter_items source.old) }
        ensures rest { into_iter_items source.new ≡ drop size (into_iter_items source.old) }
    {
        self.items.clear();
        fill_list(&mut self.items, source, size);
        self.weight = sum_weights(&self.items);
        self.marks = all_marks(&self.items);
    }

    /// Exchanges the member of a number for another.
    pub(crate) fn exchange(&mut self, i: usize, member: &mut T)
        requires { i < length self.old }
        ensures value { self.new ≡ slice_set self.old i member.old }
        ensures old { member.new ≡ slice_index_or self.old i member.new }
    {
        mem::swap(&mut self.items[i], member);
        self.weight = sum_weights(&self.items);
        self.marks = all_marks(&self.items);
    }

    /// Changes the member of a number.
    pub(crate) fn change<C: Change<T>>(&mut self, i: usize, change: C)
        requires within { i < length self.old }
        requires can { (d : T) → C.can_change change (slice_index_or self.old i d) }
        ensures value { (d : T) → self.new ≡ slice_set self.old i (C.changed change (slice_index_or self.old i d)) }
        ensures len { length self.new ≡ length self.old }
    {
        let weight = self.items[i].weight();
        let marks = self.items[i].marks();
        change.change(&mut self.items[i]);
        if self.items[i].weight() == weight && self.items[i].marks() == marks {
            return;
        }
        self.weight = sum_weights(&self.items);
        self.marks = all_marks(&self.items);
    }
}

/// Moves members from an iterator to an empty list that has room for them, up to a number.
fn fill_list<T: Drop>(items: &mut Vec<T>, source: &mut IntoIter<T>, size: usize)
    requires empty { vec_len items.old ≡ 0 }
    requires room { size ≤ vec_capacity items.old }
    ensures front { items.new.items ≡ take size (into_iter_items source.old) }
    ensures rest { into_iter_items source.new ≡ drop size (into_iter_items source.old) }
    ensures capacity { vec_capacity items.new ≡ vec_capacity items.old }
{
    for _ in 0..size {
        match source.next() {
            Some(member) => items.push_reserved(member),
            None => return,
        }
    }
}
