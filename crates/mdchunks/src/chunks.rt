//! The sequence.

ghost use Rattle.std.specs.Prelude.{◌≡◌, ◌≤◌, ◌<◌, ◌+◌, [], length, drop, take, option_map, slice_get, slice_index_or, slice_set, MatchOption, OnOk};
ghost use Rattle.std.specs.Vec.{vec_len, vec_capacity};
ghost use Rattle.mdchunks.specs.Lists.{replaced, weigh};
ghost use Rattle.mdchunks.specs.Sequences.{HasRoom, IsLastAt, Sequence};

use crate::chunk::{Chunk, FULL};
use crate::iters::{Iter, weight_ahead};
use crate::places;
use crate::places::{FRONT, Near, exchange, find, member, weight_before};
use crate::splices::splice;
use crate::weights::{Change, Weighed, WeightPlace};
use std::alloc::{AllocError, Global};
use std::marker::Model;

/// Members in their order, held in chunks of 1 to 64.
#[derive(Drop)]
pub struct Chunks<T: Weighed> {
    alloc: Global,
    chunks: Vec<Chunk<T>>,
    /// Chunks for members that come.
    spare: Vec<Chunk<T>>,
    len: usize,
    /// Where the next place is looked for first.
    near: Near,
}

impl<T: Weighed> Model for Chunks<T> {
    ghost use Rattle.std.specs.Prelude.{◌≡◌, ◌-◌, length, min, take};
    ghost use Rattle.std.specs.List.{All};
    ghost use Rattle.std.specs.Vec.{vec_len, vec_capacity};
    ghost use Rattle.mdchunks.specs.Lists.{IsFilled, joined};
    ghost use Rattle.mdchunks.specs.Sequences.{Sequence};

    ghost Value = { Sequence T };

    ghost view = { λ c. record { items = joined c.chunks.items; room = min (vec_len c.spare) (vec_capacity c.chunks - vec_len c.chunks) } };

    ghost invariant = { λ c. All IsFilled c.chunks.items × (c.len ≡ length (joined c.chunks.items))
        × (length (joined (take c.near.chunk c.chunks.items)) ≡ c.near.front) };
}

impl<T: Weighed + Drop> Chunks<T> {
    /// The empty sequence. Takes no memory.
    pub fn new(alloc: Global) -> Chunks<T>
        ensures { result.items ≡ [] }
    {
        Chunks {
            alloc,
            chunks: Vec::new(alloc),
            spare: Vec::new(alloc),
            len: 0,
            near: FRONT,
        }
    }

    /// How many members it has.
    pub fn len(&self) -> usize
        ensures { result ≡ length self.now.items }
    {
        self.len
    }

    /// The member of this number; nothing where there are fewer.
    pub fn get(&self, i: usize) -> Option<&T>
        ensures { option_map (λ member. member.now) result ≡ slice_get self.now.items i }
    {
        if i >= self.len {
            return None;
        }
        Some(member(&self.chunks, i))
    }

    /// Exchanges the member of this number for another. Takes no memory.
    pub fn exchange(&mut self, i: usize, other: &mut T)
        requires { i < length self.old.items }
        ensures items { self.new.items ≡ slice_set self.old.items i other.old }
        ensures old { other.new ≡ slice_index_or self.old.items i other.new }
        ensures room { self.new.room ≡ self.old.room }
    {
        // a number that is read is known to fit its type
        let _len = self.len;
        self.near = FRONT;
        exchange(&mut self.chunks, i, other);
    }

    /// Changes the member of this number where it lies. Where numbers rise from call to call, what is in front of the last one is not looked at again.
    pub fn change<C: Change<T>>(&mut self, i: usize, change: C)
        requires within { i < length self.old.items }
        requires can { (d : T) → C.can_change change (slice_index_or self.old.items i d) }
        ensures items { (d : T) → self.new.items ≡ slice_set self.old.items i (C.changed change (slice_index_or self.old.items i d)) }
        ensures room { self.new.room ≡ self.old.room }
    {
        // a number that is read is known to fit its type
        let _len = self.len;
        self.near = places::change(&mut self.chunks, self.near, i, change);
    }

    /// The members from a number on, lent in order.
    pub fn iter_from(&self, from: usize) -> Iter<'_, T>
        requires { from ≤ length self.now.items }
        ensures { result ≡ drop from self.now.items }
    {
        // a number that is read is known to fit its type
        let _len = self.len;
        Iter::from_near(&self.chunks, self.near, from)
    }

    /// What the members in front of this number weigh together, up to the greatest number.
    pub fn weight_before(&self, i: usize) -> usize
        requires { i ≤ length self.now.items }
        ensures { result ≡ weigh T.weight (take i self.now.items) }
    {
        weight_before(&self.chunks, i)
    }

    /// What `count` members from a number on weigh together, up to the greatest number.
    pub fn weight_between(&self, from: usize, count: usize) -> usize
        requires { from + count ≤ length self.now.items }
        ensures { result ≡ weigh T.weight (take count (drop from self.now.items)) }
    {
        weight_ahead(self.iter_from(from), count)
    }

    /// The last member that begins at or below a weight, or the first one; nothing where there is none.
    pub fn find(&self, weight: usize) -> Option<WeightPlace>
        ensures { MatchOption result (self.now.items ≡ []) (λ place. IsLastAt T.weight self.now.items weight place.member place.front) }
    {
        if self.len == 0 {
            return None;
        }
        find(&self.chunks, weight)
    }

    /// Makes all the room that a splice of these members may need. Where that fails no member has changed. It fails too where there would be more members than
    /// `usize::MAX`, which only members of no bytes could be.
    pub fn reserve_splice(&mut self, added: &mut Vec<T>) -> Result<(), AllocError>
        ensures items { self.new.items ≡ self.old.items }
        ensures added { added.new.items ≡ added.old.items }
        ensures room { OnOk result (HasRoom self.new (vec_len added.new)) }
        ensures space { OnOk result (vec_len added.new + 64 ≤ vec_capacity added.new) }
    {
        if added.len() > usize::MAX - self.len {
            return Err(AllocError);
        }
        let needed = added.len() / FULL + 2;
        added.reserve(FULL)?;
        self.chunks.reserve(needed)?;
        for _ in self.spare.len()..needed {
            self.spare.push(Chunk::empty(self.alloc)?)?;
        }
        Ok(())
    }

    /// Puts members in the place of `removed` members at `at`. Takes no memory.
    pub fn splice(&mut self, at: usize, removed: usize, added: Vec<T>)
        requires within { at + removed ≤ length self.old.items }
        requires room { HasRoom self.old (vec_len added) }
        requires space { vec_len added + 64 ≤ vec_capacity added }
        ensures { self.new.items ≡ replaced self.old.items at removed added.items }
    {
        let count = added.len();
        self.near = splice(
            &mut self.chunks,
            &mut self.spare,
            self.near,
            at,
            removed,
            added,
        );
        self.len = self.len - removed + count;
    }
}
