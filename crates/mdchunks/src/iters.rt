//! Members of a sequence, lent in order.

ghost use Rattle.std.specs.Prelude.{◌≡◌, ◌≤◌, ◌<◌, ◌+◌, ◌^◌, ◌++◌, [], drop, get_or, length, take};
ghost use Rattle.std.specs.List.{All};
ghost use Rattle.std.specs.Iterator.{YieldsFirstRef, item_count};
ghost use Rattle.mdchunks.specs.Lists.{IsFilled, joined, weigh};
ghost use Rattle.mdchunks.specs.Marks.{IsApart, IsMarked};

use crate::chunk::Chunk;
use crate::places::{Near, Place, count_apart, first_marked, locate, locate_near};
use crate::weights::Weighed;
use std::marker::Model;

/// The members from a place on, lent in order.
#[derive(Drop)]
pub struct Iter<'a, T: Weighed> {
    inside: &'a [T],
    rest: &'a [Chunk<T>],
}

impl<'a, T: Weighed> Model for Iter<'a, T> {
    ghost use Rattle.std.specs.Prelude.{◌++◌, ◌<◌, ◌^◌, List, length};
    ghost use Rattle.std.specs.List.{All};
    ghost use Rattle.mdchunks.specs.Lists.{IsFilled, joined};

    ghost Value = { List T };

    ghost view = { λ i. i.inside.now ++ joined i.rest.now };

    ghost invariant = { λ i. All IsFilled i.rest.now × (length (i.inside.now ++ joined i.rest.now) < 2 ^ 64) };
}

impl<'a, T: Weighed + Drop> Iter<'a, T> {
    /// The members of a list.
    pub fn of(items: &'a [T]) -> Iter<'a, T>
        ensures { result ≡ items.now }
    {
        // a number that is read is known to fit its type
        let _len = items.len();
        Iter {
            inside: items,
            rest: &[],
        }
    }

    /// Those behind the next `n`.
    pub fn ahead(&self, n: usize) -> Iter<'a, T>
        requires { n ≤ length self.now }
        ensures { result ≡ drop n self.now }
    {
        if n <= self.inside.len() {
            return Iter {
                inside: &self.inside[n..],
                rest: self.rest,
            };
        }
        Iter::from(self.rest, n - self.inside.len())
    }

    /// Skips members that have none of these marks, up to the first that has one, and says how many. A chunk of which no member has one is skipped at once.
    pub fn skip_apart(&mut self, marks: u64) -> usize
        ensures within { result ≤ length self.old }
        ensures rest { self.new ≡ drop result self.old }
        ensures apart { All (IsApart T.marks marks) (take result self.old) }
        ensures marked { (d : T) → result < length self.old → IsMarked T.marks marks (get_or self.old result d) }
    {
        let inside = self.inside;
        let apart = count_apart(inside, marks);
        if apart < inside.len() {
            self.inside = &inside[apart..];
            return apart;
        }
        let first = first_marked(self.rest, marks);
        *self = Iter::at(self.rest, first.place);
        apart + first.before
    }

    /// The members of some chunks from a number on.
    pub(crate) fn from(chunks: &'a [Chunk<T>], at: usize) -> Iter<'a, T>
        requires within { at ≤ length (joined chunks.now) }
        requires few { length (joined chunks.now) < 2 ^ 64 }
        requires filled { All IsFilled chunks.now }
        ensures { result ≡ drop at (joined chunks.now) }
    {
        Iter::at(chunks, locate(chunks, at))
    }

    /// The members of some chunks from a place on.
    fn at(chunks: &'a [Chunk<T>], place: Place) -> Iter<'a, T>
        requires inside { place.inside ≤ length (get_or chunks.now place.chunk []) }
        requires few { length (joined chunks.now) < 2 ^ 64 }
        requires filled { All IsFilled chunks.now }
        ensures { result ≡ drop place.inside (get_or chunks.now place.chunk []) ++ joined (drop (place.chunk + 1) chunks.now) }
    {
        if place.chunk >= chunks.len() {
            return Iter {
                inside: &[],
                rest: &[],
            };
        }
        Iter {
            inside: &chunks[place.chunk].items()[place.inside..],
            rest: &chunks[place.chunk + 1..],
        }
    }
}

impl<'a, T: Weighed + Drop> Iter<'a, T> {
    /// The members of some chunks from a number on, which is looked for from a chunk on if it lies behind that one's front.
    pub(crate) fn from_near(chunks: &'a [Chunk<T>], near: Near, at: usize) -> Iter<'a, T>
        requires within { at ≤ length (joined chunks.now) }
        requires few { length (joined chunks.now) < 2 ^ 64 }
        requires filled { All IsFilled chunks.now }
        requires near { length (joined (take near.chunk chunks.now)) ≡ near.front }
        ensures { result ≡ drop at (joined chunks.now) }
    {
        if at <= near.front {
            return Iter::from(chunks, at);
        }
        Iter::at(chunks, locate_near(chunks, near, at))
    }
}

impl<'a, T: Weighed + Drop> Iterator for Iter<'a, T> {
    type Item = &'a T;

    ghost next_gives = { YieldsFirstRef (λ s. s) };

    ghost remaining = { item_count (λ s. s) };

    fn next(&mut self) -> Option<&'a T> {
        let inside = self.inside;
        if let Some((first, others)) = inside.split_first() {
            self.inside = others;
            return Some(first);
        }
        let rest = self.rest;
        let (chunk, rest) = rest.split_first()?;
        let (first, others) = chunk.items().split_first()?;
        self.inside = others;
        self.rest = rest;
        Some(first)
    }
}

/// What the next members weigh together.
pub(crate) fn weight_ahead<T: Weighed + Drop>(mut ahead: Iter<'_, T>, count: usize) -> usize
    ensures { result ≡ weigh T.weight (take count ahead.entry) }
{
    let mut sum: usize = 0;
    for _ in 0..count {
        match ahead.next() {
            Some(member) => sum = sum.saturating_add(member.weight()),
            None => return sum,
        }
    }
    sum
}
