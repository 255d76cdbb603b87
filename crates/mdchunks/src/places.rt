//! Where a member lies among the chunks.

ghost use Rattle.std.specs.Prelude.{◌≡◌, ◌≤◌, ◌<◌, ◌+◌, ◌-◌, ◌^◌, [], MatchOption, get_or, length, min, slice_index_or, slice_set, take};
ghost use Rattle.std.specs.List.{All};
ghost use Rattle.mdchunks.specs.Lists.{IsFilled, joined, weigh};
ghost use Rattle.mdchunks.specs.Marks.{IsApart, IsMarked};
ghost use Rattle.mdchunks.specs.Sequences.{IsLastAt};

use crate::chunk::Chunk;
use crate::weights::{Change, Weighed, WeightPlace, sum_weights};

/// A place in a chunk.
#[derive(Clone, Copy)]
pub(crate) struct Place {
    pub(crate) chunk: usize,
    pub(crate) inside: usize,
}

/// The chunk in which a place lies: of two that meet there the first one.
pub(crate) fn locate<T: Weighed + Drop>(chunks: &[Chunk<T>], at: usize) -> Place
    requires { at ≤ length (joined chunks.now) }
    ensures within { result.chunk ≤ length chunks.now }
    ensures place { length (joined (take result.chunk chunks.now)) + result.inside ≡ at }
    ensures inside { result.inside ≤ length (get_or chunks.now result.chunk []) }
    ensures end { result.chunk ≡ length chunks.now → length chunks.now ≡ 0 }
    ensures behind { 0 < at → 0 < result.inside }
    ensures found { 0 < at → result.chunk < length chunks.now }
{
    let mut left = at;
    for i in 0..chunks.len() {
        let len = chunks[i].len();
        if left <= len {
            return Place {
                chunk: i,
                inside: left,
            };
        }
        left -= len;
    }
    Place {
        chunk: chunks.len(),
        inside: left,
    }
}

/// A chunk, and how many members stand before it.
#[derive(Clone, Copy)]
pub(crate) struct Near {
    pub(crate) chunk: usize,
    pub(crate) front: usize,
}

/// The first chunk.
pub(crate) const FRONT: Near = Near { chunk: 0, front: 0 };

/// The chunk in which a place behind some members lies, looked for from a chunk on if it is not in front of that one: of two that meet there the first one.
pub(crate) fn locate_near<T: Weighed + Drop>(chunks: &[Chunk<T>], near: Near, at: usize) -> Place
    requires within { at ≤ length (joined chunks.now) }
    requires some { 0 < at }
    requires near { length (joined (take near.chunk chunks.now)) ≡ near.front }
    ensures place { length (joined (take result.chunk chunks.now)) + result.inside ≡ at }
    ensures inside { result.inside ≤ length (get_or chunks.now result.chunk []) }
    ensures behind { 0 < result.inside }
    ensures found { result.chunk < length chunks.now }
{
    if at <= near.front {
        return locate(chunks, at);
    }
    let mut left = at - near.front;
    for i in near.chunk..chunks.len() {
        let len = chunks[i].len();
        if left <= len {
            return Place {
                chunk: i,
                inside: left,
            };
        }
        left -= len;
    }
    unreachable!()
}

/// The chunk in which an edit begins, looked for from a chunk on if it can be: that of the first member that goes, where one does.
pub(crate) fn locate_edit<T: Weighed + Drop>(
    chunks: &[Chunk<T>],
    near: Near,
    at: usize,
    removed: usize,
) -> Place
    requires within { at + removed ≤ length (joined chunks.now) }
    requires few { length (joined chunks.now) < 2 ^ 64 }
    requires some { 0 < length chunks.now }
    requires near { length (joined (take near.chunk chunks.now)) ≡ near.front }
    ensures within { result.chunk < length chunks.now }
    ensures place { length (joined (take result.chunk chunks.now)) + result.inside ≡ at }
    ensures inside { result.inside ≤ length (get_or chunks.now result.chunk []) }
{
    if removed > 0 {
        let place = locate_near(chunks, near, at + 1);
        return Place {
            chunk: place.chunk,
            inside: place.inside - 1,
        };
    }
    if at > near.front {
        return locate_near(chunks, near, at);
    }
    locate(chunks, at)
}

/// The member of this number.
pub(crate) fn member<T: Weighed + Drop>(chunks: &[Chunk<T>], i: usize) -> &T
    requires within { i < length (joined chunks.now) }
    requires few { length (joined chunks.now) < 2 ^ 64 }
    ensures { result.now ≡ get_or (joined chunks.now) i result.now }
{
    let place = locate(chunks, i + 1);
    &chunks[place.chunk].items()[place.inside - 1]
}

/// Exchanges the member of this number for another.
pub(crate) fn exchange<T: Weighed + Drop>(chunks: &mut [Chunk<T>], i: usize, other: &mut T)
    requires within { i < length (joined chunks.old) }
    requires few { length (joined chunks.old) < 2 ^ 64 }
    requires filled { All IsFilled chunks.old }
    ensures members { joined chunks.new ≡ slice_set (joined chunks.old) i other.old }
    ensures old { other.new ≡ slice_index_or (joined chunks.old) i other.new }
    ensures filled { All IsFilled chunks.new }
{
    let place = locate(chunks, i + 1);
    chunks[place.chunk].exchange(place.inside - 1, other);
}

/// Changes the member of this number, which is looked for from a chunk on. The answer is the chunk in which it lies.
pub(crate) fn change<T: Weighed + Drop, C: Change<T>>(
    chunks: &mut [Chunk<T>],
    near: Near,
    i: usize,
    change: C,
) -> Near
    requires within { i < length (joined chunks.old) }
    requires few { length (joined chunks.old) < 2 ^ 64 }
    requires filled { All IsFilled chunks.old }
    requires near { length (joined (take near.chunk chunks.old)) ≡ near.front }
    requires can { (d : T) → C.can_change change (slice_index_or (joined chunks.old) i d) }
    ensures members { (d : T) → joined chunks.new ≡ slice_set (joined chunks.old) i (C.changed change (slice_index_or (joined chunks.old) i d)) }
    ensures len { length (joined chunks.new) ≡ length (joined chunks.old) }
    ensures filled { All IsFilled chunks.new }
    ensures near { length (joined (take result.chunk chunks.new)) ≡ result.front }
{
    let place = locate_near(chunks, near, i + 1);
    chunks[place.chunk].change(place.inside - 1, change);
    let front = i + 1 - place.inside;
    Near {
        chunk: place.chunk,
        front,
    }
}

/// What the members in front of a place weigh together.
pub(crate) fn weight_before<T: Weighed + Drop>(chunks: &[Chunk<T>], at: usize) -> usize
    requires { at ≤ length (joined chunks.now) }
    ensures { result ≡ weigh T.weight (take at (joined chunks.now)) }
{
    let mut sum: usize = 0;
    let mut left = at;
    for i in 0..chunks.len() {
        let chunk = &chunks[i];
        if left < chunk.len() {
            return sum.saturating_add(sum_weights(&chunk.items()[..left]));
        }
        sum = sum.saturating_add(chunk.weight());
        left -= chunk.len();
    }
    sum
}

/// How many members at the front have none of these marks.
pub(crate) fn count_apart<T: Weighed>(items: &[T], marks: u64) -> usize
    ensures within { result ≤ length items.now }
    ensures apart { All (IsApart T.marks marks) (take result items.now) }
    ensures marked { (d : T) → result < length items.now → IsMarked T.marks marks (get_or items.now result d) }
{
    for i in 0..items.len() {
        if items[i].marks() & marks != 0 {
            return i;
        }
    }
    items.len()
}

/// How many members at the front of a chunk have none of these marks.
fn apart_in<T: Weighed + Drop>(chunk: &Chunk<T>, marks: u64) -> usize
    ensures within { result ≤ length chunk.now }
    ensures apart { All (IsApart T.marks marks) (take result chunk.now) }
    ensures marked { (d : T) → result < length chunk.now → IsMarked T.marks marks (get_or chunk.now result d) }
{
    if chunk.marks() & marks == 0 {
        return chunk.len();
    }
    count_apart(chunk.items(), marks)
}

/// The place of a member, and how many members stand before it.
#[derive(Clone, Copy)]
pub(crate) struct Marked {
    pub(crate) place: Place,
    pub(crate) before: usize,
}

/// The first member that has one of these marks. Where there is none, its place is that behind all.
pub(crate) fn first_marked<T: Weighed + Drop>(chunks: &[Chunk<T>], marks: u64) -> Marked
    requires few { length (joined chunks.now) < 2 ^ 64 }
    ensures within { result.before ≤ length (joined chunks.now) }
    ensures chunk { result.place.chunk ≤ length chunks.now }
    ensures inside { result.place.inside ≤ length (get_or chunks.now result.place.chunk []) }
    ensures before { result.before ≡ length (joined (take result.place.chunk chunks.now)) + result.place.inside }
    ensures apart { All (IsApart T.marks marks) (take result.before (joined chunks.now)) }
    ensures marked { (d : T) → result.before < length (joined chunks.now) → IsMarked T.marks marks (get_or (joined chunks.now) result.before d) }
{
    let mut before: usize = 0;
    for i in 0..chunks.len() {
        let chunk = &chunks[i];
        let inside = apart_in(chunk, marks);
        if inside < chunk.len() {
            return Marked {
                place: Place { chunk: i, inside },
                before: before + inside,
            };
        }
        before += chunk.len();
    }
    Marked {
        place: Place {
            chunk: chunks.len(),
            inside: 0,
        },
        before,
    }
}

/// The last member that begins at or below a weight, or the first one.
pub(crate) fn find<T: Weighed + Drop>(chunks: &[Chunk<T>], weight: usize) -> Option<WeightPlace>
    requires filled { All IsFilled chunks.now }
    requires few { length (joined chunks.now) < 2 ^ 64 }
    ensures { MatchOption result (joined chunks.now ≡ []) (λ place. IsLastAt T.weight (joined chunks.now) weight place.member place.front) }
{
    let mut start = WeightPlace {
        member: 0,
        front: 0,
    };
    for i in 0..chunks.len() {
        let chunk = &chunks[i];
        let behind = start.front.saturating_add(chunk.weight());
        if i + 1 == chunks.len() || weight < behind {
            let found = find_inside(chunk.items(), start.front, weight);
            return Some(WeightPlace {
                member: start.member + found.member,
                front: found.front,
            });
        }
        start = WeightPlace {
            member: start.member + chunk.len(),
            front: behind,
        };
    }
    None
}

/// The last member of one chunk that begins at or below a weight, with the weight in front of the chunk added.
fn find_inside<T: Weighed>(items: &[T], front: usize, weight: usize) -> WeightPlace
    requires some { 0 < length items.now }
    requires below { front ≤ weight }
    ensures within { result.member < length items.now }
    ensures front { result.front ≡ min (front + weigh T.weight (take result.member items.now)) (2 ^ 64 - 1) }
    ensures below { result.front ≤ weight }
    ensures next { result.member + 1 < length items.now → weight < min (front + weigh T.weight (take (result.member + 1) items.now)) (2 ^ 64 - 1) }
{
    let mut place = WeightPlace { member: 0, front };
    for i in 0..items.len() {
        let behind = place.front.saturating_add(items[i].weight());
        if i + 1 == items.len() || weight < behind {
            return place;
        }
        place = WeightPlace {
            member: i + 1,
            front: behind,
        };
    }
    place
}
