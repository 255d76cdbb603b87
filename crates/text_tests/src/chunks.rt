//! A sequence in chunks, beside a plain list.

use mdchunks::{Change, Chunks, Weighed};
use std::alloc::{AllocError, Global};
use std::process::Abort;
use std::test::Fail;

/// A number, which weighs as much as it is.
#[derive(Clone, Copy, PartialEq, Eq)]
struct Number(u32);

impl Weighed for Number {
    ghost weight = { λ x. x.0 };

    ghost marks = { λ x. x.0 };

    fn weight(&self) -> usize {
        self.0 as usize
    }

    fn marks(&self) -> u64 {
        u64::from(self.0)
    }
}

/// Another number in the place of one.
#[derive(Drop)]
struct Put(Number);

impl Change<Number> for Put {
    ghost can_change = { λ _ _. Unit {0} };

    ghost changed = { λ put _. put.0 };

    fn change(self, member: &mut Number) {
        *member = self.0;
    }
}

/// Where, how many members go, and how many come: into one chunk, into new ones, over chunks, at both ends, all, and none.
static EDITS: [(usize, usize, u32); 16] = [
    (0, 0, 0),
    (0, 0, 1),
    (1, 0, 200),
    (64, 1, 1),
    (65, 0, 1),
    (100, 60, 3),
    (0, 1, 0),
    (20, 90, 500),
    (300, 0, 64),
    (10, 500, 2),
    (3, 2, 70),
    (0, 70, 0),
    (50, 3, 30),
    (0, 0, 65),
    (0, 185, 0),
    (0, 0, 3),
];

/// Whether this weight stands in front of a place, and so many members from it on.
fn is_between(chunks: &Chunks<Number>, i: usize, front: usize, count: usize) -> bool {
    if i >= chunks.len() {
        return false;
    }
    chunks.weight_before(i) == front && chunks.iter_from(i).count() == count
}

/// Each member by its place.
fn compare(rt: &impl Abort, chunks: &Chunks<Number>, list: &[Number]) {
    assert_eq!(rt; chunks.len(), list.len());
    let mut front: usize = 0;
    for (i, member) in list.iter().enumerate() {
        assert!(rt; chunks.get(i) == Some(member), "at {i}");
        assert!(rt; is_between(chunks, i, front, list.len() - i), "at {i}");
        front = front.saturating_add(member.0 as usize);
    }
    assert!(rt; chunks.get(list.len()).is_none());
}

/// The members in turn.
fn compare_in_turn(rt: &impl Abort, chunks: &Chunks<Number>, list: &[Number]) {
    let mut members = chunks.iter_from(0);
    for (i, wanted) in list.iter().enumerate() {
        assert!(rt; members.next() == Some(wanted), "at {i}");
    }
    assert!(rt; members.next().is_none());
}

/// So many numbers, that follow this one.
fn numbers_behind(alloc: Global, number: u32, count: u32) -> Result<Vec<Number>, AllocError> {
    let mut numbers = Vec::new(alloc);
    let mut last = number;
    for _ in 0..count {
        last = last.wrapping_add(1);
        numbers.push(Number(last))?;
    }
    Ok(numbers)
}

/// The list after an edit, or none where the edit is not within it.
fn spliced_list(
    alloc: Global,
    list: &[Number],
    at: usize,
    removed: usize,
    added: &[Number],
) -> Result<Option<Vec<Number>>, AllocError> {
    if at > list.len() || removed > list.len() - at {
        return Ok(None);
    }
    let mut next = Vec::new(alloc);
    next.extend_from_slice(&list[..at])?;
    next.extend_from_slice(added)?;
    next.extend_from_slice(&list[at + removed..])?;
    Ok(Some(next))
}

/// Makes an edit of the chunks, and tells whether it is within them.
fn splice(
    chunks: &mut Chunks<Number>,
    at: usize,
    removed: usize,
    mut added: Vec<Number>,
) -> Result<bool, AllocError> {
    chunks.reserve_splice(&mut added)?;
    if at > chunks.len() || removed > chunks.len() - at {
        return Ok(false);
    }
    chunks.splice(at, removed, added);
    Ok(true)
}

#[test]
fn splices_as_a_list(rt: HostRuntime) -> Result<(), Fail> {
    let alloc = rt.alloc();
    let mut chunks: Chunks<Number> = Chunks::new(alloc);
    let mut list: Vec<Number> = Vec::new(alloc);
    let mut mark: u32 = 0;
    for &(at, removed, count) in &EDITS {
        let added = numbers_behind(alloc, mark, count)?;
        mark = mark.wrapping_add(count);
        list = spliced_list(alloc, &list, at, removed, &added)?.ok_or("not within the list")?;
        assert!(rt; splice(&mut chunks, at, removed, added)?);
        compare(&rt, &chunks, &list);
        compare_in_turn(&rt, &chunks, &list);
    }
    Ok(())
}

/// A hundred members of weights 0, 1, 2, 0, 1, 2 ..
fn weighed_members(alloc: Global) -> Result<Vec<Number>, AllocError> {
    let mut members = Vec::new(alloc);
    for i in 0..100u32 {
        members.push(Number(i % 3))?;
    }
    Ok(members)
}

fn found(chunks: &Chunks<Number>, weight: usize) -> Option<(usize, usize)> {
    match chunks.find(weight) {
        Some(place) => Some((place.member, place.front)),
        None => None,
    }
}

fn weight_before(chunks: &Chunks<Number>, i: usize) -> Option<usize> {
    if i > chunks.len() {
        return None;
    }
    Some(chunks.weight_before(i))
}

/// The member that another took the place of.
fn exchanged(chunks: &mut Chunks<Number>, i: usize, number: Number) -> Option<Number> {
    if i >= chunks.len() {
        return None;
    }
    let mut other = number;
    chunks.exchange(i, &mut other);
    Some(other)
}

/// Puts a number in a member's place, and tells what stands there then.
fn changed(chunks: &mut Chunks<Number>, i: usize, number: Number) -> Option<Number> {
    if i >= chunks.len() {
        return None;
    }
    chunks.change(i, Put(number));
    chunks.get(i).copied()
}

/// Weights, each with a member and the weight in front of it: of those that begin at one weight the last.
static PLACES: [(usize, usize, usize); 6] = [
    (0, 1, 0),
    (1, 2, 1),
    (2, 2, 1),
    (3, 4, 3),
    (98, 98, 97),
    (1000, 99, 99),
];

fn check_places(rt: &impl Abort, chunks: &Chunks<Number>) {
    for &(weight, member, front) in &PLACES {
        assert!(rt; found(chunks, weight) == Some((member, front)), "{weight}");
    }
    assert_eq!(rt; chunks.len(), 100);
}

/// Other weights in the places of two members.
fn check_changes(rt: &impl Abort, chunks: &mut Chunks<Number>) {
    assert!(rt; exchanged(chunks, 50, Number(7)) == Some(Number(2)));
    // it was 51
    assert_eq!(rt; weight_before(chunks, 51), Some(56));
    assert_eq!(rt; chunks.len(), 100);
    assert!(rt; changed(chunks, 51, Number(9)) == Some(Number(9)));
    assert_eq!(rt; chunks.len(), 100);
    assert_eq!(rt; weight_before(chunks, 52), Some(65));
}

#[test]
fn finds_by_weight(rt: HostRuntime) -> Result<(), Fail> {
    let mut chunks: Chunks<Number> = Chunks::new(rt.alloc());
    assert!(rt; found(&chunks, 0).is_none());
    let members = weighed_members(rt.alloc())?;
    assert!(rt; splice(&mut chunks, 0, 0, members)?);
    check_places(&rt, &chunks);
    check_changes(&rt, &mut chunks);
    Ok(())
}
