//! The pieces that a patch brings.

ghost use Rattle.std.specs.Prelude.{◌≡◌, ◌==◌, ◌≤◌, ◌<◌, ◌+◌, ◌&&◌, ℕ, length, nat_lt, not, true, false};
ghost use Rattle.std.specs.Iterator.{YieldsFirstBy, item_count};
ghost use Rattle.std.specs.List.{list_any};
ghost use Rattle.std.specs.List.Sorted.{IsNonDecreasing};
ghost use Rattle.mdsource.specs.Patch.{brings};
ghost use Rattle.mdview.specs.BroughtPieces.{changed, changed_pieces};

use crate::pieces::Pieces;
use std::marker::Model;

/// The pieces that a patch brings, each with its number, lent in order.
#[derive(Drop)]
pub struct PatchPieces<'a> {
    first: usize,
    added: usize,
    /// The numbers of the pieces that were made again, in rising order.
    again: Vec<usize>,
    /// The number of the first piece of `rest`.
    number: usize,
    /// How many pieces there are.
    count: usize,
    rest: Pieces<'a>,
}

impl<'a> Model for PatchPieces<'a> {
    ghost use Rattle.std.specs.Prelude.{◌≡◌, ◌+◌, ℕ, List, length};
    ghost use Rattle.std.specs.List.Sorted.{IsNonDecreasing};
    ghost use Rattle.mdview.specs.BroughtPieces.{changed_pieces};

    ghost Value = { List (ℕ × List ℕ) };

    ghost view = { λ p. changed_pieces p.first p.added p.again.items p.number p.rest };

    ghost invariant = { λ p. IsNonDecreasing p.again.items × (p.number + length p.rest ≡ p.count) };
}

impl<'a> PatchPieces<'a> {
    /// Of these pieces, the `added` ones from number `first` on and those of the numbers `again`.
    pub(crate) fn new(
        first: usize,
        added: usize,
        mut again: Vec<usize>,
        pieces: Pieces<'a>,
        count: usize,
    ) -> PatchPieces<'a>
        requires { length pieces ≡ count }
        ensures { result ≡ changed_pieces first added again.items 0 pieces.entry }
    {
        again.sort_unstable();
        PatchPieces {
            first,
            added,
            again,
            number: 0,
            count,
            rest: pieces,
        }
    }
}

impl<'a> Iterator for PatchPieces<'a> {
    type Item = (usize, &'a str);

    ghost next_gives = { YieldsFirstBy (λ item. (item.0, item.1.now)) (λ rest. rest) };

    ghost remaining = { item_count (λ rest. rest) };

    fn next(&mut self) -> Option<(usize, &'a str)> {
        let number = next_brought(self.first, self.added, &self.again, self.number, self.count);
        self.rest.pass(number - self.number);
        self.number = number;
        match self.rest.next() {
            Some(piece) => {
                self.number = number + 1;
                Some((number, piece))
            }
            None => None,
        }
    }
}

/// Whether the number is one of the `added` ones from `first` on.
pub(crate) fn is_within(first: usize, added: usize, number: usize) -> bool
    ensures { result ≡ (not (nat_lt number first) && nat_lt number (first + added)) }
{
    number >= first && number - first < added
}

/// The least number from `from` on of a piece that the patch brings; `end` where none below it is.
fn next_brought(first: usize, added: usize, again: &[usize], from: usize, end: usize) -> usize
    requires rising { IsNonDecreasing again.now }
    requires within { from ≤ end }
    ensures low { from ≤ result }
    ensures high { result ≤ end }
    ensures before { (k : ℕ) → from ≤ k → k < result → brings (changed first added again.now) k ≡ false }
    ensures there { result < end → brings (changed first added again.now) result ≡ true }
{
    let new = next_new(first, added, from, end);
    let listed = next_listed(again, from, end);
    new.min(listed).min(end)
}

/// The least number from `from` on that is one of the `added` ones from `first` on; no less than `end` where none below it is.
fn next_new(first: usize, added: usize, from: usize, end: usize) -> usize
    requires { from ≤ end }
    ensures low { from ≤ result }
    ensures before { (k : ℕ) → from ≤ k → k < result → k < end → (not (nat_lt k first) && nat_lt k (first + added)) ≡ false }
    ensures there { result < end → (not (nat_lt result first) && nat_lt result (first + added)) ≡ true }
{
    if added == 0 {
        end
    } else if from < first {
        first
    } else if from - first < added {
        from
    } else {
        end
    }
}

/// The least of these numbers from `from` on; no less than `end` where none is below it.
fn next_listed(numbers: &[usize], from: usize, end: usize) -> usize
    requires rising { IsNonDecreasing numbers.now }
    requires within { from ≤ end }
    ensures low { from ≤ result }
    ensures before { (k : ℕ) → from ≤ k → k < result → k < end → list_any (λ j. j == k) numbers.now ≡ false }
    ensures there { result < end → list_any (λ j. j == result) numbers.now ≡ true }
{
    let place = numbers.partition_point(|number| *number < from);
    match numbers.get(place) {
        Some(number) => *number,
        None => end,
    }
}
