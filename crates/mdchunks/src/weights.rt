//! What members weigh, and the marks by which they are looked for.

ghost use Rattle.std.specs.Prelude.{◌≡◌, ◌+◌, ℕ, length, string_bytes};
ghost use Rattle.mdchunks.specs.Lists.{weigh};
ghost use Rattle.mdchunks.specs.Marks.{AreMarksOf};

/// What has a weight, as the number of its lines, and marks: bits of what it is looked for by.
pub trait Weighed {
    ghost weight: { Self → ℕ };

    ghost marks: { Self → ℕ };

    /// How much it weighs: any number, as of bytes or lines. Sums of weights stop at the greatest number.
    fn weight(&self) -> usize
        ensures { result ≡ weight self.now };

    /// Its marks, a bit each. A list of members has those of all of them.
    fn marks(&self) -> u64
        ensures { result ≡ marks self.now };
}

/// A line weighs its bytes, with one for its end. It has no marks.
impl Weighed for String {
    ghost weight = { λ line. length (string_bytes line) + 1 };

    ghost marks = { λ _. 0 };

    fn weight(&self) -> usize {
        self.len() + 1
    }

    fn marks(&self) -> u64 {
        0
    }
}

/// A change of one member.
pub trait Change<T> {
    ghost can_change: { Self → T → Type 0 };

    ghost changed: { Self → T → T };

    /// Changes a member for which the change can be made.
    fn change(self, member: &mut T)
        requires { can_change self member.old }
        ensures { member.new ≡ changed self member.old };
}

/// A member by its number, and the weight in front of it.
#[derive(Clone, Copy)]
pub struct WeightPlace {
    /// The number of the member, from 0.
    pub member: usize,
    /// The sum of the weights of all members before it, up to the greatest number.
    pub front: usize,
}

/// The sum of all weights, up to the greatest number.
#[tactic(auto, using(crate::proofs::WeightSums::weigh_more))]
pub(crate) fn sum_weights<T: Weighed>(items: &[T]) -> usize
    ensures { result ≡ weigh T.weight items.now }
{
    let mut sum: usize = 0;
    for item in items {
        sum = sum.saturating_add(item.weight());
    }
    sum
}

/// The marks of all.
#[tactic(auto, using(crate::proofs::MarkSums::marks_more, crate::proofs::MarkSums::marks_none))]
pub(crate) fn all_marks<T: Weighed>(items: &[T]) -> u64
    ensures { AreMarksOf T.marks items.now result }
{
    let mut all: u64 = 0;
    for item in items {
        all = all | item.marks();
    }
    all
}
