//! The pairing of the delimiter runs of a text (CommonMark, appendix, process emphasis).

ghost use Rattle.std.specs.Prelude.{◌≡◌, ℕ, ◌+◌, ◌-◌, ◌<◌, ◌≤◌, All, true, Some, None, List, [], ◌∷◌, ◌++◌, IfOk, OnOk, MatchOption, length, take, slice_index_or, vec_capacity};
ghost use Rattle.std.specs.List.{AllByRecursion};
ghost use Rattle.mdpair.specs.declared.emphasis.Remaining.{Remaining as Left};
ghost use Rattle.mdpair.specs.DelimiterRun.{is_admissible};
ghost use Rattle.mdpair.specs.declared.delimiter_runs.DelimiterRun.{DelimiterRun};
ghost use Rattle.mdpair.specs.OpenersBottom.{IsBottom, IsBottomUpTo, Descends};
ghost use Rattle.mdpair.specs.Matches.{nearest, onto, stack, width_of, left_of, Rewrites, IsClear, IsLeft, IsOrdered, IsBelow, IsProcessed, matches};

use crate::delimiter_runs::{DelimiterChar, DelimiterRun};
use crate::searches::{Bottom, bottom_for, keep_bottom};
use std::alloc::{AllocError, Global};

/// An opener and a closer, by their places in the list of runs, and how many characters are taken of each.
///
/// Of asterisks and underscores one makes emphasis and two make strong emphasis; a run of tildes is taken whole and makes a strikethrough.
#[derive(Clone, Copy, Debug, Drop)]
pub struct Match {
    /// The place of the opener in the list of runs, from 0.
    pub opener: usize,
    /// The place of the closer, behind the opener's.
    pub closer: usize,
    /// How many characters are taken of each.
    pub width: usize,
}

/// What is left of the run at a place of the list.
#[derive(Clone, Copy, Drop)]
pub(crate) struct Remaining {
    place: usize,
    left: usize,
    run: DelimiterRun,
}

/// Which runs belong together, in the order in which they are taken.
///
/// Again and again the leftmost closer that has an admissible opener takes the nearest such opener; the runs between the two are then text, and
/// so is what is left of runs in the end. `runs` are all runs of one text, in its order; the inside of a link is a text of its own. Refused for want of memory alone.
pub fn pair(alloc: Global, runs: &[DelimiterRun]) -> Result<Vec<Match>, AllocError>
    ensures value { IfOk result (λ ts. ts.items ≡ matches runs.now) }
    ensures processed { IfOk result (λ ts. IsProcessed runs.now ts.items) }
    ensures ordered { IfOk result (λ ts. All (IsOrdered (length runs.now)) ts.items) }
{
    let mut matches = Vec::new(alloc);
    let mut passed = Vec::new(alloc);
    let mut bottoms = Vec::new(alloc);
    pair_into(&mut passed, &mut matches, &mut bottoms, runs)?;
    Ok(matches)
}

/// The room that a list of a [`Pairing`] may keep from one text to the next.
const KEPT: usize = 64;

/// Pairs the runs of one text after the other, and keeps from one to the next the room that small texts take.
#[derive(Drop)]
pub struct Pairing {
    matches: Vec<Match>,
    passed: Vec<Remaining>,
    bottoms: Vec<Bottom>,
}

impl Pairing {
    ghost use Rattle.mdpair.specs.Pairings.{KeepsLittle, matches_of, room_of};

    /// No matches. Takes no memory.
    pub fn new(alloc: Global) -> Pairing
        ensures { matches_of result ≡ [] }
    {
        Pairing {
            matches: Vec::new(alloc),
            passed: Vec::new(alloc),
            bottoms: Vec::new(alloc),
        }
    }

    /// Pairs these runs, as [`pair`] does. Their matches are those of the value until the next call. Refused for want of memory alone; the matches are of no use then.
    pub fn pair(&mut self, runs: &[DelimiterRun]) -> Result<(), AllocError>
        ensures value { OnOk result (matches_of self.new ≡ matches runs.now) }
        ensures ordered { OnOk result (All (IsOrdered (length runs.now)) (matches_of self.new)) }
        ensures little { KeepsLittle self.new }
    {
        self.matches.clear();
        self.passed.clear();
        self.bottoms.clear();
        let paired = pair_into(&mut self.passed, &mut self.matches, &mut self.bottoms, runs);
        let_go(&mut self.passed);
        let_go(&mut self.bottoms);
        if paired.is_err() {
            let_go(&mut self.matches);
        }
        paired
    }

    /// The matches of the runs that were paired last. Takes no memory.
    pub fn matches(&self) -> &[Match]
        ensures { result.now ≡ matches_of self.now }
    {
        &self.matches
    }

    /// Gives back the room of a large text's matches, which are lost by it. Takes no memory.
    pub fn let_go(&mut self)
        ensures room { room_of self.new ≤ 64 }
        ensures little { KeepsLittle self.old → KeepsLittle self.new }
    {
        let_go(&mut self.matches);
    }
}

/// Where a list has more room than is kept, it is cleared and its room given back.
fn let_go<T: Drop>(list: &mut Vec<T>)
    ensures room { vec_capacity list.new ≤ 64 }
    ensures small { vec_capacity list.old ≤ 64 → list.new ≡ list.old }
{
    if list.capacity() > KEPT {
        list.clear();
        list.shrink_to_fit();
    }
}

/// Pairs these runs, with nothing in the lists before.
fn pair_into(
    passed: &mut Vec<Remaining>,
    found: &mut Vec<Match>,
    bottoms: &mut Vec<Bottom>,
    runs: &[DelimiterRun],
) -> Result<(), AllocError>
    requires passed { passed.old.items ≡ [] }
    requires found { found.old.items ≡ [] }
    requires bottoms { bottoms.old.items ≡ [] }
    ensures value { OnOk result (found.new.items ≡ matches runs.now) }
    ensures processed { OnOk result (IsProcessed runs.now found.new.items) }
    ensures ordered { OnOk result (All (IsOrdered (length runs.now)) found.new.items) }
{
    for (place, run) in runs.iter().enumerate() {
        pass(passed, found, bottoms, place, *run)?;
    }
    Ok(())
}

/// Takes what a run can close, and puts what is left of it on the stack.
#[tactic(auto, using(crate::proofs::Sweep::pushed_below, crate::proofs::Sweep::onto_left, crate::proofs::Widths::pushed_left))]
fn pass(
    passed: &mut Vec<Remaining>,
    matches: &mut Vec<Match>,
    bottoms: &mut Vec<Bottom>,
    place: usize,
    run: DelimiterRun,
) -> Result<(), AllocError>
    requires clear { IsClear (stack passed.old.items) }
    requires falls { Descends (stack passed.old.items) }
    requires bottoms { All (IsBottomUpTo place (stack passed.old.items)) bottoms.old.items }
    requires each { AllByRecursion IsLeft (stack passed.old.items) }
    requires low { AllByRecursion (IsBelow place) (stack passed.old.items) }
    ensures rewrites { IfOk result (λ _. (start rest : List Left)
        → Rewrites start matches.old.items (onto (stack passed.old.items) (left_of place run.length run ++ rest))
        → Rewrites start matches.new.items (onto (stack passed.new.items) rest)) }
    ensures clear { IfOk result (λ _. IsClear (stack passed.new.items)) }
    ensures each { IfOk result (λ _. AllByRecursion IsLeft (stack passed.new.items)) }
    ensures low { IfOk result (λ _. AllByRecursion (IsBelow (place + 1)) (stack passed.new.items)) }
    ensures ordered { IfOk result (λ _. (k : ℕ) → place < k → All (IsOrdered k) matches.old.items → All (IsOrdered k) matches.new.items) }
    ensures falls { IfOk result (λ _. Descends (stack passed.new.items)) }
    ensures bottoms { IfOk result (λ _. All (IsBottomUpTo (place + 1) (stack passed.new.items)) bottoms.new.items) }
{
    if !run.can_close || run.length == 0 {
        return push_left(passed, place, run.length, run);
    }
    let closer = Remaining {
        place,
        left: run.length,
        run,
    };
    let left = close(passed, matches, closer, bottom_for(bottoms, &run))?;
    keep_bottom(bottoms, left, place, run)?;
    push_left(passed, place, left, run)
}

/// Takes what the closer can take, and answers how many of its characters are left.
fn close(
    passed: &mut Vec<Remaining>,
    matches: &mut Vec<Match>,
    closer: Remaining,
    bottom: usize,
) -> Result<usize, AllocError>
    requires falls { Descends (stack passed.old.items) }
    requires bottom { IsBottom bottom closer.run (stack passed.old.items) }
    requires closes { closer.run.can_close ≡ true }
    requires left { IsLeft closer }
    requires clear { IsClear (stack passed.old.items) }
    requires each { AllByRecursion IsLeft (stack passed.old.items) }
    requires low { AllByRecursion (IsBelow closer.place) (stack passed.old.items) }
    ensures rewrites { IfOk result (λ left. (start rest : List Left) → Rewrites start matches.old.items (onto (stack passed.old.items) (closer ∷ rest))
        → Rewrites start matches.new.items (onto (stack passed.new.items) (left_of closer.place left closer.run ++ rest))) }
    ensures done { IfOk result (λ left. 0 < left → nearest closer.run (stack passed.new.items) ≡ None) }
    ensures left { IfOk result (λ left. closer.run.delimiter ≡ DelimiterChar.Tilde → 0 < left → left ≡ closer.run.length) }
    ensures clear { IfOk result (λ _. IsClear (stack passed.new.items)) }
    ensures each { IfOk result (λ _. AllByRecursion IsLeft (stack passed.new.items)) }
    ensures low { IfOk result (λ _. AllByRecursion (IsBelow closer.place) (stack passed.new.items)) }
    ensures ordered { IfOk result (λ _. (k : ℕ) → closer.place < k → All (IsOrdered k) matches.old.items → All (IsOrdered k) matches.new.items) }
    ensures falls { IfOk result (λ _. Descends (stack passed.new.items)) }
    ensures bottoms { IfOk result (λ _. (b : ℕ) (c : DelimiterRun) → IsBottom b c (stack passed.old.items) → IsBottom b c (stack passed.new.items)) }
{
    let mut left = closer.left;
    while left > 0 {
        let Some(at) = opener(passed.as_slice(), &closer.run, bottom) else {
            break;
        };
        let open = passed[at];
        let width = width(&open, &closer.run, left);
        matches.push(Match {
            opener: open.place,
            closer: closer.place,
            width,
        })?;
        passed.truncate(at);
        push_left(passed, open.place, open.left - width, open.run)?;
        left -= width;
    }
    Ok(left)
}

/// The place in the stack of the nearest admissible opener. Below the bottom there is none.
fn opener(passed: &[Remaining], closer: &DelimiterRun, bottom: usize) -> Option<usize>
    requires falls { Descends (stack passed.now) }
    requires bottom { IsBottom bottom closer.now (stack passed.now) }
    ensures { MatchOption result (nearest closer.now (stack passed.now) ≡ None)
        (λ i. (i < length passed.now)
        × ((d : Left) → nearest closer.now (stack passed.now) ≡ Some (slice_index_or passed.now i d, stack (take i passed.now)))) }
{
    for i in (0..passed.len()).rev() {
        if passed[i].place < bottom {
            return None;
        }
        if passed[i].run.may_open(closer) {
            return Some(i);
        }
    }
    None
}

/// How many characters an opener and a closer with `left` characters lose.
#[tactic(auto, using(crate::proofs::Widths::takes))]
fn width(opener: &Remaining, closer: &DelimiterRun, left: usize) -> usize
    requires fits { is_admissible opener.now.run closer.now ≡ true }
    requires opener { IsLeft opener.now }
    requires left { 0 < left }
    requires closer { closer.now.delimiter ≡ DelimiterChar.Tilde → left ≡ closer.now.length }
    ensures value { result ≡ width_of closer.now.delimiter closer.now.length opener.now.left left }
    ensures some { 0 < result }
    ensures opener { result ≤ opener.now.left }
    ensures closer { result ≤ left }
{
    match closer.delimiter {
        DelimiterChar::Tilde => closer.length,
        _ => { if opener.left > 1 && left > 1 { 2 } else { 1 } }
    }
}

#[tactic(auto, using(crate::proofs::Sweep::stack_push))]
fn push_left(
    passed: &mut Vec<Remaining>,
    place: usize,
    left: usize,
    run: DelimiterRun,
) -> Result<(), AllocError>
    ensures { IfOk result (λ _. stack passed.new.items ≡ left_of place left run ++ stack passed.old.items) }
{
    if left > 0 {
        passed.push(Remaining { place, left, run })?;
    }
    Ok(())
}
