//! Bottoms of the searches that found no opener (CommonMark, appendix, process emphasis: `openers_bottom`).

ghost use Rattle.std.specs.Prelude.{◌≡◌, ℕ, ◌<◌, ◌≤◌, All, List, IfOk, IfSome, length};
ghost use Rattle.mdpair.specs.declared.emphasis.Remaining.{Remaining};
ghost use Rattle.mdpair.specs.OpenersBottom.{IsBottom, IsBottomUpTo};

use crate::delimiter_runs::DelimiterRun;
use std::alloc::AllocError;

/// A place below which no run opens for closers of this one's kind.
#[derive(Clone, Copy, Drop)]
pub(crate) struct Bottom {
    pub place: usize,
    pub closer: DelimiterRun,
}

/// A bottom for a closer: that of its kind, or 0.
pub(crate) fn bottom_for(bottoms: &[Bottom], closer: &DelimiterRun) -> usize
    ensures { (k : ℕ) (passed : List Remaining) → All (IsBottomUpTo k passed) bottoms.now → IsBottom result closer.now passed }
{
    for bottom in bottoms {
        if bottom.closer.is_same_kind(closer) {
            return bottom.place;
        }
    }
    0
}

/// The first bottom for a closer's kind.
fn kind_at(bottoms: &[Bottom], closer: &DelimiterRun) -> Option<usize>
    ensures { IfSome result (λ i. i < length bottoms.now) }
{
    for i in 0..bottoms.len() {
        if bottoms[i].closer.is_same_kind(closer) {
            return Some(i);
        }
    }
    None
}

/// Keeps the place of a closer of which `left` characters found no opener. There are few kinds, so the list is short.
pub(crate) fn keep_bottom(
    bottoms: &mut Vec<Bottom>,
    left: usize,
    place: usize,
    closer: DelimiterRun,
) -> Result<(), AllocError>
    ensures { IfOk result (λ _. (k : ℕ) (passed : List Remaining) → (0 < left → (place ≤ k) × IsBottom place closer passed)
        → All (IsBottomUpTo k passed) bottoms.old.items → All (IsBottomUpTo k passed) bottoms.new.items) }
{
    if left == 0 {
        return Ok(());
    }
    let bottom = Bottom { place, closer };
    if let Some(i) = kind_at(bottoms.as_slice(), &closer) {
        bottoms[i] = bottom;
        return Ok(());
    }
    bottoms.push(bottom)?;
    Ok(())
}
