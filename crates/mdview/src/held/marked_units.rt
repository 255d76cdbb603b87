//! The units that may name a label: the others are passed by their marks, whole chunks at once where none in a chunk has one.

ghost use Rattle.std.specs.Prelude.{◌≡◌, ◌≤◌, ◌<◌, ◌+◌, ◌^◌, drop, get_or, length, sum_by};
ghost use Rattle.std.specs.List.{All};
ghost use Rattle.mdchunks.specs.Marks.{IsApart, IsMarked};
ghost use Rattle.mdview.specs.HeldBlocks.{lines_in};
ghost use Rattle.mdview.specs.HeldTexts.{between};
ghost use Rattle.mdview.specs.HeldUnit.{HeldUnit};
ghost use Rattle.mdview.specs.LabelMarks.{held_marks};

use crate::held::units::HeldUnit;
use mdchunks::{Chunks, Iter};

/// The number of the next unit, from number `first` on, that may have one of these marks; `next` where all up to there have none.
pub(crate) fn next_marked<'a>(
    units: &'a Chunks<HeldUnit>,
    rest: &mut Iter<'a, HeldUnit>,
    first: usize,
    next: usize,
    marks: u64,
) -> usize
    requires order { first ≤ next }
    requires within { next ≤ length units.now.items }
    requires ahead { rest.old ≡ drop first units.now.items }
    ensures low { first ≤ result }
    ensures high { result ≤ next }
    ensures ahead { result < next → rest.new ≡ drop result units.now.items }
    ensures apart { All (IsApart held_marks marks) (between first result units.now.items) }
    ensures marked { (d : HeldUnit) → result < next → IsMarked held_marks marks (get_or units.now.items result d) }
{
    let skipped = rest.skip_apart(marks);
    if skipped < next - first {
        first + skipped
    } else {
        next
    }
}

/// The line in which the unit of number `unit` begins, where that of number `first` begins in line `begin`.
pub(crate) fn line_from(units: &Chunks<HeldUnit>, first: usize, begin: usize, unit: usize) -> usize
    requires order { first ≤ unit }
    requires within { unit ≤ length units.now.items }
    requires near { begin + sum_by lines_in (between first unit units.now.items) < 2 ^ 64 }
    ensures { result ≡ begin + sum_by lines_in (between first unit units.now.items) }
{
    begin.saturating_add(units.weight_between(first, unit - first))
}
