//! Block quotes (CommonMark 5.1).

ghost use Rattle.std.specs.Prelude.{◌≡◌, IsTrue};
ghost use Rattle.mdtext.specs.Columns.{AreMarks};
ghost use Rattle.blockspec.specs.BlockLine.{rest};
ghost use Rattle.blockspec.specs.BlockKinds.{Quote};
ghost use Rattle.blockspec.specs.ContainerLines.{matches, opened};

use crate::lines::Line;
use mdscan::quote_marker;

/// Whether a line has the marker of a block quote, which no lazy line has.
#[tactic(auto, using(crate::proofs::Markers::quote_mark), unfolding(blockspec::specs::ContainerLines::matches))]
pub(crate) fn matches(line: &Line) -> bool
    ensures value { result ≡ matches Quote line.now }
    ensures mark { IsTrue result → AreMarks 1 (rest line.now) }
{
    !line.is_lazy() && line.is_near_margin() && quote_marker(line.text())
}

/// Takes the marker off, and one column of space or tab after it.
#[tactic(auto, unfolding(blockspec::specs::ContainerLines::opened))]
pub(crate) fn take_marker(line: &mut Line)
    requires { AreMarks 1 (rest line.old) }
    ensures { line.new ≡ opened Quote line.old }
{
    line.take_mark(1);
    line.take_columns(1);
}
