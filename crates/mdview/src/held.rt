//! What a preview holds of a text: its units with their HTML, and where its labels lead.

ghost use Rattle.std.specs.Prelude.{map};
ghost use Rattle.std.specs.List.{All};
ghost use Rattle.htmlspec.specs.Limits.{HasLimits};
ghost use Rattle.mdsource.specs.Preludes.{IsDefinedBy};
ghost use Rattle.mdview.specs.HeldUnit.{unit_in};
ghost use Rattle.mdview.specs.LabelTargets.{Leads, target_held};
ghost use Rattle.mdview.specs.ReadUnits.{IsShallow};

pub(crate) mod label_marks;
pub(crate) mod labels;
pub(crate) mod marked_units;
pub(crate) mod pieces;
pub(crate) mod unit_insets;
pub(crate) mod units;

use crate::held::labels::HeldLabels;
use crate::held::units::HeldUnit;
use mdchunks::Chunks;
use mdhtml::Options;
use mdsource::Prelude;
use mdtext::Entities;
use std::alloc::Global;

/// Members that are put among others are asked to have room for 64 more (`Chunks::reserve_splice`), and one may be added before: a list that has this much
/// room from the beginning need not grow.
pub(crate) const SPLICE_ROOM: usize = 65;

/// What an edit finds held.
#[derive(Clone, Copy)]
pub(crate) struct HeldText<'a> {
    pub(crate) alloc: Global,
    pub(crate) entities: &'a Entities,
    pub(crate) options: &'a Options,
    /// How many lines stand before the first unit.
    pub(crate) head: usize,
    pub(crate) units: &'a Chunks<HeldUnit>,
    pub(crate) prelude: &'a Prelude,
    pub(crate) labels: &'a HeldLabels,
    ghost limits: { HasLimits options.now },
    ghost led: { Leads labels.now (map unit_in units.now.items) prelude.now },
    ghost defined: { IsDefinedBy entities.now prelude.now },
    ghost shallow: { All (IsShallow options.now.max_spans entities.now (target_held labels.now)) units.now.items },
}
