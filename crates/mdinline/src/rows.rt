//! The inlines of a text.

ghost use Rattle.std.specs.Prelude.{◌≡◌};
ghost use Rattle.mdinline.specs.TreeView.{inlines_view};
ghost use Rattle.mdinline.specs.held.HeldReadings.{row_view};

use crate::inlines::Inline;
use std::slice;

/// The inlines of a text from left to right. Most texts are one inline, which needs no list of its own.
#[derive(Drop)]
pub(crate) enum Row {
    Empty,
    One(Inline),
    Many(Vec<Inline>),
}

impl Row {
    pub(crate) fn inlines(&self) -> &[Inline]
        ensures { inlines_view result.now ≡ row_view self.now }
    {
        match self {
            Row::Empty => &[],
            Row::One(inline) => slice::from_ref(inline),
            Row::Many(inlines) => inlines,
        }
    }
}
