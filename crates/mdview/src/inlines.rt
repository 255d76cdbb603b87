//! What inline texts read as after an edit: each is read under the labels of the text that the edit leaves.

ghost use Rattle.std.specs.Prelude.{◌≡◌};
ghost use Rattle.htmlspec.specs.Limits.{HasLimits};
ghost use Rattle.mdtext.specs.Counted.{counted};
ghost use Rattle.mdview.specs.LabelTargets.{IsElsewhere};

mod alike_texts;
pub(crate) mod brought_units;
pub(crate) mod concerned_texts;
mod found_texts;
pub(crate) mod kept_texts;
pub(crate) mod spliced_lists;

use crate::labels::changes::LabelsAfter;
use crate::pieces::text_room::TextRoom;
use mdhtml::Options;
use mdinline::{InlineFault, Parsed};
use mdtext::Count;
use std::alloc::Global;

/// Reads inline texts under the labels of the text that an edit leaves, and writes HTML. Each text that is read is counted.
#[derive(Clone, Copy)]
pub(crate) struct UnitTextReader<'a> {
    pub(crate) alloc: Global,
    pub(crate) options: &'a Options,
    pub(crate) labels: &'a LabelsAfter<'a>,
    ghost limits: { HasLimits options.now },
    // The labels that change are those that lead elsewhere then.
    ghost elsewhere: { IsElsewhere labels.now.held.now labels.now.changes.now },
}

impl<'a> UnitTextReader<'a> {
    ghost use Rattle.mdview.specs.TextSetting.{Reads, Stays, texts_under};

    pub(crate) fn read_text<C: Count>(
        &self,
        text: &str,
        room: &mut TextRoom<'a>,
        count: &mut C,
    ) -> Result<Parsed, InlineFault>
        ensures reading { Reads (texts_under self.now room.old) text.now result }
        ensures stays { Stays room.old room.new (C.lines count.old) (C.lines count.new) }
        ensures inlines { C.inlines count.new ≡ counted (C.inlines count.old) }
    {
        room.reader
            .read(text, self.labels, self.options.max_spans, count)
    }
}
