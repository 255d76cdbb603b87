//! Where the labels of a text with a prelude lead.
ghost use Rattle.mdbatch.specs.TextLabels.{target_on_page};

use mdinline::{LabelTable, Labels};
use mdsource::Prelude;
use mdtext::{Label, Target};

/// The labels that a text defines, and below them those of its prelude (CommonMark 4.7).
#[derive(Clone, Copy)]
pub(crate) struct PageLabels<'a> {
    pub(crate) own: &'a LabelTable,
    pub(crate) prelude: &'a Prelude,
}

impl<'a> Labels for PageLabels<'a> {
    ghost target = { target_on_page };

    fn find(&self, label: &Label) -> Option<&Target> {
        match self.own.find(label) {
            Some(target) => Some(target),
            None => self.prelude.find(label),
        }
    }
}
