//! A whole text, and what it is read with.

ghost use Rattle.std.specs.Prelude.{◌≡◌, ◌≤◌, length};
ghost use Rattle.mdtext.specs.Lines.{split_lines};
ghost use Rattle.htmlspec.specs.Limits.{HasLimits};
ghost use Rattle.mdsource.specs.SourceLimits.{size_of};

use mdhtml::Options;
use mdtext::Entities;
use std::alloc::Global;

/// A text within the limits in which no U+0000 stands, and what it is read and written with.
#[derive(Clone, Copy)]
pub(crate) struct CleanText<'a> {
    pub(crate) alloc: Global,
    pub(crate) text: &'a str,
    pub(crate) entities: &'a Entities,
    pub(crate) options: &'a Options,
    ghost limits: { HasLimits options.now },
    ghost few: { length (split_lines text.now) ≤ 1000000 },
    ghost small: { size_of (split_lines text.now) ≤ 16777216 },
}

impl<'a> CleanText<'a> {
    /// The text where it is taken apart: of what a method answers it is known that it is UTF-8, of a field it is not.
    pub(crate) fn as_str(&self) -> &'a str
        ensures { result.now ≡ self.now.text.now }
    {
        self.text
    }
}
