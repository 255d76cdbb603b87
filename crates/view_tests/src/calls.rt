//! The calls of a preview as tests make them. What they promise stays here: a test looks at the answers, so its own proof is short.

use mdtext::{Entities, Tally};
use mdview::{EditFault, Options, Patch, Preview};
use std::alloc::Global;
use std::test::Fail;

/// A preview of no lines.
pub(crate) fn empty(alloc: Global) -> Result<Preview, Fail> {
    Ok(Preview::new(alloc, Entities::builtin(alloc)?, Options::plain()))
}

/// A preview of these lines.
pub(crate) fn preview_of(alloc: Global, lines: &[&str]) -> Result<Preview, Fail> {
    let mut preview = empty(alloc)?;
    edit(&mut preview, 0, 0, lines, &mut Tally::new())?;
    Ok(preview)
}

pub(crate) fn edit(
    preview: &mut Preview,
    at: usize,
    del: usize,
    add: &[&str],
    count: &mut Tally,
) -> Result<Patch, EditFault> {
    preview.edit(at, del, add, count)
}

pub(crate) fn set_prelude(
    preview: &mut Preview,
    lines: &[&str],
    count: &mut Tally,
) -> Result<Patch, EditFault> {
    preview.set_prelude(lines, count)
}
