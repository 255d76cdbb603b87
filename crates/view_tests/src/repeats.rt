//! Long texts of one part.

use std::alloc::{AllocError, Global};

/// So many of a part. They are put together a thousand at a time, as some texts are as long as a text may be.
pub(crate) fn repeated(alloc: Global, part: &str, count: usize) -> Result<String, AllocError> {
    let many = part.repeat(alloc, 1000)?;
    let mut text = many.repeat(alloc, count / 1000)?;
    text.push_str(&part.repeat(alloc, count % 1000)?)?;
    Ok(text)
}
