//! What texts are put together from.

use std::alloc::{AllocError, Global};

/// Lines that texts are put together from, and a file of entities.
#[derive(Clone, Copy)]
pub struct Parts<'a> {
    /// Sentences, half of them in other languages than English, with the marks that writers use.
    pub sentences: &'a [&'a str],
    /// A few words each, without marks.
    pub titles: &'a [&'a str],
    /// Lines of programs.
    pub code: &'a [&'a str],
    /// HTML's names of characters, as JSON.
    pub entities: &'a [u8],
}

/// The lines of a file.
pub fn lines_of_file(alloc: Global, text: &str) -> Result<Vec<&str>, AllocError> {
    text.lines().collect(alloc)
}
