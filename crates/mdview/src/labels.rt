//! Where the labels of a text lead after an edit or a new prelude.

pub(crate) mod changes;
mod touched;
