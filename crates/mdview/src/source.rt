//! The lines that an edit would leave.

mod lines_ahead;
pub(crate) mod new_text;
