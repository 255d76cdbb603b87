//! What the HTML of a tree is, as the two standards' examples write it, and the options that it goes by: definitions, in `specs/`; and a law of them, the
//! contract of a function with an empty body.
#![tactic(auto)]

mod laws;
mod options;

pub use laws::events_are_written_as_their_tree;
pub use options::{Breaks, Options};
