//! The HTML of a whole text at once, with no preview held.
#![tactic(auto)]

mod at_once;
mod batch;
mod clean_text;
mod gathered;
mod guesses;
mod labels;
mod limits;
mod page_labels;
mod units;

pub use batch::to_html;
pub use mdhtml::{Breaks, Options};
pub use mdsource::{EditFault, Prelude};
pub use mdtext::{Entities, TableFault};
