//! Delimiter runs of `*`, `_` and `~`, and their pairing: which of them open and close emphasis, strong emphasis and strikethrough together.
//!
//! A delimiter run is read by [`delimiter_run`], from the characters beside it (CommonMark 6.2, left-flanking and right-flanking). What the runs of
//! one text take of each other is [`pair`]'s answer (CommonMark 6.2, rules 9 to 17; of tildes GFM Strikethrough (extension)): again and again the leftmost
//! closer that has an admissible opener takes the nearest one. Nothing is known here of the text between the runs.
#![tactic(auto)]

mod delimiter_runs;
mod emphasis;
mod flanking;
mod searches;

pub use delimiter_runs::{DelimiterChar, DelimiterRun};
pub use emphasis::{Match, Pairing, pair};
pub use flanking::delimiter_run;
