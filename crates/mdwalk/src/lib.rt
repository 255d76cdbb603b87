//! A walk over the tree of a unit: each node as it is entered and as it is left.
#![tactic(auto)]

mod blocks;
mod inlines;
mod nodes;
mod tables;
mod walks;

pub use nodes::{Edge, Node};
pub use walks::Walk;
