//! Rows of the block definitions that compute. Nothing depends on this crate.
#![tactic(auto)]
