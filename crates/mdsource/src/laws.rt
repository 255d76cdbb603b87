//! The laws of the definitions of a text's view and of its edits: each is the contract of a function with an empty body, and no program calls it.

pub(crate) mod edits;
pub(crate) mod joined_depths;
pub(crate) mod labels;
pub(crate) mod stops;
pub(crate) mod stretches;
pub(crate) mod texts;
pub(crate) mod unit_items;
