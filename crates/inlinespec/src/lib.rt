//! What the inlines of a text are (CommonMark 6): definitions, in `specs/`, and lemmas over them, in `proofs/`; and their laws, what holds of every text,
//! whatever reads it. Each law is the contract of a function with an empty body, and no program calls it.
#![tactic(auto)]

mod labels;
mod readings;
mod trees;

pub use labels::bracketed_text_is_a_label;
pub use readings::{
    only_asked_labels_matter, spans_are_paired, spans_end, texts_are_joined, there_is_one_reading,
};
pub use trees::{
    a_tree_is_as_deep_as_spans_are_open, events_make_the_tree, open_spans_nest,
    parts_nest_no_deeper,
};
