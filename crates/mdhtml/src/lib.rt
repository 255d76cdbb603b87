//! The HTML of a unit: blocks and inlines written as the two standards' examples write them.
#![tactic(auto)]

mod block_quotes;
mod blocks;
mod code_blocks;
mod code_spans;
mod destinations;
mod emphasis;
mod headings;
mod html_blocks;
mod images;
mod inline_writer;
mod inlines;
mod line_breaks;
mod links;
mod lists;
mod paragraphs;
mod pieces;
mod raw_html;
mod tables;
mod thematic_breaks;
mod unit_texts;
mod unit_writer;

pub use htmlspec::{Breaks, Options};
pub use lists::inset_lists::{append_inset_anew, append_inset_list};
pub use lists::item_ends::append_unit_ends;
pub use lists::like_lists::{Like, append_unit_like};
pub use pieces::{append_unit_html, unit_html};
pub use unit_writer::UnitWriter;
