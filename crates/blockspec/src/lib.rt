//! What the blocks of a list of lines are (CommonMark 3 to 5; GFM Tables (extension), Task list items (extension)), and a document's lists item by item: where
//! a list may be parted, and what has to be known of its items so that the parts make one list again. The definitions are in `specs/`. And their laws: what
//! holds of these definitions, whatever reads a text. Each law is the contract of a function with an empty body.
#![tactic(auto)]

mod items;
mod laws;

pub use items::{
    equal_ends_give_equal_items, lines_before_tell_joins, lists_go_on, lists_keep_their_items,
    two_parts_are_one_list, units_go_on,
};
pub use laws::{
    beginnings_stay, equal_ends_give_equal_units, first_units_define, items_meet,
    lines_before_tell_beginnings, summaries_give_the_units, summaries_tell_the_first_too_deep,
    summary_goes_on,
};
