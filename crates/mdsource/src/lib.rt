//! What a text is that is handed in: its lines with their limits, and a prelude; and why an edit, a text or a prelude is refused. In `specs/` what a view of a
//! text is, and what an edit of it means: definitions over lists of lines. `laws` has what holds of these definitions, whatever holds a text.
#![tactic(auto)]

mod added_lines;
mod clean;
mod defining;
mod fault;
mod laws;
mod lent_lines;
mod limits;
mod preludes;
mod reading_faults;

pub use added_lines::AddedLines;
pub use fault::EditFault;
pub use laws::edits::{edits_splice, stretches_tell_the_first_too_deep};
pub use laws::joined_depths::{parts_tell_the_first_too_deep, stops_tell_the_first_too_deep};
pub use laws::labels::{
    labels_are_those_of_three_parts, one_asking_is_the_other, too_deep_units_asked,
    unasked_texts_stay, unbracketed_texts_ask_for_none, undefined_labels_stay,
};
pub use laws::stops::{
    lists_meet_inside, readers_meet_the_near_line, readers_tell_joins,
    reading_stops_in_the_last_list, reading_stops_where_lists_go_on, stops_are_no_later,
    stretches_are_handed_and_one_more, units_are_handed_and_one_more,
};
pub use laws::stretches::{
    readers_tell_beginnings, reading_begins_above_the_edit, stretches_end_where_both_begin,
    units_between_are_counted, units_tile,
};
pub use laws::texts::{
    later_texts_are_read_where_they_asked, preludes_stop_nowhere, stops_read_no_more_texts,
    texts_up_to_the_meeting_line_are_read,
};
pub use laws::unit_items::{
    next_units_have_lines, own_lines_are_spliced, own_lines_give_the_unit, own_lines_stay,
    own_lines_tell_joins,
};
pub use lent_lines::Lines;
pub use limits::{MAX_LINES, MAX_SIZE};
pub use preludes::{Prelude, or_beside};
pub use reading_faults::{fault_in_line, fault_in_unit};
