//! What the lines of one paragraph give: the link reference definitions at their front, the rows of a table, the
//! marker of a task list item.
#![tactic(auto)]

mod paragraph_definitions;
mod paragraph_tasks;
mod span_texts;
mod tables;

pub use paragraph_definitions::{Definition, Leading, is_only_definitions, leading_definitions};
pub use paragraph_tasks::task_mark;
pub use tables::{Header, begins_table, data_row, table_header};
