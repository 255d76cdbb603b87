//! Recognisers of Markdown's constructs, on the rest of a line or on a text from a place on.
//!
//! Each answers where a front of the grammar stands, and with which parts. None but `cells` takes memory.
//! Positions are bytes, counted from 0. The rest of a line is handed in without its indentation and its end.
#![tactic(auto)]

mod atx_headings;
mod autolinks;
mod backslash_escapes;
mod block_quotes;
mod byte_runs;
mod code_fences;
mod delimiter_rows;
mod html_blocks;
mod link_definitions;
mod link_destinations;
mod link_labels;
mod link_tails;
mod link_titles;
mod list_markers;
mod raw_html;
mod setext_headings;
mod spacing;
mod spans;
mod table_rows;
mod tags;
mod task_list_items;
mod thematic_breaks;

pub use atx_headings::{AtxLine, atx};
pub use autolinks::{Auto, autolink};
pub use block_quotes::quote_marker;
pub use code_fences::{FenceLine, fence, fence_end};
pub use delimiter_rows::{Align, align_at, align_by_colons, delimiter_row};
pub use html_blocks::{html_end, html_start};
pub use link_definitions::{Def, definition};
pub use link_destinations::{Dest, destination};
pub use link_labels::link_label;
pub use link_tails::{Tail, inline_tail};
pub use link_titles::title;
pub use list_markers::{Marker, list_marker};
pub use raw_html::{find_from, html_tag, none_later};
pub use setext_headings::setext;
pub use spans::Span;
pub use table_rows::{cell_count, cells};
pub use task_list_items::{TaskMark, task};
pub use thematic_breaks::thematic;
