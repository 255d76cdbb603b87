//! The engines of the programs, over any source and sink of bytes: a script of line edits in, the pieces of HTML that
//! changed out.
#![tactic(auto)]

mod built_in_entities;
mod command;
mod converting;
mod counting;
mod device;
mod draining;
mod endings;
mod entity_tables;
mod explaining;
mod fault;
mod halt;
mod header;
mod io_devices;
mod joined_lines;
mod laws;
mod line_breaks;
mod memory_devices;
mod preludes;
mod programs;
mod replier;
mod replies;
mod script;
mod serving;
mod text_input;

pub use converting::convert;
pub use counting::serve_counts;
pub use device::{DeviceFault, Feed, Out};
pub use endings::ending;
pub use entity_tables::entities_from;
pub use explaining::{explained_ending, explanation};
pub use fault::{Stop, ToolFault};
pub use halt::{Cause, Halt, Source};
pub use htmlspec::{Breaks, Options};
pub use io_devices::{ReadFeed, WriteOut};
pub use laws::units_behind_move_alike;
pub use mdtext::TableFault;
pub use mdview::EditFault;
pub use mdwords::{ReplyForm, VERSION, WordFault, Words, read_words};
pub use memory_devices::{MemoryFeed, MemoryOut};
pub use preludes::prelude_from;
pub use programs::{
    ended, entities_of, opened, prelude_of, text_end, text_of, words_of, words_refused,
};
pub use serving::{serve, serve_to_the_end};
pub use text_input::TextInput;
