//! The words that the programs are started with, and what they say.
#![tactic(auto)]

mod commands;
mod numbers;
mod reply_forms;
mod tool_words;
mod word_faults;

pub use commands::VERSION;
pub use numbers::number;
pub use reply_forms::ReplyForm;
pub use tool_words::{Words, read_words};
pub use word_faults::WordFault;
