//! Characters, columns, entities, labels and escapes: what every layer of the engine says of a text.
#![tactic(auto)]

pub use self::byte_class::{Class, first_special};
pub use self::character_references::{Reference, Referent, read_reference};
pub use self::characters::{is_punct, is_white};
pub use self::counters::{Count, Tally};
pub use self::cursor::Cursor;
pub use self::entity_file::TableFault;
pub use self::entity_table::Entities;
pub use self::html_escapes::escape_text;
pub use self::html_names::HTML_NAMES;
pub use self::labels::{Label, Target, fold_label};
pub use self::lines::{after_mark, clean_len, clean_line, is_clean, lines_of, split_line};
pub use self::unescapes::{push_reference, unescape};
pub use self::urls::escape_url;
use std::alloc::AllocError;

mod byte_class;
mod byte_lanes;
mod character_references;
mod characters;
mod counters;
mod cursor;
mod entity_file;
mod entity_reading;
mod entity_table;
mod html_escapes;
mod html_names;
mod labels;
mod lines;
mod member_texts;
mod named_texts;
mod plain_runs;
mod unescapes;
mod urls;

/// A growth was refused.
pub type NoMemory = AllocError;
