//! The inlines of a text: its tree, the labels that were looked up for it, and where those lead.
#![tactic(auto)]

mod asked;
mod autolinks;
mod backslash_escapes;
mod bracket_stack;
mod character_references;
mod code_spans;
mod delimiters;
mod emphasis;
mod faults;
mod handing;
mod images;
mod inlines;
mod labels;
mod limits;
mod line_breaks;
mod links;
mod parsed;
mod pending;
mod raw_html;
mod readers;
mod reading;
mod rows;
mod scanner;
mod sinks;
mod stops;
mod strikethrough;
mod texts;
mod tokens;
mod trees;

pub use asked::{Asked, AsksLabels, Unasked};
pub use faults::InlineFault;
pub use inlines::Inline;
pub use labels::{LabelTable, Labels};
pub use parsed::Parsed;
pub use readers::TextReader;
pub use reading::read;
pub use sinks::{InlineSink, SpanKind};
