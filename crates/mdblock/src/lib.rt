//! The blocks of a document, cut into units: top-level blocks with their definitions and inline texts.
#![tactic(auto)]

mod block_starts;
mod blocks;
mod closed_blocks;
mod container;
mod copies;
mod faults;
mod fronting;
mod gathering;
mod item_readers;
mod leaf;
mod lines;
mod open_blocks;
mod readers;
mod seams;
mod splicing;
mod text_order;
mod units;

pub use blocks::{Block, Item, ListKind};
pub use faults::BlockFault;
pub use item_readers::ItemReader;
pub use mdleaf::Definition;
pub use mdscan::Align;
pub use readers::Reader;
pub use seams::{Seam, splice};
pub use units::insets::Inset;
pub use units::{Found, Join, Unit};
