//! The engine of a preview pane: a text that is edited by lines, and its HTML.
#![tactic(auto)]

mod blocks;
mod commit;
mod held;
mod inlines;
mod labels;
mod laws;
mod patch;
mod pieces;
mod preview;
mod source;
mod update;

pub use laws::{edits_leave_the_present_text, refused_calls_change_nothing};
pub use mdblock::{Align, Block, Definition, Item, ListKind, Unit};
pub use mdhtml::{Breaks, Options};
pub use mdinline::{Asked, Inline, Parsed};
pub use mdsource::{EditFault, Lines, Prelude};
pub use mdtext::{Count, Entities, Label, TableFault, Target};
pub use mdwalk::{Edge, Node, Walk};
pub use patch::Patch;
pub use pieces::Pieces;
pub use pieces::patch_pieces::PatchPieces;
pub use preview::Preview;
