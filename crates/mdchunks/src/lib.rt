//! A sequence that is held in chunks, so that an edit in the middle of a long one moves the members of a chunk and no others.
//!
//! Contracts see a [`Chunks`] as the list of its members, and as room for more. What an edit needs is made beforehand by
//! [`Chunks::reserve_splice`]; [`Chunks::splice`] then takes no memory. Each chunk knows what its members weigh together, so the
//! weight in front of a member is told by adding the chunks' weights and then those inside one chunk. It knows all their marks too,
//! so those that may have a mark are found without a look at the others.
#![tactic(auto)]

mod chunk;
mod chunks;
mod iters;
mod moves;
mod packing;
mod places;
mod removals;
mod splices;
mod weights;

pub use chunks::Chunks;
pub use iters::Iter;
pub use weights::{Change, Weighed, WeightPlace};
