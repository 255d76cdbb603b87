//! The reading of blocks, and the joining of lists.

pub(crate) mod calls;
mod joins;
mod readings;
mod shown;
mod units;
