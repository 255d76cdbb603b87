//! The reading of blocks: where it begins, where it may stop, and what it finds.

pub(crate) mod held_places;
pub(crate) mod joined_lists;
pub(crate) mod reparse;
