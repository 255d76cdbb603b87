//! What C is shown: what a change did to the pieces, and texts.

/// Which pieces a change replaced: `removed` pieces at `first` gave way to `added` new ones, and those whose numbers lie at `again` were made again.
#[repr(C)]
#[derive(Clone, Copy, Drop)]
pub struct Changes {
    /// The number of the first piece that gave way, from 0.
    pub first: usize,
    /// How many pieces went from there on.
    pub removed: usize,
    /// How many came in their place.
    pub added: usize,
    /// Where the numbers of the pieces lie that were made again.
    pub again: *const usize,
    /// How many were made again.
    pub again_len: usize,
}

/// A text that lies in a preview's memory: `len` bytes, and a NUL behind them.
#[repr(C)]
#[derive(Clone, Copy, Drop)]
pub struct Text {
    /// Where the bytes lie.
    pub at: *const u8,
    /// How many there are, without the NUL.
    pub len: usize,
}
