//! Limits on the size of a game in sequence form.

/// Limits on the size of a game in sequence form.
#[derive(Clone, Copy)]
pub struct Limits {
    /// The most sequences that a player may have, with the empty one counted.
    pub sequences: u32,
    /// The most cells: over all ends, the pairs of classes of the end's round that meet in some deal, added up.
    pub cells: u64,
}
