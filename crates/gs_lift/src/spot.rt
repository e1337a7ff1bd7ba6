//! Spots: information sets of the raw game.

/// A point and a raw signal of its round: all that the player who chooses there knows, an information set of the raw game.
#[derive(Clone, Copy)]
pub struct Spot {
    pub point: u32,
    pub signal: u32,
}
