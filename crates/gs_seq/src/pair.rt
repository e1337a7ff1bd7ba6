//! Pairs of classes that meet in some deal.

/// A class of player 1 and a class of player 2 that meet in some deal. Player 1's class is known from where the pair stands.
#[derive(Clone, Copy)]
pub struct Pair {
    /// Player 2's class.
    pub two: u32,
    /// The weight of the deals with both classes, at most 2^26.
    pub weight: u32,
    /// In the last round the sum of weight times player 1's outcome over these deals; in earlier rounds 0.
    pub signed: i64,
}
