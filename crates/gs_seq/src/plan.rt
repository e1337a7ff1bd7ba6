//! Plans: realization plans over classes.

/// A plan of a player over classes, in whole numbers. In the literature: a realization plan.
///
/// The weights stand in slot order: the player's points in order, for each point the classes of its round, for each class the moves.
/// The weights of the moves at a point and a class add up to the weight of the player's previous move, at the class above.
/// The class above is the one from which this class descends. If the player made no move before, the weights add up to the total.
#[derive(Drop)]
pub struct Plan {
    pub player: u8,
    pub total: u64,
    pub weights: Vec<u64>,
}
