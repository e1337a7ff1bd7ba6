//! Why weights do not form a plan.

/// Why a total and weights do not form a plan of a player.
#[derive(Clone, Copy, Debug)]
pub enum PlanFault {
    /// The number of weights is not `want`, the number of the player's slots.
    Length { want: u64 },
    /// The total is 0 or over 2^36.
    Total,
    /// The first place, by point and class, where the weights of the moves do not add up to the weight that comes there.
    Flow { point: u32, class: u32 },
}
