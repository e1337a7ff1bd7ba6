//! Deals.

use std::marker::Model;

/// A deal: a last-round signal for each player. These two determine its weight and its outcome.
#[derive(Clone, Copy)]
pub struct Deal {
    /// Player 1's signal of the last round, by its place.
    pub one: u32,
    /// Player 2's signal of the last round, by its place.
    pub two: u32,
    /// The number of ways to draw it from the physical cards.
    pub weight: u64,
    /// Player 1's outcome: from 1 to 9 for a win, 0 at equal hands, from -9 to -1 for a loss.
    pub outcome: i8,
}

impl Model for Deal {
    ghost use Rattle.gs_model.specs.Deals.{Deal as Dealt};

    ghost Value = { Dealt };

    ghost view = { λ d. record { one = d.one; two = d.two; weight = d.weight; outcome = d.outcome } };

    ghost inverse = { λ d. record { one = d.one; two = d.two; weight = d.weight; outcome = d.outcome } };
}
