//! What a player holds from turn to turn.

ghost use Rattle.std.specs.Prelude.{IfOk};
ghost use Rattle.gs_play.specs.{Seats.{IsAtStart}, Sides.{side_frame, side_lists}};

use crate::answers::{Answer, first_answer};
use crate::pushing::begin;
use crate::role::Role;
use crate::tally::{Tally, tally_of};
use std::alloc::{AllocError, Global};

/// A player's plan so far with the answer that each turn adds to it, and the player's class totals against the other player's plan.
#[derive(Drop)]
pub(crate) struct Seat {
    pub(crate) answer: Answer,
    pub(crate) tally: Tally,
}

/// Returns what a player holds at the start, where both players take the first move everywhere.
pub(crate) fn seat_of(alloc: Global, side: &Role<'_>) -> Result<Seat, AllocError>
    ensures { IfOk result (IsAtStart (side_frame side.now) (side_lists side.now) side.now.player) }
{
    let other = side.form.first_plan(alloc, 3 - side.player)?;
    let answer = first_answer(alloc, side)?;
    let mut tally = tally_of(alloc, side.plot)?;
    begin(alloc, side, &mut tally, &other)?;
    Ok(Seat { answer, tally })
}
