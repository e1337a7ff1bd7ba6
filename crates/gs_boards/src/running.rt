//! Sums that run along the places of the boards.

ghost use Rattle.std.specs.Prelude.{◌≡◌, ◌+◌, ◌-◌, ◌<◌, ◌≤◌, ◌^◌};
ghost use Rattle.gs_boards.specs.Runs.{arrived, passed_by};

use crate::place::Place;

/// The sums of a walk over the places: what it has passed on the board that it is on, and what of this has another strength than the one that it is at.
#[derive(Clone, Copy)]
pub(crate) struct Running {
    pub(crate) board: u32,
    pub(crate) strength: u32,
    pub(crate) on_board: u128,
    pub(crate) off_level: u128,
}

impl Running {
    // Returns the sums at the start of a walk: nothing is passed.
    pub(crate) fn new() -> Running
        ensures { result ≡ record { board = 0; strength = 0; on_board = 0; off_level = 0 } }
    {
        Running {
            board: 0,
            strength: 0,
            on_board: 0,
            off_level: 0,
        }
    }

    // Returns the sums when the walk comes to a place: a new board begins with 0, and at a new strength all that was passed on the board has another one.
    pub(crate) fn at(self, place: Place) -> Running
        ensures { result ≡ arrived self place }
    {
        if place.board != self.board {
            return Running {
                board: place.board,
                strength: place.strength,
                on_board: 0,
                off_level: 0,
            };
        }
        if place.strength != self.strength {
            return Running {
                strength: place.strength,
                off_level: self.on_board,
                ..self
            };
        }
        self
    }

    // Returns the sums when the walk has passed the place that it is at.
    pub(crate) fn past(self, worth: u128) -> Running
        requires { self.on_board + worth < 2 ^ 128 }
        ensures { result ≡ passed_by self worth }
    {
        Running {
            on_board: self.on_board + worth,
            ..self
        }
    }
}
