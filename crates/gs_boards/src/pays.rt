//! What the deals of an end pay.

ghost use Rattle.std.specs.Prelude.{◌≡◌, ◌<◌, ◌≤◌, ◌^◌, unsigned_abs};
ghost use Rattle.gs_boards.specs.Runs.{lost_by, won_by, worth_of};

use crate::place::Place;
use crate::running::Running;

/// What a player wins in a deal of an end, in chips.
#[derive(Clone, Copy)]
pub enum Pays {
    /// The same in each deal, as at a fold.
    Fixed(i32),
    /// These chips times the player's outcome, as at a showdown.
    Showdown(u16),
}

impl Pays {
    // Returns what a place counts for the places before it, from its number: at a showdown the number times what the place wins.
    pub(crate) fn worth(self, place: Place, number: u64) -> u128
        ensures value { result ≡ worth_of self place number }
        ensures small { result < 2 ^ 72 }
    {
        match self {
            Pays::Fixed(_) => u128::from(number),
            Pays::Showdown(_) => u128::from(number) * u128::from(place.win),
        }
    }

    // Returns what a place is paid by what was passed before it. At a showdown it wins against the weaker places.
    pub(crate) fn won(self, place: Place, before: Running) -> i128
        requires few { before.on_board < 2 ^ 82 }
        requires within { before.off_level ≤ before.on_board }
        ensures value { result ≡ won_by self place before }
        ensures small { unsigned_abs result < 2 ^ 120 }
    {
        match self {
            Pays::Fixed(stake) => i128::from(stake) * before.on_board as i128,
            Pays::Showdown(chips) => {
                (u128::from(chips) * u128::from(place.win) * before.off_level) as i128
            }
        }
    }

    // Returns what a place is paid by what was passed behind it. At a showdown it loses to the stronger places.
    pub(crate) fn lost(self, behind: Running) -> i128
        requires few { behind.on_board < 2 ^ 90 }
        requires within { behind.off_level ≤ behind.on_board }
        ensures value { result ≡ lost_by self behind }
        ensures small { unsigned_abs result < 2 ^ 122 }
    {
        match self {
            Pays::Fixed(stake) => i128::from(stake) * behind.on_board as i128,
            Pays::Showdown(chips) => -((u128::from(chips) * behind.off_level) as i128),
        }
    }
}
