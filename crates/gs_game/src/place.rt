//! Where a walk of betting trees stands.

ghost use Rattle.std.specs.Prelude.{◌≡◌, ◌<◌, ◌+◌, ◌^◌, ◌==◌, ℕ, option_map, if◌then◌else◌};
ghost use Rattle.gs_model.specs.Walk.{after_move, fold_end, show_end, walk_start};
ghost use Rattle.gs_game.specs.{Money.{one_after, two_after}, Seen.{end_of, step_of}, Walks.{place_of}};

use crate::positions::{End, EndKind, Step};

/// A place of a walk: the round, what both players have put, their last steps, and who moved last.
#[derive(Clone, Copy)]
pub struct Place {
    pub round: u8,
    pub put_one: u16,
    pub put_two: u16,
    pub one: Option<Step>,
    pub two: Option<Step>,
    pub last: u8,
}

impl Place {
    /// Returns the place before the first round: both players have put the ante.
    pub fn start(ante: u16) -> Place
        ensures { place_of result 0 0 ≡ walk_start ante }
    {
        Place {
            round: 0,
            put_one: ante,
            put_two: ante,
            one: None,
            two: None,
            last: 0,
        }
    }

    /// Returns this place in the next round.
    pub fn next_round(self) -> Place
        requires { self.round < 255 }
        ensures { result ≡ record self { round = self.round + 1 } }
    {
        Place {
            round: self.round + 1,
            ..self
        }
    }

    /// Returns a player's last step.
    pub fn own(self, player: u8) -> Option<Step>
        ensures { option_map step_of result ≡ (if player == 1 then option_map step_of self.one else option_map step_of self.two) }
    {
        if player == 1 { self.one } else { self.two }
    }

    /// Returns the place after a player's move, with the player's chips and new last step.
    pub fn after(self, player: u8, step: Step, chips: u16) -> Place
        requires one { one_after player chips self.put_one < 2 ^ 16 }
        requires two { two_after player chips self.put_two < 2 ^ 16 }
        ensures { (points ends : ℕ) → place_of result points ends ≡ after_move player step.point step.choice chips (place_of self points ends) }
    {
        if player == 1 {
            Place {
                put_one: self.put_one + chips,
                one: Some(step),
                last: 1,
                ..self
            }
        } else {
            Place {
                put_two: self.put_two + chips,
                two: Some(step),
                last: 2,
                ..self
            }
        }
    }

    /// Returns the end at a fold: the player who made the last move has folded.
    pub fn folded(self) -> End
        ensures { (points ends : ℕ) → end_of result ≡ fold_end (place_of self points ends) }
    {
        let (kind, put) = if self.last == 1 {
            (EndKind::Folded1, self.put_one)
        } else {
            (EndKind::Folded2, self.put_two)
        };
        End {
            round: self.round,
            kind,
            put,
            one: self.one,
            two: self.two,
        }
    }

    /// Returns the end at a showdown.
    pub fn shown(self) -> End
        ensures { (points ends : ℕ) → end_of result ≡ show_end (place_of self points ends) }
    {
        End {
            round: self.round,
            kind: EndKind::Show,
            put: self.put_one,
            one: self.one,
            two: self.two,
        }
    }
}
