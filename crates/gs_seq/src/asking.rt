//! What a game in sequence form answers of its points, ends, classes and signals.

ghost use Rattle.std.specs.Prelude.{◌≡◌, ◌<◌, ◌≤◌, ◌^◌};

use crate::flows::class_above;
use crate::form::Abstract;
use crate::slots::point_total;
use gs_game::{Target, ValidGame};

impl<'a> Abstract<'a> {
    ghost use Rattle.gs_game.specs.Seen.{target_of};
    ghost use Rattle.gs_model.specs.Classes.{IsClass, class_count, class_of, first_member};
    ghost use Rattle.gs_model.specs.Frame.{ancestor, end_count, last_round, leads_to, move_count, player_at, point_count, round_of, signal_count, total_weight};
    ghost use Rattle.gs_model.specs.Positions.{at_end, at_point};
    ghost use Rattle.gs_seq.specs.Abstracts.{abstract_frame, game_in, lists_of};

    /// Returns the game.
    pub fn game(&self) -> &'a ValidGame
        ensures { result.now ≡ game_in self.now }
    {
        self.lossless().signals().game()
    }

    /// Returns the number of rounds.
    pub fn round_total(&self) -> u8
        ensures value { result ≡ last_round (abstract_frame self.now) }
        ensures few { result ≤ 4 }
    {
        self.lossless().classes().rounds()
    }

    /// Returns the number of points.
    pub fn point_total(&self) -> u32
        ensures { result ≡ point_count (abstract_frame self.now) }
    {
        point_total(self.game())
    }

    /// Returns the round of a point.
    pub fn round_at(&self, point: u32) -> u8
        requires { point < point_count (abstract_frame self.now) }
        ensures value { result ≡ round_of (abstract_frame self.now) (at_point point) }
        ensures some { 0 < result }
        ensures top { result ≤ last_round (abstract_frame self.now) }
    {
        self.game().points()[point as usize].round
    }

    /// Returns the player who chooses at a point, 1 or 2.
    pub fn chooser(&self, point: u32) -> u8
        requires { point < point_count (abstract_frame self.now) }
        ensures { result ≡ player_at (abstract_frame self.now) point }
    {
        self.game().points()[point as usize].player
    }

    /// Returns the number of moves of a point.
    pub fn move_total(&self, point: u32) -> u8
        requires { point < point_count (abstract_frame self.now) }
        ensures value { result ≡ move_count (abstract_frame self.now) point }
        ensures some { 0 < result }
        ensures few { result ≤ 26 }
    {
        self.game().points()[point as usize].moves.len() as u8
    }

    /// Returns the point or end to which a move of a point leads.
    pub fn target_at(&self, point: u32, choice: u8) -> Target
        requires point { point < point_count (abstract_frame self.now) }
        requires choice { choice < move_count (abstract_frame self.now) point }
        ensures { target_of result ≡ leads_to (abstract_frame self.now) point choice }
    {
        self.game().points()[point as usize].moves[usize::from(choice)].to
    }

    /// Returns the round of an end.
    pub fn end_round(&self, end: u32) -> u8
        requires { end < end_count (abstract_frame self.now) }
        ensures value { result ≡ round_of (abstract_frame self.now) (at_end end) }
        ensures some { 0 < result }
        ensures top { result ≤ last_round (abstract_frame self.now) }
    {
        self.end_in(end).round
    }

    /// Returns the number of ends.
    pub fn end_total(&self) -> u32
        ensures { result ≡ end_count (abstract_frame self.now) }
    {
        self.game().ends().len() as u32
    }

    /// Returns the number of classes of a round.
    pub fn class_total(&self, round: u8) -> u32
        requires some { 0 < round }
        requires top { round ≤ last_round (abstract_frame self.now) }
        ensures value { result ≡ class_count (lists_of self.now) round }
        ensures few { result ≤ 200000 }
    {
        self.lossless().classes().classes(round)
    }

    /// Returns the class of a signal.
    pub fn class_at(&self, round: u8, signal: u32) -> u32
        requires some { 0 < round }
        requires top { round ≤ last_round (abstract_frame self.now) }
        requires within { signal < signal_count (abstract_frame self.now) round }
        ensures value { result ≡ class_of (lists_of self.now) round signal }
        ensures class { IsClass (lists_of self.now) round result }
    {
        self.lossless().classes().class_of(round, signal)
    }

    /// Returns the class of an earlier round from which a class descends; in its own round, the class itself.
    pub fn class_above(&self, from: u8, to: u8, class: u32) -> u32
        requires some { 0 < to }
        requires earlier { to ≤ from }
        requires top { from ≤ last_round (abstract_frame self.now) }
        requires class { IsClass (lists_of self.now) from class }
        ensures value { result ≡ class_of (lists_of self.now) to (ancestor (abstract_frame self.now) from to (first_member (lists_of self.now) from class)) }
        ensures class { IsClass (lists_of self.now) to result }
    {
        class_above(self.lossless().classes(), from, to, class)
    }

    /// Returns the first member of a class.
    pub fn first_of(&self, round: u8, class: u32) -> u32
        requires some { 0 < round }
        requires top { round ≤ last_round (abstract_frame self.now) }
        requires class { IsClass (lists_of self.now) round class }
        ensures value { result ≡ first_member (lists_of self.now) round class }
        ensures within { result < signal_count (abstract_frame self.now) round }
    {
        self.lossless().classes().first(round, class)
    }

    /// Returns the number of signals of a round.
    pub fn signal_total(&self, round: u8) -> u32
        requires some { 0 < round }
        requires top { round ≤ last_round (abstract_frame self.now) }
        ensures { result ≡ signal_count (abstract_frame self.now) round }
    {
        self.lossless().classes().signals(round)
    }

    /// Returns the point or end at which play starts.
    pub fn start_at(&self) -> Target
        ensures { target_of result ≡ (abstract_frame self.now).start }
    {
        self.game().start()
    }

    /// Returns the weight of all deals.
    pub fn deal_weight(&self) -> u64
        ensures value { result ≡ total_weight (abstract_frame self.now) }
        ensures some { 0 < result }
        ensures few { result ≤ 2 ^ 26 }
    {
        self.game().weight()
    }
}
