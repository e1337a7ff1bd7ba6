//! The numbers of plans at ends, and products and sums of signed numbers.

ghost use Rattle.std.specs.Prelude.{◌≡◌, ◌+◌, ◌-◌, ◌*◌, ◌<◌, ◌≤◌, ◌^◌, length, option_map, pos, slice_index, unsigned_abs, ◌+ℤ◌, ◌*ℤ◌};
ghost use Rattle.gs_game.specs.Seen.{step_of};
ghost use Rattle.gs_model.specs.{Classes.{ClassLists, IsClass}, Frame.{end_count, last_step, move_count, player_at, point_count, round_of}};
ghost use Rattle.gs_model.specs.{Pairs.{class_number}, Positions.{at_end, at_point}};
ghost use Rattle.gs_seq.specs.{Games.{frame_in}, Plans.{IsPlanOf, class_plan}, Slots.{AreOffsets}, Sources.{MatchSource}};

use crate::flows::{StepSource, weight_above};
use crate::plan::Plan;
use crate::slots::slots_between;
use gs_filter::Classes;
use gs_game::{Step, ValidGame};

/// Returns what the program keeps of a step.
fn source_from(game: &ValidGame, offsets: &[u32], step: Step) -> StepSource
    requires point { step.point < point_count (frame_in game.now) }
    requires long { length offsets.now ≡ point_count (frame_in game.now) }
    ensures round { result.round ≡ round_of (frame_in game.now) (at_point step.point) }
    ensures first { result.first ≡ slice_index offsets.now step.point }
    ensures moves { result.moves ≡ move_count (frame_in game.now) step.point }
    ensures choice { result.choice ≡ step.choice }
{
    let point = &game.points()[step.point as usize];
    StepSource {
        round: point.round,
        first: u64::from(offsets[step.point as usize]),
        moves: point.moves.len() as u64,
        choice: step.choice,
    }
}

/// Returns the last step before a point of the player who chooses there.
pub(crate) fn point_source(game: &ValidGame, offsets: &[u32], point: u32) -> Option<StepSource>
    requires point { point < point_count (frame_in game.now) }
    requires long { length offsets.now ≡ point_count (frame_in game.now) }
    ensures { (lists : ClassLists) → AreOffsets (frame_in game.now) lists offsets.now
        → MatchSource (frame_in game.now) lists (player_at (frame_in game.now) point) (at_point point) result }
{
    let step = game.points()[point as usize].own?;
    Some(source_from(game, offsets, step))
}

/// Returns a player's last step before an end.
pub fn end_step(game: &ValidGame, player: u8, end: u32) -> Option<Step>
    requires { end < end_count (frame_in game.now) }
    ensures { option_map step_of result ≡ last_step (frame_in game.now) player (at_end end) }
{
    let end = &game.ends()[end as usize];
    if player == 1 { end.one } else { end.two }
}

/// Returns what the program keeps of a player's last step before an end.
pub(crate) fn end_source(
    game: &ValidGame,
    offsets: &[u32],
    player: u8,
    end: u32,
) -> Option<StepSource>
    requires some { 0 < player }
    requires two { player ≤ 2 }
    requires end { end < end_count (frame_in game.now) }
    requires long { length offsets.now ≡ point_count (frame_in game.now) }
    ensures { (lists : ClassLists) → AreOffsets (frame_in game.now) lists offsets.now → MatchSource (frame_in game.now) lists player (at_end end) result }
{
    let step = end_step(game, player, end)?;
    Some(source_from(game, offsets, step))
}

/// Returns what the program keeps of a player's last step before an end. Needs no list of offsets: it counts the slots before the step.
pub fn source_at_end(
    game: &ValidGame,
    classes: &Classes,
    player: u8,
    end: u32,
) -> Option<StepSource>
    requires parents { classes.now.parents ≡ (frame_in game.now).parents }
    requires some { 0 < player }
    requires two { player ≤ 2 }
    requires end { end < end_count (frame_in game.now) }
    ensures { MatchSource (frame_in game.now) classes.now.lists player (at_end end) result }
{
    let step = end_step(game, player, end)?;
    let before = &game.points()[step.point as usize];
    Some(StepSource {
        round: before.round,
        first: slots_between(game, classes, player, 0, step.point),
        moves: before.moves.len() as u64,
        choice: step.choice,
    })
}

/// A plan of a player, at an end.
#[derive(Clone, Copy)]
pub struct PlanAtEnd<'a> {
    pub game: &'a ValidGame,
    pub classes: &'a Classes,
    pub plan: &'a Plan,
    pub end: u32,
    /// The player's last step before the end.
    pub source: Option<StepSource>,
    pub ghost parents: { classes.now.parents ≡ (frame_in game.now).parents },
    pub ghost some: { 0 < plan.now.player },
    pub ghost two: { plan.now.player ≤ 2 },
    pub ghost plan_is: { IsPlanOf (frame_in game.now) classes.now.lists plan.now.player plan.now },
    pub ghost within: { end < end_count (frame_in game.now) },
}

impl<'a> PlanAtEnd<'a> {
    /// Returns the plan's number at the end and a class of the end's round: the weight of the player's last step, at the class above.
    /// If the player made no step, the number is the total.
    pub fn number(&self, class: u32) -> u64
        requires source { MatchSource (frame_in self.now.game.now) self.now.classes.now.lists self.now.plan.now.player (at_end self.now.end) self.now.source }
        requires class { IsClass self.now.classes.now.lists (round_of (frame_in self.now.game.now) (at_end self.now.end)) class }
        ensures value { let f = frame_in self.now.game.now in let lists = self.now.classes.now.lists in let p = self.now.plan.now in
            result ≡ class_number f lists p.player (class_plan f lists p) self.now.end class }
        ensures within { result ≤ self.now.plan.now.total }
    {
        match self.source {
            None => self.plan.total,
            Some(step) => {
                let round = self.game.ends()[self.end as usize].round;
                weight_above(self.classes, &self.plan.weights, step, round, class)
            }
        }
    }
}

/// Returns a whole number times a signed one.
pub fn scaled(number: u64, worth: i128) -> i128
    requires { number * unsigned_abs worth < 2 ^ 127 }
    ensures { result ≡ pos number *ℤ worth }
{
    i128::from(number) * worth
}

/// Returns the sum of two signed numbers.
pub fn plus(first: i128, second: i128) -> i128
    requires { unsigned_abs (first +ℤ second) < 2 ^ 127 }
    ensures { result ≡ first +ℤ second }
{
    first + second
}
