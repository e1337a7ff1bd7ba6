//! The check whether weights form a plan: at each point and class the weights of the moves add up to the weight that comes there.
//! That weight is the weight of the player's last step before the point, at the class above. If there is no such step, it is the total.

ghost use Rattle.std.specs.Prelude.{ℕ, ◌≡◌, ◌+◌, ◌*◌, ◌<◌, ◌≤◌, ◌^◌, MatchOption, drop, length, sum, take};
ghost use Rattle.gs_model.specs.Classes.{IsClass, first_member};
ghost use Rattle.gs_model.specs.{Frame.{last_step, player_at, point_count, round_of}, Plans.{lift, number_before}};
ghost use Rattle.gs_model.specs.Positions.{at_point};
ghost use Rattle.gs_seq.specs.{Faults.{IsFaultOf}, Games.{frame_in}, Slots.{IsPlan, plan_of, slot_count as slots_in, slots_before}};
ghost use Rattle.gs_seq.specs.Sources.{FirstLeakAt, FirstLeakIn, IsClassAbove, IsWeightAbove, MatchSource, slot_above};

use crate::fault::PlanFault;
use crate::slots::{point_total, slot_count, slots_at, slots_between};
use gs_filter::Classes;
use gs_game::ValidGame;

/// The greatest total of a plan.
pub const MOST_TOTAL: u64 = 1 << 36;

/// A player's last step before a position.
#[derive(Clone, Copy)]
pub struct StepSource {
    /// The round of the point where it was made.
    pub(crate) round: u8,
    /// The slot of that point's first class and first move.
    pub(crate) first: u64,
    /// The number of moves of that point.
    pub(crate) moves: u64,
    pub(crate) choice: u8,
}

/// Returns the class of an earlier round from which a class descends; in its own round, the class itself.
pub fn class_above(classes: &Classes, round: u8, to: u8, class: u32) -> u32
    requires some { 0 < to }
    requires earlier { to ≤ round }
    requires top { round ≤ length classes.now.lists }
    requires class { IsClass classes.now.lists round class }
    ensures above { IsClassAbove classes.now round to class result }
    ensures class { IsClass classes.now.lists to result }
{
    let mut at = round;
    let mut above = class;
    while to < at {
        above = classes.parent_class(at, above);
        at -= 1;
    }
    above
}

/// Returns the last step before a point of the player who chooses there. `first` is the slot of the point's first class and first move.
pub(crate) fn source_of(
    game: &ValidGame,
    classes: &Classes,
    player: u8,
    point: u32,
    first: u64,
) -> Option<StepSource>
    requires parents { classes.now.parents ≡ (frame_in game.now).parents }
    requires in_range { point < point_count (frame_in game.now) }
    requires own { player_at (frame_in game.now) point ≡ player }
    requires first { first ≡ slots_before (frame_in game.now) classes.now.lists player point }
    ensures { MatchSource (frame_in game.now) classes.now.lists player (at_point point) result }
{
    let step = game.points()[point as usize].own?;
    let before = &game.points()[step.point as usize];
    Some(StepSource {
        round: before.round,
        first: first - slots_between(game, classes, player, step.point, point),
        moves: before.moves.len() as u64,
        choice: step.choice,
    })
}

/// Returns the weight of a step, at the class of the step's round from which a class descends.
pub(crate) fn weight_above(
    classes: &Classes,
    weights: &[u64],
    step: StepSource,
    round: u8,
    class: u32,
) -> u64
    requires some { 0 < step.round }
    requires earlier { step.round ≤ round }
    requires top { round ≤ length classes.now.lists }
    requires class { IsClass classes.now.lists round class }
    requires within { (above : ℕ) → IsClass classes.now.lists step.round above → slot_above step above < length weights.now }
    requires few { (above : ℕ) → IsClass classes.now.lists step.round above → slot_above step above < 2 ^ 60 }
    ensures { IsWeightAbove classes.now step round class weights.now result }
{
    let above = class_above(classes, round, step.round, class);
    let slot = step.first + (u64::from(above) - 1) * step.moves + u64::from(step.choice);
    weights[slot as usize]
}

/// Returns the weight that comes to a class of a point: the weight of the player's last step, at the class above, or the total if there is none.
pub(crate) fn coming(
    game: &ValidGame,
    classes: &Classes,
    total: u64,
    weights: &[u64],
    source: Option<StepSource>,
    point: u32,
    class: u32,
) -> u64
    requires parents { classes.now.parents ≡ (frame_in game.now).parents }
    requires in_range { point < point_count (frame_in game.now) }
    requires source { MatchSource (frame_in game.now) classes.now.lists (player_at (frame_in game.now) point) (at_point point) source }
    requires class { IsClass classes.now.lists (round_of (frame_in game.now) (at_point point)) class }
    requires long { slots_before (frame_in game.now) classes.now.lists (player_at (frame_in game.now) point) point ≤ length weights.now }
    ensures { let f = frame_in game.now in let round = round_of f (at_point point) in
        result ≡ number_before f (lift f classes.now.lists (plan_of f classes.now.lists total weights.now))
        (last_step f (player_at f point) (at_point point)) round
        (first_member classes.now.lists round class) }
{
    match source {
        None => total,
        Some(step) => {
            let round = game.points()[point as usize].round;
            weight_above(classes, weights, step, round, class)
        }
    }
}

/// Returns the sum of some weights.
pub(crate) fn total_of(weights: &[u64]) -> u128
    requires { length weights.now < 2 ^ 63 }
    ensures { result ≡ sum weights.now }
{
    let mut total = 0u128;
    for weight in weights {
        total += u128::from(*weight);
    }
    total
}

/// Returns the sum of `count` weights from the place `first` on.
fn total_from(weights: &[u64], first: usize, count: usize) -> u128
    requires { first + count ≤ length weights.now }
    ensures { result ≡ sum (take count (drop first weights.now)) }
{
    total_of(&weights[first..first + count])
}

/// Returns the first class of a player's point where the weights of the moves do not add up to the weight that comes there.
fn first_leak_at(
    game: &ValidGame,
    classes: &Classes,
    player: u8,
    total: u64,
    weights: &[u64],
    point: u32,
    first: u64,
) -> Option<u32>
    requires parents { classes.now.parents ≡ (frame_in game.now).parents }
    requires in_range { point < point_count (frame_in game.now) }
    requires own { player_at (frame_in game.now) point ≡ player }
    requires first { first ≡ slots_before (frame_in game.now) classes.now.lists player point }
    requires long { length weights.now ≡ slots_in (frame_in game.now) classes.now.lists player }
    ensures { FirstLeakAt (frame_in game.now) classes.now.lists player (plan_of (frame_in game.now) classes.now.lists total weights.now) point result }
{
    let source = source_of(game, classes, player, point, first);
    let here = &game.points()[point as usize];
    let moves = here.moves.len();
    for before in 0..classes.classes(here.round) {
        let slot = first as usize + before as usize * moves;
        let came = coming(game, classes, total, weights, source, point, before + 1);
        if total_from(weights, slot, moves) != u128::from(came) {
            return Some(before + 1);
        }
    }
    None
}

/// Returns the first place, by point and class, where the weights of the moves do not add up to the weight that comes there.
fn first_leak(
    game: &ValidGame,
    classes: &Classes,
    player: u8,
    total: u64,
    weights: &[u64],
) -> Option<(u32, u32)>
    requires parents { classes.now.parents ≡ (frame_in game.now).parents }
    requires long { length weights.now ≡ slots_in (frame_in game.now) classes.now.lists player }
    ensures { FirstLeakIn (frame_in game.now) classes.now.lists player (plan_of (frame_in game.now) classes.now.lists total weights.now) result }
{
    let mut first = 0;
    for point in 0..point_total(game) {
        if game.points()[point as usize].player != player {
            continue;
        }
        if let Some(class) = first_leak_at(game, classes, player, total, weights, point, first) {
            return Some((point, class));
        }
        first += slots_at(game, classes, player, point);
    }
    None
}

/// Returns the first reason why a total and weights do not form a plan of a player, or `None` if they do.
/// It is called once for a plan, so it finds the slot of a step by counting back and keeps no table.
pub fn plan_fault(
    game: &ValidGame,
    classes: &Classes,
    player: u8,
    total: u64,
    weights: &[u64],
) -> Option<PlanFault>
    requires parents { classes.now.parents ≡ (frame_in game.now).parents }
    requires some { 0 < player }
    requires two { player ≤ 2 }
    ensures { MatchOption result (IsPlan (frame_in game.now) classes.now.lists player total weights.now)
        (IsFaultOf (frame_in game.now) classes.now.lists player total weights.now) }
{
    let want = slot_count(game, classes, player);
    if weights.len() as u64 != want {
        return Some(PlanFault::Length { want });
    }
    if total == 0 || total > MOST_TOTAL {
        return Some(PlanFault::Total);
    }
    let (point, class) = first_leak(game, classes, player, total, weights)?;
    Some(PlanFault::Flow { point, class })
}
