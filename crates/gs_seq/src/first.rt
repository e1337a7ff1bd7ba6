//! The plan that takes the first move everywhere.

ghost use Rattle.std.specs.Prelude.{◌≡◌, ◌+◌, ◌<◌, ◌≤◌, ℕ, IfOk, IfSome, MatchOption, length, slice_index};
ghost use Rattle.gs_model.specs.{Classes.{IsClass}, Frame.{player_at, point_count, round_of}, Positions.{at_point}};
ghost use Rattle.gs_seq.specs.{Firsts.{AgreeBefore, AreFirstBefore, IsClear, IsFirstAt}, Games.{frame_in}};
ghost use Rattle.gs_seq.specs.{Slots.{AreOffsets, slot_count as slots_in, slots_before}, Sources.{slot_above}};

use crate::flows::{StepSource, coming};
use crate::form::Abstract;
use crate::numbers::point_source;
use crate::plan::Plan;
use crate::slots::point_total;
use gs_filter::Classes;
use gs_game::ValidGame;
use std::alloc::{AllocError, Global};

/// Returns the weight that comes to each class of a point, from the player's last step before it: that of the step at the first class, or 1 if there is none.
fn first_came(source: Option<StepSource>, weights: &[u64]) -> u64
    requires { IfSome source (λ s. slot_above s 1 < length weights.now) }
    ensures { MatchOption source (result ≡ 1) (λ s. result ≡ slice_index weights.now (slot_above s 1)) }
{
    match source {
        None => 1,
        Some(step) => weights[step.first as usize + usize::from(step.choice)],
    }
}

/// Gives the first move, at each class of a player's point, all the weight that comes there.
fn put_first(
    game: &ValidGame,
    classes: &Classes,
    offsets: &[u32],
    player: u8,
    point: u32,
    weights: &mut [u64],
)
    requires parents { classes.now.parents ≡ (frame_in game.now).parents }
    requires offsets { AreOffsets (frame_in game.now) classes.now.lists offsets.now }
    requires in_range { point < point_count (frame_in game.now) }
    requires own { player_at (frame_in game.now) point ≡ player }
    requires long { length weights.old ≡ slots_in (frame_in game.now) classes.now.lists player }
    requires firsts { AreFirstBefore (frame_in game.now) classes.now.lists player weights.old point }
    requires clear { IsClear (slots_before (frame_in game.now) classes.now.lists player point) weights.old }
    ensures kept { AgreeBefore (slots_before (frame_in game.now) classes.now.lists player point) weights.old weights.new }
    ensures here { (c : ℕ) → IsClass classes.now.lists (round_of (frame_in game.now) (at_point point)) c
        → IsFirstAt (frame_in game.now) classes.now.lists player weights.new point c }
    ensures clear { IsClear (slots_before (frame_in game.now) classes.now.lists player (point + 1)) weights.new }
{
    let source = point_source(game, offsets, point);
    let here = &game.points()[point as usize];
    let moves = here.moves.len();
    let first = offsets[point as usize] as usize;
    for before in 0..classes.classes(here.round) {
        weights[first + before as usize * moves] = first_came(source, weights);
    }
}

/// Returns the `count` weights of the plan with total 1 that takes the first move everywhere.
fn first_weights(
    alloc: Global,
    game: &ValidGame,
    classes: &Classes,
    offsets: &[u32],
    player: u8,
    count: u32,
) -> Result<Vec<u64>, AllocError>
    requires parents { classes.now.parents ≡ (frame_in game.now).parents }
    requires offsets { AreOffsets (frame_in game.now) classes.now.lists offsets.now }
    requires count { count ≡ slots_in (frame_in game.now) classes.now.lists player }
    ensures long { IfOk result (λ v. length v.items ≡ count) }
    ensures firsts { IfOk result (λ v. AreFirstBefore (frame_in game.now) classes.now.lists player v.items (point_count (frame_in game.now))) }
{
    let mut weights = vec![in alloc; 0u64; count as usize]?;
    for point in 0..point_total(game) {
        if game.points()[point as usize].player == player {
            put_first(game, classes, offsets, player, point, &mut weights);
        }
    }
    Ok(weights)
}

impl<'a> Abstract<'a> {
    ghost use Rattle.gs_model.specs.Play.{IsFirstMoves};
    ghost use Rattle.gs_seq.specs.{Abstracts.{abstract_frame, lists_of}, Firsts.{IsComing}, Plans.{IsPlanOf, class_plan}};

    /// Returns a player's plan with total 1 that takes the first move everywhere.
    pub fn first_plan(&self, alloc: Global, player: u8) -> Result<Plan, AllocError>
        requires some { 0 < player }
        requires two { player ≤ 2 }
        ensures plan { IfOk result (IsPlanOf (abstract_frame self.now) (lists_of self.now) player) }
        ensures first { IfOk result (λ p. IsFirstMoves (abstract_frame self.now) (lists_of self.now) player
            (class_plan (abstract_frame self.now) (lists_of self.now) p)) }
    {
        let count = self.sequences(player) - 1;
        let weights = first_weights(
            alloc,
            self.game(),
            self.classes(),
            self.offsets(),
            player,
            count,
        )?;
        Ok(Plan {
            player,
            total: 1,
            weights,
        })
    }

    /// Returns the weight that comes to a class of a point: the weight of the player's last step before the point, at the class above.
    /// If the player made no step, it is the total. Reads only weights of slots before the point.
    pub fn coming(&self, total: u64, weights: &[u64], point: u32, class: u32) -> u64
        requires point { point < point_count (abstract_frame self.now) }
        requires class { IsClass (lists_of self.now) (round_of (abstract_frame self.now) (at_point point)) class }
        requires long { slots_before (abstract_frame self.now) (lists_of self.now) (player_at (abstract_frame self.now) point) point ≤ length weights.now }
        ensures { IsComing (abstract_frame self.now) (lists_of self.now) total weights.now point class result }
    {
        let game = self.game();
        let source = point_source(game, self.offsets(), point);
        coming(game, self.classes(), total, weights, source, point, class)
    }
}
