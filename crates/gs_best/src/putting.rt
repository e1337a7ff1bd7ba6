//! The plan that puts all weight on given moves, and the one that puts all weight on the best moves.

ghost use Rattle.std.specs.Prelude.{◌≡◌, ◌+◌, ◌<◌, ◌≤◌, ℕ, IfOk, length};
ghost use Rattle.gs_model.specs.{BestAnswers.{IsFirstBestPlan}, Classes.{IsClass}, Frame.{player_at, point_count, round_of}, Positions.{at_point}};
ghost use Rattle.gs_seq.specs.{Abstracts.{abstract_frame, lists_of}, Firsts.{AgreeBefore, IsClear}, Plans.{IsPlanOf, class_plan, lifted}};
ghost use Rattle.gs_seq.specs.Slots.{slot_count, slots_before};
ghost use Rattle.gs_best.specs.{Filled.{IsFilled}, Tables.{AreInMoves, AreStarts, moves_of, start_of}, Puts.{ArePutBefore, IsPutAt}};

use crate::side::Side;
use crate::tables::Table;
use gs_seq::{Abstract, Plan};
use std::alloc::{AllocError, Global};

/// Gives the chosen move, at each class of an own point, all the weight that comes there.
fn put_point(
    form: &Abstract,
    player: u8,
    starts: &[u32],
    picks: &[u8],
    point: u32,
    weights: &mut [u64],
)
    requires some { 0 < player }
    requires two { player ≤ 2 }
    requires point { point < point_count (abstract_frame form.now) }
    requires own { player_at (abstract_frame form.now) point ≡ player }
    requires starts { point_count (abstract_frame form.now) ≤ length starts.now }
    requires places { AreStarts (abstract_frame form.now) (lists_of form.now) starts.now }
    requires picks { let f = abstract_frame form.now in start_of f (lists_of form.now) (point_count f) ≤ length picks.now }
    requires moves { let f = abstract_frame form.now in let lists = lists_of form.now in AreInMoves f lists player (moves_of f lists picks.now) }
    requires long { length weights.old ≡ slot_count (abstract_frame form.now) (lists_of form.now) player }
    requires clear { IsClear (slots_before (abstract_frame form.now) (lists_of form.now) player point) weights.old }
    ensures kept { AgreeBefore (slots_before (abstract_frame form.now) (lists_of form.now) player point) weights.old weights.new }
    ensures here { let f = abstract_frame form.now in let lists = lists_of form.now in
        (c : ℕ) → IsClass lists (round_of f (at_point point)) c → IsPutAt f lists player (moves_of f lists picks.now) weights.new point c }
    ensures clear { IsClear (slots_before (abstract_frame form.now) (lists_of form.now) player (point + 1)) weights.new }
{
    let start = starts[point as usize] as usize;
    for before in 0..form.class_total(form.round_at(point)) {
        let choice = picks[start + before as usize];
        let came = form.coming(1, weights, point, before + 1);
        let slot = form.slot(point, before + 1, choice) as usize;
        weights[slot] = came;
    }
}

/// Writes the weights of the plan with total 1 that puts all weight on given moves of a player. The weights must all be 0 before.
/// `picks` has the moves by point and class, and `starts` has for each point the place of its first class.
pub fn put_moves(form: &Abstract, player: u8, starts: &[u32], picks: &[u8], weights: &mut [u64])
    requires some { 0 < player }
    requires two { player ≤ 2 }
    requires starts { point_count (abstract_frame form.now) ≤ length starts.now }
    requires places { AreStarts (abstract_frame form.now) (lists_of form.now) starts.now }
    requires picks { let f = abstract_frame form.now in start_of f (lists_of form.now) (point_count f) ≤ length picks.now }
    requires moves { let f = abstract_frame form.now in let lists = lists_of form.now in AreInMoves f lists player (moves_of f lists picks.now) }
    requires long { length weights.old ≡ slot_count (abstract_frame form.now) (lists_of form.now) player }
    requires clear { IsClear 0 weights.old }
    ensures { let f = abstract_frame form.now in let lists = lists_of form.now in
        ArePutBefore f lists player (moves_of f lists picks.now) weights.new (point_count f) }
{
    for point in 0..form.point_total() {
        if form.chooser(point) == player {
            put_point(form, player, starts, picks, point, weights);
        }
    }
}

/// Returns the weights of the plan with total 1 that puts all weight on the best moves.
fn best_weights(alloc: Global, side: &Side<'_>, table: &Table) -> Result<Vec<u64>, AllocError>
    requires filled { IsFilled side.now table.now }
    ensures long { IfOk result (λ v. length v.items ≡ slot_count (abstract_frame side.now.form.now) (lists_of side.now.form.now) side.now.player) }
    ensures puts { let f = abstract_frame side.now.form.now in let lists = lists_of side.now.form.now in
        IfOk result (λ v. ArePutBefore f lists side.now.player (moves_of f lists table.now.picks.items) v.items (point_count f)) }
{
    let count = side.form.sequences(side.player) - 1;
    let mut weights = vec![in alloc; 0u64; count as usize]?;
    put_moves(
        side.form,
        side.player,
        &table.starts,
        &table.picks,
        &mut weights,
    );
    Ok(weights)
}

/// Returns the plan with total 1 that puts all weight on the best moves.
pub(crate) fn put_all(alloc: Global, side: &Side<'_>, table: &Table) -> Result<Plan, AllocError>
    requires filled { IsFilled side.now table.now }
    ensures plan { IfOk result (IsPlanOf (abstract_frame side.now.form.now) (lists_of side.now.form.now) side.now.player) }
    ensures best { let f = abstract_frame side.now.form.now in let lists = lists_of side.now.form.now in
        IfOk result (λ x. IsFirstBestPlan f lists side.now.player (lifted f lists side.now.other.now) (class_plan f lists x)) }
{
    let weights = best_weights(alloc, side, table)?;
    Ok(Plan {
        player: side.player,
        total: 1,
        weights,
    })
}
