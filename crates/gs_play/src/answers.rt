//! The moves that a player's answer takes, and the player's weights so far.

ghost use Rattle.std.specs.Prelude.{◌≡◌, ◌≢◌, ◌↔◌, ◌+◌, ◌<◌, ℕ, IfOk, IsTrue, false, get_or, length, true};
ghost use Rattle.gs_model.specs.{Classes.{IsClass}, Frame.{last_step, move_count, other_player, player_at, point_count, round_of}};
ghost use Rattle.gs_model.specs.Positions.{at_point};
ghost use Rattle.gs_seq.specs.{Plans.{class_plan}, Slots.{slot_count}};
ghost use Rattle.gs_best.specs.Tables.{moves_of, start_of};
ghost use Rattle.gs_play.specs.PlanSums.{ArePlansAlike};
ghost use Rattle.gs_play.specs.{Plots.{IsGate, IsRowIn, cell_place}, Sides.{side_frame, side_lists}, Tallies.{HasMoved, HasTallyRoom, KeepsChoices}};
ghost use Rattle.gs_play.specs.Answers.{AreKeptBut, AreRight, HasAnswer, IsElsewhere, IsPaidOff, IsReached, IsRenewable, IsRenewed, IsRight};
ghost use Rattle.gs_play.specs.Answers.{IsRightAt, IsRightMove, IsSameTally, IsStill, IsPassedOn, IsOtherMove, IsTurnedAt, plan_after};

use crate::plot::{PointRow, gate_of};
use crate::pushing::{Change, push};
use crate::role::Role;
use crate::tally::Tally;
use gs_game::Step;
use gs_seq::Plan;
use std::alloc::{AllocError, Global};

/// The mark of a class to which the answer does not come.
const NONE: u8 = u8::MAX;

/// A player's weights as they were when each move of the answer began to be taken, and the moves that it takes.
#[derive(Drop)]
pub(crate) struct Answer {
    /// for each slot the weight, without the turns since which the present move is taken
    pub(crate) weights: Vec<u64>,
    /// for each cell the move that the answer takes, or `NONE`
    pub(crate) taken: Vec<u8>,
    /// for each cell the turn since which that is so
    pub(crate) since: Vec<u32>,
    /// for each point whether what is taken there was changed the last time that the answer was found again
    pub(crate) turned: Vec<bool>,
}

/// Returns whether the answer comes to a class of a row: whether it takes the player's last step before the row's point, at the class above.
fn is_reached(side: &Role<'_>, taken: &[u8], gate: Option<Step>, row: PointRow, class: u32) -> bool
    requires row { IsRowIn (side_frame side.now) (side_lists side.now) row }
    requires gate { IsGate (side_frame side.now) row.point gate }
    requires class { IsClass (side_lists side.now) (round_of (side_frame side.now) (at_point row.point)) class }
    requires long { length taken.now ≡ start_of (side_frame side.now) (side_lists side.now) (point_count (side_frame side.now)) }
    ensures { let f = side_frame side.now in let lists = side_lists side.now in
        let step = last_step f (player_at f row.point) (at_point row.point) in
        IsTrue result ↔ IsReached f lists (moves_of f lists taken.now) step (round_of f (at_point row.point)) class }
{
    match gate {
        None => true,
        Some(step) => {
            let up = side.plot.gates[row.cell + class as usize - 1];
            taken[up as usize] == step.choice
        }
    }
}

/// Returns the cell of a class of a point.
fn cell_of(side: &Role<'_>, point: u32, class: u32) -> usize
    requires point { point < point_count (side_frame side.now) }
    requires class { IsClass (side_lists side.now) (round_of (side_frame side.now) (at_point point)) class }
    ensures place { result ≡ cell_place (side_frame side.now) (side_lists side.now) point class }
    ensures inside { result < start_of (side_frame side.now) (side_lists side.now) (point_count (side_frame side.now)) }
{
    side.plot.rows[point as usize].cell + class as usize - 1
}

/// Adds to the weight of the move that is taken at a class of a point the turns since it began.
fn pay_off(side: &Role<'_>, answer: &mut Answer, point: u32, class: u32, now: u32)
    requires point { point < point_count (side_frame side.now) }
    requires own { player_at (side_frame side.now) point ≡ side.now.player }
    requires class { IsClass (side_lists side.now) (round_of (side_frame side.now) (at_point point)) class }
    requires answer { HasAnswer (side_frame side.now) (side_lists side.now) side.now.player now answer.old }
    ensures weights { let f = side_frame side.now in let lists = side_lists side.now in (q c m : ℕ) → q < point_count f → player_at f q ≡ side.now.player
        → IsClass lists (round_of f (at_point q)) c → m < move_count f q → IsPaidOff f lists point class now q c m answer.old answer.new }
    ensures long { length answer.new.weights.items ≡ length answer.old.weights.items }
    ensures taken { answer.new.taken ≡ answer.old.taken }
    ensures since { answer.new.since ≡ answer.old.since }
    ensures turned { answer.new.turned ≡ answer.old.turned }
{
    let cell = cell_of(side, point, class);
    let old = answer.taken[cell];
    if old != NONE {
        let slot = side.form.slot(point, class, old) as usize;
        answer.weights[slot] += u64::from(now - answer.since[cell]);
    }
}

/// Takes another move at a class of a point from the turn `now` on, or none. The weight so far is written.
fn turn(side: &Role<'_>, answer: &mut Answer, point: u32, class: u32, new: u8, now: u32)
    requires point { point < point_count (side_frame side.now) }
    requires own { player_at (side_frame side.now) point ≡ side.now.player }
    requires class { IsClass (side_lists side.now) (round_of (side_frame side.now) (at_point point)) class }
    requires new { new < 255 → new < move_count (side_frame side.now) point }
    requires answer { HasAnswer (side_frame side.now) (side_lists side.now) side.now.player now answer.old }
    ensures answer { HasAnswer (side_frame side.now) (side_lists side.now) side.now.player now answer.new }
    ensures here { let f = side_frame side.now in let lists = side_lists side.now in moves_of f lists answer.new.taken.items point class ≡ new }
    ensures turned { get_or answer.new.turned.items point false ≡ true }
    ensures elsewhere { IsElsewhere (side_frame side.now) (side_lists side.now) point class answer.old answer.new }
    ensures plan { let f = side_frame side.now in let lists = side_lists side.now in
        ArePlansAlike f lists side.now.player (plan_after f lists answer.new now) (plan_after f lists answer.old now) }
{
    let cell = cell_of(side, point, class);
    pay_off(side, answer, point, class, now);
    answer.taken[cell] = new;
    answer.since[cell] = now;
    answer.turned[point as usize] = true;
}

/// Tells the other player's class totals that a player takes a move at a class of a point from the turn `now` on in place of another one.
/// One of the two may be `NONE`.
fn tell(side: &Role<'_>, tally: &mut Tally, point: u32, class: u32, old: u8, new: u8, now: u32)
    requires point { point < point_count (side_frame side.now) }
    requires own { player_at (side_frame side.now) point ≡ side.now.player }
    requires class { IsClass (side_lists side.now) (round_of (side_frame side.now) (at_point point)) class }
    requires old { old < 255 → old < move_count (side_frame side.now) point }
    requires new { new < 255 → new < move_count (side_frame side.now) point }
    requires apart { old ≢ new }
    requires room { HasTallyRoom (side_frame side.now) (side_lists side.now) tally.old }
    ensures kept { KeepsChoices (side_frame side.now) (side_lists side.now) tally.old tally.new }
    ensures passed_on { let f = side_frame side.now in let lists = side_lists side.now in
        (from to : ℕ → ℕ → ℕ) → IsOtherMove f lists point class old new from to
        → IsPassedOn f lists (other_player side.now.player) now from to tally.old tally.new }
{
    let other = Role {
        form: side.form,
        player: 3 - side.player,
        plot: side.plot,
    };
    let off = Change {
        step: Step { point, choice: old },
        class,
        is_on: false,
    };
    let on = Change {
        step: Step { point, choice: new },
        class,
        is_on: true,
    };
    if old == NONE {
        push(&other, tally, on, now);
        return;
    }
    push(&other, tally, off, now);
    if new != NONE {
        push(&other, tally, on, now);
    }
}

/// Returns the move that is right at a class of a row: the chosen one where the answer comes there, else `NONE`.
fn right_move(
    side: &Role<'_>,
    taken: &[u8],
    picks: &[u8],
    gate: Option<Step>,
    row: PointRow,
    class: u32,
) -> u8
    requires row { IsRowIn (side_frame side.now) (side_lists side.now) row }
    requires gate { IsGate (side_frame side.now) row.point gate }
    requires class { IsClass (side_lists side.now) (round_of (side_frame side.now) (at_point row.point)) class }
    requires taken { length taken.now ≡ start_of (side_frame side.now) (side_lists side.now) (point_count (side_frame side.now)) }
    requires picks { length picks.now ≡ start_of (side_frame side.now) (side_lists side.now) (point_count (side_frame side.now)) }
    ensures { let f = side_frame side.now in let lists = side_lists side.now in
        let step = last_step f (player_at f row.point) (at_point row.point) in
        IsRightMove f lists (moves_of f lists taken.now) (moves_of f lists picks.now) step row.point class result }
{
    if is_reached(side, taken, gate, row, class) {
        picks[row.cell + class as usize - 1]
    } else {
        NONE
    }
}

/// Finds the moves again that a player's answer takes at a point, from the choices there and from what it takes at the points before.
/// The other player's class totals are told.
fn renew_point(
    side: &Role<'_>,
    answer: &mut Answer,
    picks: &[u8],
    tally: &mut Tally,
    point: u32,
    now: u32,
)
    requires point { point < point_count (side_frame side.now) }
    requires own { player_at (side_frame side.now) point ≡ side.now.player }
    requires renewable { IsRenewable (side_frame side.now) (side_lists side.now) side.now.player now picks.now answer.old tally.old }
    ensures renewed { IsRenewed (side_frame side.now) (side_lists side.now) side.now.player now answer.old answer.new tally.old tally.new }
    ensures right { IsRightAt (side_frame side.now) (side_lists side.now) answer.new.taken.items picks.now point }
    ensures turned { IsTurnedAt (side_frame side.now) (side_lists side.now) point answer.old answer.new }
{
    let gate = gate_of(side.form, point);
    let row = side.plot.rows[point as usize];
    for class in 1..side.form.class_total(row.round) + 1 {
        let cell = row.cell + class as usize - 1;
        let old = answer.taken[cell];
        let new = right_move(side, &answer.taken, picks, gate, row, class);
        if old != new {
            turn(side, answer, point, class, new, now);
            tell(side, tally, point, class, old, new, now);
        }
    }
}

/// Returns whether what a player's answer takes at a point may have to be found again: a choice there has changed, or what is taken at the point of
/// the player's last step before it has been changed.
fn is_loose(side: &Role<'_>, answer: &Answer, moved: &[bool], point: u32) -> bool
    requires point { point < point_count (side_frame side.now) }
    requires turned { length answer.now.turned.items ≡ point_count (side_frame side.now) }
    requires moved { length moved.now ≡ point_count (side_frame side.now) }
    ensures { result ≡ false → IsStill (side_frame side.now) point moved.now answer.now.turned.items }
{
    if moved[point as usize] {
        return true;
    }
    match gate_of(side.form, point) {
        None => false,
        Some(step) => answer.turned[step.point as usize],
    }
}

/// Finds the moves again that a player's answer takes at a point, if the player chooses there and they may have to be found again.
fn renew_at(
    side: &Role<'_>,
    answer: &mut Answer,
    own: &Tally,
    tally: &mut Tally,
    point: u32,
    now: u32,
)
    requires point { point < point_count (side_frame side.now) }
    requires own { HasTallyRoom (side_frame side.now) (side_lists side.now) own.now }
    requires renewable { IsRenewable (side_frame side.now) (side_lists side.now) side.now.player now own.now.picks.items answer.old tally.old }
    requires right { player_at (side_frame side.now) point ≡ side.now.player → IsStill (side_frame side.now) point own.now.moved.items answer.old.turned.items
        → IsRightAt (side_frame side.now) (side_lists side.now) answer.old.taken.items own.now.picks.items point }
    ensures renewed { IsRenewed (side_frame side.now) (side_lists side.now) side.now.player now answer.old answer.new tally.old tally.new }
    ensures right { player_at (side_frame side.now) point ≡ side.now.player
        → IsRightAt (side_frame side.now) (side_lists side.now) answer.new.taken.items own.now.picks.items point }
    ensures turned { IsTurnedAt (side_frame side.now) (side_lists side.now) point answer.old answer.new }
{
    answer.turned[point as usize] = false;
    if side.plot.rows[point as usize].player == side.player
        && is_loose(side, answer, &own.moved, point)
    {
        renew_point(side, answer, &own.picks, tally, point, now);
    }
}

/// Finds a player's answer again where the player's choices have changed. The other player's class totals in `tally` are told: what has changed is
/// taken from the turn `now` on.
pub(crate) fn renew(
    side: &Role<'_>,
    answer: &mut Answer,
    own: &mut Tally,
    tally: &mut Tally,
    now: u32,
)
    requires own { HasTallyRoom (side_frame side.now) (side_lists side.now) own.old }
    requires renewable { IsRenewable (side_frame side.now) (side_lists side.now) side.now.player now own.old.picks.items answer.old tally.old }
    requires right { (q : ℕ) → q < point_count (side_frame side.now) → player_at (side_frame side.now) q ≡ side.now.player → (HasMoved own.old q → ⊥)
        → IsRightAt (side_frame side.now) (side_lists side.now) answer.old.taken.items own.old.picks.items q }
    ensures renewed { IsRenewed (side_frame side.now) (side_lists side.now) side.now.player now answer.old answer.new tally.old tally.new }
    ensures right { let f = side_frame side.now in let lists = side_lists side.now in
        AreRight f lists side.now.player (moves_of f lists answer.new.taken.items) (moves_of f lists own.new.picks.items) }
    ensures own { HasTallyRoom (side_frame side.now) (side_lists side.now) own.new }
    ensures still { (q : ℕ) → q < point_count (side_frame side.now) → HasMoved own.new q → ⊥ }
    ensures same { IsSameTally own.old own.new }
{
    for point in 0..side.form.point_total() {
        renew_at(side, answer, own, tally, point, now);
        own.moved[point as usize] = false;
    }
}

/// Takes the first move at each class of a point to which the answer comes.
fn take_first(side: &Role<'_>, taken: &mut [u8], point: u32)
    requires point { point < point_count (side_frame side.now) }
    requires long { length taken.old ≡ start_of (side_frame side.now) (side_lists side.now) (point_count (side_frame side.now)) }
    requires none { (c : ℕ) → IsClass (side_lists side.now) (round_of (side_frame side.now) (at_point point)) c
        → moves_of (side_frame side.now) (side_lists side.now) taken.old point c ≡ 255 }
    ensures first { (c : ℕ) → IsClass (side_lists side.now) (round_of (side_frame side.now) (at_point point)) c
        → IsRight (side_frame side.now) (side_lists side.now) (moves_of (side_frame side.now) (side_lists side.now) taken.new) (λ q c. 0) point c }
    ensures elsewhere { AreKeptBut (side_frame side.now) (side_lists side.now) point taken.old taken.new }
{
    let gate = gate_of(side.form, point);
    let row = side.plot.rows[point as usize];
    for class in 1..side.form.class_total(row.round) + 1 {
        if is_reached(side, taken, gate, row, class) {
            taken[row.cell + class as usize - 1] = 0;
        }
    }
}

/// Returns the answer that takes the first move everywhere, from turn 0 on.
pub(crate) fn first_answer(alloc: Global, side: &Role<'_>) -> Result<Answer, AllocError>
    ensures answer { IfOk result (HasAnswer (side_frame side.now) (side_lists side.now) side.now.player 0) }
    ensures right { let f = side_frame side.now in let lists = side_lists side.now in
        IfOk result (λ a. AreRight f lists side.now.player (moves_of f lists a.taken.items) (λ q c. 0)) }
{
    let cells = side.plot.points.len();
    let mut taken = vec![in alloc; NONE; cells]?;
    for point in 0..side.form.point_total() {
        if side.plot.rows[point as usize].player == side.player {
            take_first(side, &mut taken, point);
        }
    }
    let slots = side.form.sequences(side.player) as usize - 1;
    Ok(Answer {
        weights: vec![in alloc; 0u64; slots]?,
        taken,
        since: vec![in alloc; 0u32; cells]?,
        turned: vec![in alloc; false; side.plot.rows.len()]?,
    })
}

/// Takes no move any more at the classes of a point. The weights so far are written.
fn stop_at(side: &Role<'_>, answer: &mut Answer, point: u32, last: u32)
    requires point { point < point_count (side_frame side.now) }
    requires own { player_at (side_frame side.now) point ≡ side.now.player }
    requires answer { HasAnswer (side_frame side.now) (side_lists side.now) side.now.player last answer.old }
    ensures answer { HasAnswer (side_frame side.now) (side_lists side.now) side.now.player last answer.new }
    ensures none { (c : ℕ) → IsClass (side_lists side.now) (round_of (side_frame side.now) (at_point point)) c
        → moves_of (side_frame side.now) (side_lists side.now) answer.new.taken.items point c ≡ 255 }
    ensures elsewhere { AreKeptBut (side_frame side.now) (side_lists side.now) point answer.old.taken.items answer.new.taken.items }
    ensures plan { let f = side_frame side.now in let lists = side_lists side.now in
        ArePlansAlike f lists side.now.player (plan_after f lists answer.new last) (plan_after f lists answer.old last) }
{
    for class in 1..side.form.class_total(side.form.round_at(point)) + 1 {
        turn(side, answer, point, class, NONE, last);
    }
}

/// Returns the plan that a player has in the turn `last`.
pub(crate) fn finish(side: &Role<'_>, mut answer: Answer, last: u32) -> Plan
    requires { HasAnswer (side_frame side.now) (side_lists side.now) side.now.player last answer }
    ensures player { result.player ≡ side.now.player }
    ensures total { result.total ≡ last }
    ensures long { length result.weights.items ≡ slot_count (side_frame side.now) (side_lists side.now) side.now.player }
    ensures plan { let f = side_frame side.now in let lists = side_lists side.now in
        ArePlansAlike f lists side.now.player (class_plan f lists result) (plan_after f lists answer last) }
{
    for point in 0..side.form.point_total() {
        if side.plot.rows[point as usize].player == side.player {
            stop_at(side, &mut answer, point, last);
        }
    }
    let Answer { weights, .. } = answer;
    Plan {
        player: side.player,
        total: u64::from(last),
        weights,
    }
}
