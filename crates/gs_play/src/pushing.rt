//! What a move of the other player brings or takes away at ends, each turn from now on.

ghost use Rattle.std.specs.Prelude.{◌≡◌, ◌-◌, ◌*◌, ◌^◌, ◌<◌, ◌≤◌, ℕ, ℤ, OnOk, get_or, length, neg_ℤ, pos, unsigned_abs};
ghost use Rattle.gs_seq.specs.declared.pair.Pair.{Pair as Paired};
ghost use Rattle.gs_game.specs.Seen.{end_of, step_of};
ghost use Rattle.gs_model.specs.{Classes.{IsClass}, Frame.{end_count, leads_to, move_count, other_player, payoff_to, player_at, point_count, round_of}};
ghost use Rattle.gs_model.specs.{Pairs.{pair_sum}, Positions.{at_end, at_point}};
ghost use Rattle.gs_seq.specs.{Payoffs.{end_classes, end_sum, pair_pays}, Plans.{IsPlanOf, class_plan}};
ghost use Rattle.gs_best.specs.Rooms.{IsWide};
ghost use Rattle.gs_play.specs.{Plots.{IsWayIn, LeadsTo}, Pushes.{IsPushed, stake_pays, with_sign}};
ghost use Rattle.gs_play.specs.{Sides.{side_frame, side_lists}, Tables.{raise_sum}};
ghost use Rattle.gs_play.specs.Tallies.{HasRisen, HasTallyRoom, IsTally, KeepsChoices, risen};

use crate::line::rising;
use crate::plot::Way;
use crate::role::Role;
use crate::sweeping::feed;
use crate::tally::Tally;
use crate::ways::way_to_end;
use gs_best::{classes_below, widest};
use gs_game::{End, EndKind, Step};
use gs_seq::{Pair, Plan, end_step};
use std::alloc::{AllocError, Global};

/// A move of the other player at a class of its point, which is taken from now on, or no more.
#[derive(Clone, Copy)]
pub(crate) struct Change {
    pub(crate) step: Step,
    pub(crate) class: u32,
    pub(crate) is_on: bool,
}

/// What an end pays for a pair: `factor` times the pair's signed weight at a showdown, `factor` times its weight at a fold.
#[derive(Clone, Copy)]
pub(crate) struct Stake {
    pub(crate) factor: i64,
    pub(crate) is_shown: bool,
}

/// Returns what a player gains for each pair at an end where the other player, `loser`, comes there from now on, or comes there no more.
fn stake_of(loser: u8, end: End, is_on: bool) -> Stake
    ensures few { unsigned_abs result.factor ≤ 65535 }
    ensures pays { (p : Paired) → stake_pays result p ≡ with_sign is_on (neg_ℤ (pair_pays loser (end_of end) p)) }
{
    let put = i64::from(end.put);
    let gain = if is_on { -put } else { put };
    let folder = match end.kind {
        EndKind::Folded1 => 1,
        EndKind::Folded2 => 2,
        EndKind::Show => {
            return Stake {
                factor: gain,
                is_shown: true,
            };
        }
    };
    Stake {
        factor: if loser == folder { -gain } else { gain },
        is_shown: false,
    }
}

/// Returns what a stake pays for a pair.
fn pays(stake: Stake, pair: Pair) -> i64
    requires factor { unsigned_abs stake.factor ≤ 65535 }
    requires few { pair.weight ≤ 67108864 }
    requires moderate { unsigned_abs pair.signed ≤ 9 * pair.weight }
    ensures { result ≡ stake_pays stake pair }
{
    if stake.is_shown {
        return stake.factor * pair.signed;
    }
    stake.factor * i64::from(pair.weight)
}

/// Adds `more` to what an end pays a class of a player in each turn from the turn `now` on. `way` leads to the end.
fn turn_end(side: &Role<'_>, tally: &mut Tally, way: Way, class: u32, more: i64, now: u32)
    requires way { IsWayIn (side_frame side.now) (side_lists side.now) way }
    requires class { IsClass (side_lists side.now) way.round class }
    requires room { HasTallyRoom (side_frame side.now) (side_lists side.now) tally.old }
    ensures kept { KeepsChoices (side_frame side.now) (side_lists side.now) tally.old tally.new }
    ensures turned { let f = side_frame side.now in let lists = side_lists side.now in let player = side.now.player in
        (end : ℕ) (pays rise : ℕ → ℕ → ℤ) → end < end_count f → leads_to f way.row.point way.choice ≡ at_end end
        → IsTally f lists player pays rise now tally.old → IsTally f lists player pays (risen rise end class more) now tally.new }
{
    if more == 0 {
        return;
    }
    feed(side.form, tally, way, class, rising(more, now));
}

/// Adds what the pairs of a class of the other player bring at an end, or takes it away. `way` leads to the end.
fn push_row(
    side: &Role<'_>,
    tally: &mut Tally,
    end: u32,
    way: Way,
    class: u32,
    is_on: bool,
    now: u32,
)
    requires end { end < end_count (side_frame side.now) }
    requires way { LeadsTo (side_frame side.now) (side_lists side.now) (at_end end) way }
    requires class { IsClass (side_lists side.now) (round_of (side_frame side.now) (at_end end)) class }
    requires room { HasTallyRoom (side_frame side.now) (side_lists side.now) tally.old }
    ensures kept { KeepsChoices (side_frame side.now) (side_lists side.now) tally.old tally.new }
    ensures pushed { let f = side_frame side.now in let lists = side_lists side.now in let player = side.now.player in
        HasRisen f lists player end
        (λ c. with_sign is_on (pair_sum f lists lists (round_of f (at_end end)) (payoff_to f player end) c class)) now tally.old tally.new }
{
    let at = side.form.end_in(end);
    let stake = stake_of(3 - side.player, at, is_on);
    for pair in side.form.pairs(at.round, class) {
        turn_end(side, tally, way, pair.two, pays(stake, pair), now);
    }
}

/// Adds what a move of the other player brings at an end behind it, or takes it away: over the classes below the class of the move.
fn push_end(side: &Role<'_>, tally: &mut Tally, end: u32, change: Change, now: u32)
    requires end { end < end_count (side_frame side.now) }
    requires point { change.step.point < point_count (side_frame side.now) }
    requires past { round_of (side_frame side.now) (at_point change.step.point) ≤ round_of (side_frame side.now) (at_end end) }
    requires class { IsClass (side_lists side.now) (round_of (side_frame side.now) (at_point change.step.point)) change.class }
    requires room { HasTallyRoom (side_frame side.now) (side_lists side.now) tally.old }
    ensures kept { KeepsChoices (side_frame side.now) (side_lists side.now) tally.old tally.new }
    ensures pushed { let f = side_frame side.now in let lists = side_lists side.now in
        HasRisen f lists side.now.player end
        (λ c. with_sign change.is_on (raise_sum f lists side.now.player end (step_of change.step) change.class c)) now tally.old tally.new }
{
    let form = side.form;
    let Some(way) = way_to_end(side, end) else {
        return;
    };
    let from = form.round_at(change.step.point);
    let run = classes_below(form, from, change.class, way.round);
    for class in run.first..run.end {
        push_row(side, tally, end, way, class, change.is_on, now);
    }
}

/// Adds what a move of the other player brings at all ends behind it, or takes it away.
pub(crate) fn push(side: &Role<'_>, tally: &mut Tally, change: Change, now: u32)
    requires point { change.step.point < point_count (side_frame side.now) }
    requires choice { change.step.choice < move_count (side_frame side.now) change.step.point }
    requires others { player_at (side_frame side.now) change.step.point ≡ other_player side.now.player }
    requires class { IsClass (side_lists side.now) (round_of (side_frame side.now) (at_point change.step.point)) change.class }
    requires room { HasTallyRoom (side_frame side.now) (side_lists side.now) tally.old }
    ensures kept { KeepsChoices (side_frame side.now) (side_lists side.now) tally.old tally.new }
    ensures pushed { let f = side_frame side.now in let lists = side_lists side.now in let player = side.now.player in
        (pays rise rise' : ℕ → ℕ → ℤ) → IsPushed f lists player (step_of change.step) change.class change.is_on rise rise'
        → IsTally f lists player pays rise now tally.old → IsTally f lists player pays rise' now tally.new }
{
    let other = 3 - side.player;
    let game = side.form.game();
    let span = side.plot.spans[change.step.point as usize];
    for end in span.first..span.stop {
        if end_step(game, other, end) != Some(change.step) {
            continue;
        }
        push_end(side, tally, end, change, now);
    }
}

/// Adds what an end pays each class against a plan, in each turn from turn 0 on. `sums` are what it pays.
fn begin_end(side: &Role<'_>, tally: &mut Tally, end: u32, sums: &[i128])
    requires end { end < end_count (side_frame side.now) }
    requires long { end_classes (side_frame side.now) (side_lists side.now) end ≤ length sums.now }
    requires few { (c : ℕ) → IsClass (side_lists side.now) (round_of (side_frame side.now) (at_end end)) c
        → unsigned_abs (get_or sums.now (c - 1) (pos 0)) < 2 ^ 63 }
    requires room { HasTallyRoom (side_frame side.now) (side_lists side.now) tally.old }
    ensures kept { KeepsChoices (side_frame side.now) (side_lists side.now) tally.old tally.new }
    ensures begun { HasRisen (side_frame side.now) (side_lists side.now) side.now.player end (λ c. get_or sums.now (c - 1) (pos 0)) 0 tally.old tally.new }
{
    let Some(way) = way_to_end(side, end) else {
        return;
    };
    for class in 1..side.form.class_total(way.round) + 1 {
        let more = sums[class as usize - 1] as i64;
        turn_end(side, tally, way, class, more, 0);
    }
}

/// Adds what all ends pay each class against a plan of total 1, in each turn from turn 0 on. `sums` and `numbers` are scratch rows with an entry for
/// each class of any round.
fn begin_ends(
    side: &Role<'_>,
    tally: &mut Tally,
    other: &Plan,
    sums: &mut [i128],
    numbers: &mut [u64],
)
    requires other { IsPlanOf (side_frame side.now) (side_lists side.now) (other_player side.now.player) other.now }
    requires one { other.now.total ≡ 1 }
    requires sums { IsWide (side_frame side.now) (side_lists side.now) (length sums.old) }
    requires numbers { IsWide (side_frame side.now) (side_lists side.now) (length numbers.old) }
    requires room { HasTallyRoom (side_frame side.now) (side_lists side.now) tally.old }
    ensures kept { KeepsChoices (side_frame side.now) (side_lists side.now) tally.old tally.new }
    ensures begun { let f = side_frame side.now in let lists = side_lists side.now in let player = side.now.player in
        IsTally f lists player (λ z c. pos 0) (λ z c. pos 0) 0 tally.old
        → IsTally f lists player (λ z c. pos 0) (end_sum f lists player (class_plan f lists other.now)) 0 tally.new }
{
    for end in 0..side.form.end_total() {
        side.form.end_sums(side.player, other, end, sums, numbers);
        begin_end(side, tally, end, sums);
    }
}

/// Adds what all ends pay each class against a plan of total 1, in each turn from turn 0 on.
pub(crate) fn begin(
    alloc: Global,
    side: &Role<'_>,
    tally: &mut Tally,
    other: &Plan,
) -> Result<(), AllocError>
    requires other { IsPlanOf (side_frame side.now) (side_lists side.now) (other_player side.now.player) other.now }
    requires one { other.now.total ≡ 1 }
    requires room { HasTallyRoom (side_frame side.now) (side_lists side.now) tally.old }
    ensures kept { KeepsChoices (side_frame side.now) (side_lists side.now) tally.old tally.new }
    ensures begun { let f = side_frame side.now in let lists = side_lists side.now in let player = side.now.player in
        OnOk result (IsTally f lists player (λ z c. pos 0) (λ z c. pos 0) 0 tally.old
        → IsTally f lists player (λ z c. pos 0) (end_sum f lists player (class_plan f lists other.now)) 0 tally.new) }
{
    let wide = widest(side.form) as usize;
    let mut sums = vec![in alloc; 0i128; wide]?;
    let mut numbers = vec![in alloc; 0u64; wide]?;
    begin_ends(side, tally, other, &mut sums, &mut numbers);
    Ok(())
}
