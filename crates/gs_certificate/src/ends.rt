//! What ends pay a player, end by end and class by class. Both the check of a certificate and the payoff read it.

ghost use Rattle.std.specs.Prelude.{◌≡◌, ◌<◌, IfOk, length};
ghost use Rattle.gs_model.specs.{Classes.{IsClass}, Frame.{end_count, round_of}, Payoff.{raw_payoff}, Positions.{at_end}};
ghost use Rattle.gs_seq.specs.{Payoffs.{end_sum, payoff_at}, Plans.{IsPlanOf, class_plan, lifted}};
ghost use Rattle.gs_best.specs.{Rooms.{IsWide}, Sides.{frame_at, lists_at, plan_at}};
ghost use Rattle.gs_certificate.specs.Paid.{AreSumsPaid};

use crate::claim::Claim;
use gs_best::{Side, widest};
use gs_seq::{Plan, plus, scaled};
use std::alloc::{AllocError, Global};

/// What each end pays the members of each class of its round together, end by end, and the place of each end's first class.
#[derive(Drop)]
pub(crate) struct EndSums {
    pub(crate) starts: Vec<usize>,
    pub(crate) sums: Vec<i128>,
}

/// Returns what all ends pay a player. `row` and `numbers` are scratch rows, long enough for the classes of any round.
fn sums_in(
    alloc: Global,
    side: &Side<'_>,
    row: &mut [i128],
    numbers: &mut [u64],
) -> Result<EndSums, AllocError>
    requires row { IsWide (frame_at side.now) (lists_at side.now) (length row.old) }
    requires wide { IsWide (frame_at side.now) (lists_at side.now) (length numbers.old) }
    ensures { let s = side.now in IfOk result (AreSumsPaid (frame_at s) (lists_at s) s.player (plan_at s)) }
{
    let ends = side.form.end_total();
    let mut starts = Vec::with_capacity(alloc, ends as usize)?;
    let mut sums = Vec::new(alloc);
    for end in 0..ends {
        let count = side.form.class_total(side.form.end_round(end)) as usize;
        side.form
            .end_sums(side.player, side.other, end, row, numbers);
        starts.push(sums.len())?;
        sums.extend_from_slice(&row[..count])?;
    }
    Ok(EndSums { starts, sums })
}

/// Returns what all ends pay a player against the other's plan.
pub(crate) fn sums_of(alloc: Global, side: &Side<'_>) -> Result<EndSums, AllocError>
    ensures { let s = side.now in IfOk result (AreSumsPaid (frame_at s) (lists_at s) s.player (plan_at s)) }
{
    let wide = widest(side.form) as usize;
    let mut row = vec![in alloc; 0i128; wide]?;
    let mut numbers = vec![in alloc; 0u64; wide]?;
    sums_in(alloc, side, &mut row, &mut numbers)
}

/// Returns what an end pays the members of a class of its round together, from the kept sums.
fn kept_at(side: &Side<'_>, ends: &EndSums, end: u32, class: u32) -> i128
    requires ends { let s = side.now in AreSumsPaid (frame_at s) (lists_at s) s.player (plan_at s) ends.now }
    requires end { end < end_count (frame_at side.now) }
    requires class { IsClass (lists_at side.now) (round_of (frame_at side.now) (at_end end)) class }
    ensures { let s = side.now in result ≡ end_sum (frame_at s) (lists_at s) s.player (plan_at s) end class }
{
    ends.sums[ends.starts[end as usize] + class as usize - 1]
}

/// Returns what an end pays the members of a class of its round together: read if it is kept, else added up.
pub(crate) fn paid_at(claim: &Claim<'_>, end: u32, class: u32) -> i128
    requires end { end < end_count (frame_at claim.now.side) }
    requires class { IsClass (lists_at claim.now.side) (round_of (frame_at claim.now.side) (at_end end)) class }
    ensures { let s = claim.now.side in result ≡ end_sum (frame_at s) (lists_at s) s.player (plan_at s) end class }
{
    let side = &claim.side;
    match claim.ends {
        Some(kept) => kept_at(side, kept, end, class),
        None => side.form.end_sum(side.player, side.other, end, class),
    }
}

/// Returns what plan `x` of player 1 and the other's plan pay player 1 at an end, by what the end pays player 1's classes.
fn end_paid(first: &Side<'_>, x: &Plan, ends: &EndSums, end: u32) -> i128
    requires first { first.now.player ≡ 1 }
    requires x { IsPlanOf (frame_at first.now) (lists_at first.now) 1 x.now }
    requires ends { let s = first.now in AreSumsPaid (frame_at s) (lists_at s) s.player (plan_at s) ends.now }
    requires end { end < end_count (frame_at first.now) }
    ensures { let f = frame_at first.now in let lists = lists_at first.now in
        result ≡ payoff_at f lists (class_plan f lists x.now) (plan_at first.now) end }
{
    let mut sum = 0i128;
    for before in 0..first.form.class_total(first.form.end_round(end)) {
        let number = first.form.number_at_end(x, end, before + 1);
        sum = plus(sum, scaled(number, kept_at(first, ends, end, before + 1)));
    }
    sum
}

/// Returns what plan `x` of player 1 and the other's plan pay player 1, by what ends pay player 1's classes.
pub(crate) fn plans_pay(first: &Side<'_>, x: &Plan, ends: &EndSums) -> i128
    requires first { first.now.player ≡ 1 }
    requires x { IsPlanOf (frame_at first.now) (lists_at first.now) 1 x.now }
    requires ends { let s = first.now in AreSumsPaid (frame_at s) (lists_at s) s.player (plan_at s) ends.now }
    ensures { let f = frame_at first.now in let lists = lists_at first.now in
        result ≡ raw_payoff f (lifted f lists x.now) (lifted f lists first.now.other.now) }
{
    let mut sum = 0i128;
    for end in 0..first.form.end_total() {
        sum = plus(sum, end_paid(first, x, ends, end));
    }
    sum
}
