//! The values of the raw signals of round 1, from sums by pairs of raw signals: each end is read once, in its own round.

ghost use Rattle.std.specs.Prelude.{◌≡◌, ◌-◌, ◌*◌, ◌<◌, ◌≤◌, ◌^◌, IfOk, unsigned_abs};
ghost use Rattle.gs_filter.specs.Filter.{single_classes};
ghost use Rattle.gs_model.specs.{Frame.{end_count, round_of, signal_count}, Payoff.{hand_payoff}, Positions.{at_end}};
ghost use Rattle.gs_seq.specs.{Abstracts.{abstract_frame, lists_of}, Plans.{IsPlanOf, lifted}};
ghost use Rattle.gs_raw.specs.{Answers.{AreHandValuesOf, IsHandValueOf}, Hands.{hand_pays_at, signal_pays, signal_weighs, signals_pay}};

use crate::hands::{hand_weight, paid_over};
use gs_best::{Side, end_value, run_below};
use gs_frac::Fraction;
use gs_lossless::{Run, descendants};
use gs_seq::{Abstract, Plan, plus, scaled};
use std::alloc::{AllocError, Global};

/// A plan of player 1 and a plan of player 2 of a game in sequence form over single signals.
#[derive(Clone, Copy)]
pub(crate) struct Spread<'a> {
    pub(crate) form: &'a Abstract<'a>,
    pub(crate) one: &'a Plan,
    pub(crate) two: &'a Plan,
    pub ghost singles: { lists_of form.now ≡ single_classes (abstract_frame form.now).parents },
    pub ghost one_plan: { IsPlanOf (abstract_frame form.now) (lists_of form.now) 1 one.now },
    pub ghost two_plan: { IsPlanOf (abstract_frame form.now) (lists_of form.now) 2 two.now },
}

/// Returns what the deals of a signal of an end's round pay player 1 there.
fn signal_gain(side: &Spread<'_>, end: u32, signal: u32) -> i128
    requires end { end < end_count (abstract_frame side.now.form.now) }
    requires signal { signal < signal_count (abstract_frame side.now.form.now) (round_of (abstract_frame side.now.form.now) (at_end end)) }
    ensures value { let f = abstract_frame side.now.form.now in let lists = lists_of side.now.form.now in
        result ≡ signal_pays f (lifted f lists side.now.one.now) (lifted f lists side.now.two.now) end signal }
    ensures few { unsigned_abs result ≤ (2 ^ 84) * signal_weighs (abstract_frame side.now.form.now) end signal }
{
    let number = side.form.number_at_end(side.one, end, signal + 1);
    let facing = Side {
        form: side.form,
        player: 1,
        other: side.two,
    };
    scaled(number, end_value(&facing, end, signal + 1))
}

/// Returns what the deals of a run of signals of an end's round pay player 1 there.
fn signals_gain(side: &Spread<'_>, end: u32, run: Run) -> i128
    requires end { end < end_count (abstract_frame side.now.form.now) }
    requires ordered { run.first ≤ run.end }
    requires within { run.end ≤ signal_count (abstract_frame side.now.form.now) (round_of (abstract_frame side.now.form.now) (at_end end)) }
    ensures value { let f = abstract_frame side.now.form.now in let lists = lists_of side.now.form.now in
        result ≡ signals_pay f (lifted f lists side.now.one.now) (lifted f lists side.now.two.now) run.first (run.end - run.first) end }
    ensures few { unsigned_abs result ≤ 2 ^ 110 }
{
    let mut sum = 0i128;
    for signal in run.first..run.end {
        sum = plus(sum, signal_gain(side, end, signal));
    }
    sum
}

/// Returns what the deals of a raw signal of round 1 pay player 1 at an end.
fn end_gain(side: &Spread<'_>, end: u32, signal: u32) -> i128
    requires end { end < end_count (abstract_frame side.now.form.now) }
    requires signal { signal < signal_count (abstract_frame side.now.form.now) 1 }
    ensures value { let f = abstract_frame side.now.form.now in let lists = lists_of side.now.form.now in
        result ≡ hand_pays_at f (lifted f lists side.now.one.now) (lifted f lists side.now.two.now) signal end }
    ensures few { unsigned_abs result ≤ 2 ^ 110 }
{
    let run = run_below(side.form, 1, signal + 1, side.form.end_round(end));
    signals_gain(side, end, run)
}

/// Returns what the deals of a raw signal of round 1 pay player 1.
fn all_gain(side: &Spread<'_>, signal: u32) -> i128
    requires { signal < signal_count (abstract_frame side.now.form.now) 1 }
    ensures value { let f = abstract_frame side.now.form.now in let lists = lists_of side.now.form.now in
        result ≡ hand_payoff f (lifted f lists side.now.one.now) (lifted f lists side.now.two.now) signal }
    ensures few { unsigned_abs result < 2 ^ 127 }
{
    let mut sum = 0i128;
    for end in 0..side.form.end_total() {
        sum = plus(sum, end_gain(side, end, signal));
    }
    sum
}

/// Returns what a raw signal of round 1 is worth to player 1.
fn worth(side: &Spread<'_>, signal: u32) -> Fraction
    requires { signal < signal_count (abstract_frame side.now.form.now) 1 }
    ensures { let f = abstract_frame side.now.form.now in let lists = lists_of side.now.form.now in
        IsHandValueOf f lists side.now.one.now lists side.now.two.now signal result }
{
    let signals = side.form.lossless().signals();
    let run = descendants(signals, 1, signal);
    let weight = hand_weight(signals, signal, run);
    let paid = all_gain(side, signal);
    paid_over(paid, weight, side.one.total, side.two.total)
}

/// Returns what each raw signal of round 1 is worth to player 1, in order.
pub(crate) fn worths(alloc: Global, side: &Spread<'_>) -> Result<Vec<Fraction>, AllocError>
    ensures { let f = abstract_frame side.now.form.now in let lists = lists_of side.now.form.now in
        IfOk result (λ v. AreHandValuesOf f lists side.now.one.now lists side.now.two.now v.items) }
{
    let count = side.form.signal_total(1);
    let mut hands = Vec::with_capacity(alloc, count as usize)?;
    for signal in 0..count {
        hands.push(worth(side, signal))?;
    }
    Ok(hands)
}
