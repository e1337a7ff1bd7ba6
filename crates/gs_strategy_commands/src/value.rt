//! The value of two plans.

ghost use Rattle.std.specs.Prelude.{◌≡◌, ◌*◌, ◌<◌, ◌≤◌, ◌^◌};
ghost use Rattle.gs_model.specs.{Payoff.{raw_payoff}, Verdict.{IsValue}};
ghost use Rattle.gs_best.specs.Judged.{parts};
ghost use Rattle.gs_seq.specs.{Abstracts.{abstract_frame, lists_of}, Plans.{IsPlanOf, lifted}};

use gs_best::fraction;
use gs_frac::Fraction;
use gs_seq::{Abstract, Plan};

// Returns the weight of all deals times both totals.
fn scale_of(weight: u64, one: u64, two: u64) -> u128
    requires weight { (0 < weight) × (weight ≤ 2 ^ 26) }
    requires one { (0 < one) × (one ≤ 2 ^ 36) }
    requires two { (0 < two) × (two ≤ 2 ^ 36) }
    ensures value { result ≡ weight * one * two }
    ensures some { 0 < result }
    ensures few { result ≤ 2 ^ 98 }
{
    u128::from(weight * one) * u128::from(two)
}

/// Returns the value of a plan of player 1 and a plan of player 2 to player 1, in chips. This is the payoff `paid` over the weight of all deals times both
/// totals.
pub fn value_of(form: &Abstract, one: &Plan, two: &Plan, paid: i128) -> Fraction
    requires one { IsPlanOf (abstract_frame form.now) (lists_of form.now) 1 one.now }
    requires two { IsPlanOf (abstract_frame form.now) (lists_of form.now) 2 two.now }
    requires paid { paid ≡ raw_payoff (abstract_frame form.now) (lifted (abstract_frame form.now) (lists_of form.now) one.now)
        (lifted (abstract_frame form.now) (lists_of form.now) two.now) }
    ensures { let f = abstract_frame form.now in let lists = lists_of form.now in
        IsValue f (lifted f lists one.now) (lifted f lists two.now) (parts result).0 (parts result).1 }
{
    let scale = scale_of(form.deal_weight(), one.total, two.total);
    fraction(paid, scale as i128)
}
