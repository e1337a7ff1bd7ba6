//! The verdict on two plans.

ghost use Rattle.std.specs.Prelude.{◌≡◌};
ghost use Rattle.gs_model.specs.{Payoff.{raw_payoff}, Verdict.{IsVerdict}};
ghost use Rattle.gs_seq.specs.{Abstracts.{abstract_frame, lists_of}, Plans.{IsPlanOf, lifted}};
ghost use Rattle.gs_best.specs.{Rooms.{HasRows}, Judged.{parts}, Sizes.{sizes_of}};

use crate::numbers::judged;
use crate::side::Side;
use crate::start::best_total;
use crate::tables::{Scratch, lay_out};
use crate::work::Work;
use gs_frac::Verdict;
use gs_seq::{Abstract, Plan};

/// Returns what two plans pay player 1, in chips times the weight of all deals times both totals.
fn plans_pay(form: &Abstract, one: &Plan, two: &Plan, scratch: &mut Scratch) -> i128
    requires one { IsPlanOf (abstract_frame form.now) (lists_of form.now) 1 one.now }
    requires two { IsPlanOf (abstract_frame form.now) (lists_of form.now) 2 two.now }
    requires room { HasRows (abstract_frame form.now) (lists_of form.now) scratch.old }
    ensures paid { let f = abstract_frame form.now in let lists = lists_of form.now in
        result ≡ raw_payoff f (lifted f lists one.now) (lifted f lists two.now) }
    ensures room { HasRows (abstract_frame form.now) (lists_of form.now) scratch.new }
{
    form.payoff_in(one, two, &mut scratch.ends, &mut scratch.numbers)
}

/// Returns the verdict on a plan of player 1 and one of player 2: what they pay player 1, and what each player could still gain with any raw plan.
/// The numbers are in chips: divided by the weight of all deals and by both totals. Allocates no memory.
/// A gap is one side of exploitability; both gaps together are called NashConv.
pub fn verdict(form: &Abstract, one: &Plan, two: &Plan, work: &mut Work) -> Verdict
    requires one { IsPlanOf (abstract_frame form.now) (lists_of form.now) 1 one.now }
    requires two { IsPlanOf (abstract_frame form.now) (lists_of form.now) 2 two.now }
    requires room { work.old ≡ sizes_of (abstract_frame form.now) (lists_of form.now) }
    ensures room { work.new ≡ work.old }
    ensures verdict { let f = abstract_frame form.now in let lists = lists_of form.now in
        IsVerdict f (lifted f lists one.now) (lifted f lists two.now) (parts result.value) (parts result.gap1) (parts result.gap2) }
{
    let first = Side {
        form,
        player: 1,
        other: two,
    };
    let second = Side {
        form,
        player: 2,
        other: one,
    };
    lay_out(form, &mut work.table);
    let best = (
        best_total(&first, &mut work.table, &mut work.scratch),
        best_total(&second, &mut work.table, &mut work.scratch),
    );
    let paid = plans_pay(form, one, two, &mut work.scratch);
    judged(form.deal_weight(), (one.total, two.total), best, paid)
}
