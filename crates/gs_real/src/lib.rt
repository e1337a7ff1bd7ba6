//! Laws that nothing stands on: no strategy gains more than a gap, whatever kind of numbers its probabilities are; and behaviour strategies are plans.
//!
//! The crate runs nothing: a function here is a law, and its contract is the statement.
#![tactic(auto)]

ghost use Rattle.std.specs.Prelude.{ℕ, ℤ};
ghost use Rattle.gs_real.specs.{Behaviour.{BehaviourIsAPlan}, Laws.{NoPlanGainsMore, WholesAreOne}, Numbers.{OrderedGroup}};

/// No plan of either player gains more than the gap of two plans' verdict, whatever ordered group its numbers are of: the real numbers are one.
pub fn no_plan_gains_more<A, P>()
    ensures { (g : OrderedGroup A P) → NoPlanGainsMore g }
{}

/// The whole numbers are an ordered group; in them raw plans are plans, and gain the same.
pub fn whole_numbers_are_one()
    ensures { (g : OrderedGroup ℤ ℕ) × WholesAreOne g }
{}

/// A behaviour strategy whose probabilities are fractions is a raw plan.
pub fn behaviour_is_a_plan()
    ensures { BehaviourIsAPlan }
{}
