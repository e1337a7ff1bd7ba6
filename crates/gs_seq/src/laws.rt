//! Laws of the sums by pairs of classes, and of plans.

ghost use Rattle.gs_seq.specs.{Exchange.{PairsAreExchanged}, Laws.{PlansHaveNoFault}};

/// Proves that exchanging the players keeps the weight of a pair of classes and negates its signed weight. So player 2 reads the same sums as player 1.
pub fn pairs_are_exchanged()
    ensures { PairsAreExchanged }
{}

/// Proves that a total and weights that form a plan have no fault.
pub fn plans_have_no_fault()
    ensures { PlansHaveNoFault }
{}
