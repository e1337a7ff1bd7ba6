//! What two plans pay.

ghost use Rattle.std.specs.Prelude.{◌≡◌, ◌*◌, ◌<◌, ◌≤◌, ◌^◌, ◌+ℤ◌, ◌*ℤ◌, ℕ, length, pos, unsigned_abs};
ghost use Rattle.gs_game.specs.Seen.{end_of};
ghost use Rattle.gs_seq.specs.Payoffs.{pair_pays};

use crate::form::Abstract;
use crate::numbers::{PlanAtEnd, plus, scaled};
use crate::pair::Pair;
use crate::pairs::Pairs;
use crate::plan::Plan;
use crate::weighing::{chips_at, chips_times, weight_at};
use gs_game::End;

/// Returns `number` times what an end pays a player in the deals of a pair.
pub(crate) fn times_pays(number: u64, player: u8, end: End, pair: Pair) -> i128
    requires few { pair.weight ≤ 67108864 }
    requires moderate { unsigned_abs pair.signed ≤ 9 * pair.weight }
    requires number { number ≤ 2 ^ 36 }
    ensures { result ≡ pos number *ℤ pair_pays player (end_of end) pair }
{
    let weight = i128::from(weight_at(end, pair));
    scaled(number, chips_times(chips_at(player, end), weight))
}

/// Returns `sum` plus `number` times what an end pays a player in the deals of a pair.
pub(crate) fn add_pays(sum: i128, number: u64, player: u8, end: End, pair: Pair) -> i128
    requires few { pair.weight ≤ 67108864 }
    requires moderate { unsigned_abs pair.signed ≤ 9 * pair.weight }
    requires number { number ≤ 2 ^ 36 }
    requires fits { unsigned_abs (sum +ℤ pos number *ℤ pair_pays player (end_of end) pair) < 2 ^ 127 }
    ensures { result ≡ sum +ℤ pos number *ℤ pair_pays player (end_of end) pair }
{
    plus(sum, times_pays(number, player, end, pair))
}

impl<'a> Abstract<'a> {
    ghost use Rattle.gs_model.specs.{Classes.{IsClass}, Frame.{end_count, other_player, round_of}, Payoff.{raw_payoff}, Positions.{at_end}};
    ghost use Rattle.gs_seq.specs.{Abstracts.{abstract_frame, lists_of}, AtEnds.{IsOfForm}, Payoffs.{end_classes, end_sum, payoff_at}};
    ghost use Rattle.gs_seq.specs.{Plans.{IsPlanOf, class_plan, lifted}, Rows.{IsRow}};

    /// Returns what an end pays a player at the player's class against a plan of the other player.
    /// This is the sum, over the other's classes, of the plan's number times what the end pays in the deals of both classes.
    /// It takes no memory; walks over all classes take `end_sums`.
    pub fn end_sum(&self, player: u8, other: &Plan, end: u32, class: u32) -> i128
        requires some { 0 < player }
        requires two { player ≤ 2 }
        requires other { IsPlanOf (abstract_frame self.now) (lists_of self.now) (other_player player) other.now }
        requires end { end < end_count (abstract_frame self.now) }
        requires class { IsClass (lists_of self.now) (round_of (abstract_frame self.now) (at_end end)) class }
        ensures { result ≡ end_sum (abstract_frame self.now) (lists_of self.now) player
            (class_plan (abstract_frame self.now) (lists_of self.now) other.now) end class }
    {
        let at = self.plan_at(other, end);
        let row = self.pairs(self.end_in(end).round, class);
        self.row_worth(player, &at, class, row)
    }

    /// Returns `end_sum` from the pairs `row` of the class. `other` is the other player's plan, at the end.
    fn row_worth(&self, player: u8, other: &PlanAtEnd<'_>, class: u32, row: Pairs<'_>) -> i128
        requires some { 0 < player }
        requires two { player ≤ 2 }
        requires other { IsPlanOf (abstract_frame self.now) (lists_of self.now) (other_player player) other.now.plan.now }
        requires form { IsOfForm self.now other.now }
        requires end { other.now.end < end_count (abstract_frame self.now) }
        requires row { IsRow (abstract_frame self.now) (lists_of self.now) (round_of (abstract_frame self.now) (at_end other.now.end)) class row }
        ensures { result ≡ end_sum (abstract_frame self.now) (lists_of self.now) player
            (class_plan (abstract_frame self.now) (lists_of self.now) other.now.plan.now) other.now.end class }
    {
        let at = self.end_in(other.end);
        let mut sum = 0i128;
        for pair in row {
            let number = self.number_at(other, pair.two);
            sum = add_pays(sum, number, player, at, pair);
        }
        sum
    }

    /// Returns what the plans `x` of player 1 and `y` of player 2 pay player 1. The unit is chips times the weight of all deals times both totals.
    ///
    /// Allocates no memory.
    pub fn payoff(&self, x: &Plan, y: &Plan) -> i128
        requires x { IsPlanOf (abstract_frame self.now) (lists_of self.now) 1 x.now }
        requires y { IsPlanOf (abstract_frame self.now) (lists_of self.now) 2 y.now }
        ensures { result ≡ raw_payoff (abstract_frame self.now) (lifted (abstract_frame self.now) (lists_of self.now) x.now)
            (lifted (abstract_frame self.now) (lists_of self.now) y.now) }
    {
        let mut sum = 0i128;
        for end in 0..self.end_total() {
            sum = plus(sum, self.payoff_at(x, y, end));
        }
        sum
    }

    /// Returns what two plans pay player 1 at an end, class by class of player 1.
    fn payoff_at(&self, x: &Plan, y: &Plan, end: u32) -> i128
        requires x { IsPlanOf (abstract_frame self.now) (lists_of self.now) 1 x.now }
        requires y { IsPlanOf (abstract_frame self.now) (lists_of self.now) 2 y.now }
        requires end { end < end_count (abstract_frame self.now) }
        ensures { result ≡ payoff_at (abstract_frame self.now) (lists_of self.now) (class_plan (abstract_frame self.now) (lists_of self.now) x.now)
            (class_plan (abstract_frame self.now) (lists_of self.now) y.now) end }
    {
        let mut sum = 0i128;
        for before in 0..self.end_class_total(end) {
            let number = self.number_at_end(x, end, before + 1);
            let worth = self.end_sum(1, y, end, before + 1);
            sum = plus(sum, scaled(number, worth));
        }
        sum
    }

    /// Returns what the plans `x` of player 1 and `y` of player 2 pay player 1, in the unit of `payoff`. Reads what an end pays for all classes at once.
    /// `sums` and `numbers` are scratch room for that: each has at least one entry for each class of any end's round.
    pub fn payoff_in(&self, x: &Plan, y: &Plan, sums: &mut [i128], numbers: &mut [u64]) -> i128
        requires x { IsPlanOf (abstract_frame self.now) (lists_of self.now) 1 x.now }
        requires y { IsPlanOf (abstract_frame self.now) (lists_of self.now) 2 y.now }
        requires sums { (z : ℕ) → z < end_count (abstract_frame self.now) → end_classes (abstract_frame self.now) (lists_of self.now) z ≤ length sums.old }
        requires numbers { (z : ℕ) → z < end_count (abstract_frame self.now)
            → end_classes (abstract_frame self.now) (lists_of self.now) z ≤ length numbers.old }
        ensures { result ≡ raw_payoff (abstract_frame self.now) (lifted (abstract_frame self.now) (lists_of self.now) x.now)
            (lifted (abstract_frame self.now) (lists_of self.now) y.now) }
    {
        let mut sum = 0i128;
        for end in 0..self.end_total() {
            sum = plus(sum, self.payoff_read(x, y, end, sums, numbers));
        }
        sum
    }

    /// Returns what two plans pay player 1 at an end, read for all classes of player 1 at once.
    fn payoff_read(
        &self,
        x: &Plan,
        y: &Plan,
        end: u32,
        sums: &mut [i128],
        numbers: &mut [u64],
    ) -> i128
        requires x { IsPlanOf (abstract_frame self.now) (lists_of self.now) 1 x.now }
        requires y { IsPlanOf (abstract_frame self.now) (lists_of self.now) 2 y.now }
        requires end { end < end_count (abstract_frame self.now) }
        requires sums { end_classes (abstract_frame self.now) (lists_of self.now) end ≤ length sums.old }
        requires numbers { end_classes (abstract_frame self.now) (lists_of self.now) end ≤ length numbers.old }
        ensures { result ≡ payoff_at (abstract_frame self.now) (lists_of self.now) (class_plan (abstract_frame self.now) (lists_of self.now) x.now)
            (class_plan (abstract_frame self.now) (lists_of self.now) y.now) end }
    {
        self.end_sums(1, y, end, sums, numbers);
        let own = self.plan_at(x, end);
        let mut sum = 0i128;
        for before in 0..self.end_class_total(end) {
            let number = self.number_at(&own, before + 1);
            sum = plus(sum, scaled(number, sums[before as usize]));
        }
        sum
    }
}
