//! The weights and the shares of moves at a raw signal, by a plan over classes.

ghost use Rattle.std.specs.Prelude.{◌≡◌, ◌<◌, ◌^◌};
ghost use Rattle.gs_model.specs.{Frame.{move_count, player_at, point_count, round_of, signal_count}, Positions.{at_point}};
ghost use Rattle.gs_lift.specs.Mixtures.{IsShareOf, total_number};
ghost use Rattle.gs_seq.specs.{Abstracts.{abstract_frame, lists_of}, Plans.{IsPlanOf, lifted}};

use crate::spot::Spot;
use gs_frac::Fraction;
use gs_seq::{Abstract, Plan};

/// Returns the weight of a move at a raw signal, in the raw plan that a plan over classes stands for: the weight at the signal's class.
pub fn weight(a: &Abstract, plan: &Plan, point: u32, signal: u32, choice: u8) -> u64
    requires plan { IsPlanOf (abstract_frame a.now) (lists_of a.now) plan.now.player plan.now }
    requires point { point < point_count (abstract_frame a.now) }
    requires own { player_at (abstract_frame a.now) point ≡ plan.now.player }
    requires signal { signal < signal_count (abstract_frame a.now) (round_of (abstract_frame a.now) (at_point point)) }
    requires choice { choice < move_count (abstract_frame a.now) point }
    ensures { result ≡ (lifted (abstract_frame a.now) (lists_of a.now) plan.now).number point signal choice }
{
    let class = a.class_at(a.round_at(point), signal);
    plan.weights[a.slot(point, class, choice) as usize]
}

/// Returns the sum of the weights of all moves at a spot.
pub(crate) fn total_weight(a: &Abstract, plan: &Plan, spot: Spot) -> u128
    requires plan { IsPlanOf (abstract_frame a.now) (lists_of a.now) plan.now.player plan.now }
    requires point { spot.point < point_count (abstract_frame a.now) }
    requires own { player_at (abstract_frame a.now) spot.point ≡ plan.now.player }
    requires signal { spot.signal < signal_count (abstract_frame a.now) (round_of (abstract_frame a.now) (at_point spot.point)) }
    ensures value { result ≡ total_number (abstract_frame a.now) (lifted (abstract_frame a.now) (lists_of a.now) plan.now) spot.point spot.signal }
    ensures few { result < 2 ^ 127 }
{
    let mut total = 0u128;
    for choice in 0..a.move_total(spot.point) {
        total += u128::from(weight(a, plan, spot.point, spot.signal, choice));
    }
    total
}

/// Returns the share of a move at a spot: its weight over `total`, the sum of the weights of all moves there.
/// If the sum is 0, the first move has share 1 and the others 0.
pub(crate) fn share(a: &Abstract, plan: &Plan, spot: Spot, choice: u8, total: u128) -> Fraction
    requires plan { IsPlanOf (abstract_frame a.now) (lists_of a.now) plan.now.player plan.now }
    requires point { spot.point < point_count (abstract_frame a.now) }
    requires own { player_at (abstract_frame a.now) spot.point ≡ plan.now.player }
    requires signal { spot.signal < signal_count (abstract_frame a.now) (round_of (abstract_frame a.now) (at_point spot.point)) }
    requires choice { choice < move_count (abstract_frame a.now) spot.point }
    requires total { total ≡ total_number (abstract_frame a.now) (lifted (abstract_frame a.now) (lists_of a.now) plan.now) spot.point spot.signal }
    requires few { total < 2 ^ 127 }
    ensures { IsShareOf (abstract_frame a.now) (lifted (abstract_frame a.now) (lists_of a.now) plan.now) spot.point spot.signal choice result }
{
    if total == 0 {
        return Fraction::new(if choice == 0 { 1 } else { 0 }, 1);
    }
    let weight = weight(a, plan, spot.point, spot.signal, choice);
    Fraction::new(i128::from(weight), total as i128)
}
