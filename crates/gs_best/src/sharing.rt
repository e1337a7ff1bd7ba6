//! Values of members: each total over the size of its class.

ghost use Rattle.std.specs.Prelude.{◌≡◌, ◌+◌, ◌-◌, ◌<◌, ◌≤◌, ◌^◌, ◌*ℤ◌, ℕ, ℤ, get_or, length, pos, unsigned_abs};
ghost use Rattle.gs_model.specs.{BestAnswers.{IsBestValues, end_worth}, Classes.{IsClass, class_size, first_member}, Frame.{end_count, point_count, round_of}};
ghost use Rattle.gs_model.specs.Positions.{at_end, at_point};
ghost use Rattle.gs_seq.specs.Plans.{lifted};
ghost use Rattle.gs_best.specs.{Tables.{start_of, table_of}, ClassTotals.{AreBestTotals}, Rooms.{IsLaid}};
ghost use Rattle.gs_best.specs.Sides.{frame_at, lists_at, picks_at, plan_at, totals_at};

use crate::dividing::{over, size_of};
use crate::side::Side;
use crate::tables::Table;

/// Returns what an end is worth to each member of a class of its round: what all members together gain there, divided by their number.
pub fn end_value(side: &Side<'_>, end: u32, class: u32) -> i128
    requires end { end < end_count (frame_at side.now) }
    requires class { IsClass (lists_at side.now) (round_of (frame_at side.now) (at_end end)) class }
    ensures { let f = frame_at side.now in let lists = lists_at side.now in
        result ≡ end_worth f side.now.player (lifted f lists side.now.other.now) end (first_member lists (round_of f (at_end end)) class) }
{
    let together = side.form.end_sum(side.player, side.other, end, class);
    let members = size_of(side.form, side.form.end_round(end), class);
    over(together, members)
}

/// Writes the equal shares of members in the class totals of a point.
fn share_point(side: &Side<'_>, table: &Table, point: u32, values: &mut [i128])
    requires point { point < point_count (frame_at side.now) }
    requires laid { IsLaid (frame_at side.now) (lists_at side.now) table.now }
    requires room { start_of (frame_at side.now) (lists_at side.now) (point_count (frame_at side.now)) ≤ length values.old }
    ensures here { let f = frame_at side.now in let lists = lists_at side.now in
        (k : ℕ) (share : ℤ) → IsClass lists (round_of f (at_point point)) (k + 1) → get_or table.now.totals.items (start_of f lists point + k) (pos 0)
        ≡ share *ℤ pos (class_size lists (round_of f (at_point point)) (k + 1)) → get_or values.new (start_of f lists point + k) (pos 0) ≡ share }
    ensures before { (i : ℕ) → i < start_of (frame_at side.now) (lists_at side.now) point → get_or values.new i (pos 0) ≡ get_or values.old i (pos 0) }
{
    let round = side.form.round_at(point);
    let start = table.starts[point as usize] as usize;
    for class in 0..side.form.class_total(round) {
        let place = start + class as usize;
        values[place] = over(table.totals[place], size_of(side.form, round, class + 1));
    }
}

/// Writes the best values of members from best class totals, by point and then by class of the point's round.
pub fn share_all(side: &Side<'_>, table: &Table, values: &mut [i128])
    requires laid { IsLaid (frame_at side.now) (lists_at side.now) table.now }
    requires room { start_of (frame_at side.now) (lists_at side.now) (point_count (frame_at side.now)) ≤ length values.old }
    requires best { AreBestTotals (frame_at side.now) (lists_at side.now) side.now.player (plan_at side.now) (totals_at side.now table.now.totals.items)
        (picks_at side.now table.now.picks.items) }
    ensures small { (i : ℕ) → i < start_of (frame_at side.now) (lists_at side.now) (point_count (frame_at side.now))
        → unsigned_abs (get_or values.new i (pos 0)) ≤ 2 ^ 74 }
    ensures best { let f = frame_at side.now in let lists = lists_at side.now in let y = lifted f lists side.now.other.now in
        IsBestValues f lists side.now.player y (table_of f lists side.now.player y values.new) (picks_at side.now table.now.picks.items) }
{
    for point in 0..side.form.point_total() {
        share_point(side, table, point, values);
    }
}
