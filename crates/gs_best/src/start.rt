//! The best total of a player: the sum of the player's best class totals at the start.

ghost use Rattle.std.specs.Prelude.{◌≤◌, ◌^◌, length, unsigned_abs};
ghost use Rattle.gs_seq.specs.Plans.{lifted};
ghost use Rattle.gs_best.specs.{ClassTotals.{IsBestTotal, AreBestTotals}, Rooms.{HasRows, IsLaid, IsWide}};
ghost use Rattle.gs_best.specs.Sides.{frame_at, lists_at, picks_at, plan_at, totals_at};

use crate::gathering::sum_between;
use crate::side::Side;
use crate::tables::{Scratch, Table};
use crate::targets::row_to;
use crate::walk::backward;

/// Returns what a player's best raw plan of total 1 gains, from the player's best class totals: their sum at the start.
fn start_total(side: &Side<'_>, table: &Table, row: &mut [i128], numbers: &mut [u64]) -> i128
    requires laid { IsLaid (frame_at side.now) (lists_at side.now) table.now }
    requires row { IsWide (frame_at side.now) (lists_at side.now) (length row.old) }
    requires numbers { IsWide (frame_at side.now) (lists_at side.now) (length numbers.old) }
    requires best { AreBestTotals (frame_at side.now) (lists_at side.now) side.now.player (plan_at side.now) (totals_at side.now table.now.totals.items)
        (picks_at side.now table.now.picks.items) }
    ensures total { IsBestTotal (frame_at side.now) (lists_at side.now) side.now.player
        (lifted (frame_at side.now) (lists_at side.now) side.now.other.now) result }
    ensures small { unsigned_abs result ≤ 2 ^ 74 }
{
    let target = side.form.start_at();
    let totals = row_to(side, &table.starts, 0, &table.totals, target, row, numbers);
    let count = side.form.class_total(totals.round) as usize;
    sum_between(totals.values, totals.start, totals.start + count)
}

/// Returns what a player's best raw plan of total 1 gains against the other's plan. Allocates no memory.
pub fn best_total(side: &Side<'_>, table: &mut Table, scratch: &mut Scratch) -> i128
    requires laid { IsLaid (frame_at side.now) (lists_at side.now) table.old }
    requires rows { HasRows (frame_at side.now) (lists_at side.now) scratch.old }
    ensures total { IsBestTotal (frame_at side.now) (lists_at side.now) side.now.player
        (lifted (frame_at side.now) (lists_at side.now) side.now.other.now) result }
    ensures small { unsigned_abs result ≤ 2 ^ 74 }
    ensures laid { IsLaid (frame_at side.now) (lists_at side.now) table.new }
    ensures rows { HasRows (frame_at side.now) (lists_at side.now) scratch.new }
{
    backward(side, table, scratch);
    start_total(side, table, &mut scratch.ends, &mut scratch.numbers)
}
