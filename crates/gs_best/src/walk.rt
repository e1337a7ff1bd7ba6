//! The walk: class totals and first best moves at all points, by backward induction.

ghost use Rattle.std.specs.Prelude.{◌≡◌, ◌+◌, ◌<◌, ◌≤◌, ℕ, IfOk, drop, length, slice_index};
ghost use Rattle.gs_model.specs.Frame.{point_count};
ghost use Rattle.gs_best.specs.{ClassTotals.{AreBestTotals, total_worth}, Places.{AreBestFrom}, Rooms.{HasRows, IsLaid}, Filled.{IsFilled}};
ghost use Rattle.gs_best.specs.{LaterRows.{AreLaidFrom}, Rows.{IsMerged}, WalkPoints.{frame_on, lists_on, totals_on}, Tables.{start_of}};
ghost use Rattle.gs_best.specs.Sides.{frame_at, lists_at, picks_at, plan_at, totals_at};

use crate::merging::merge_moves;
use crate::side::Side;
use crate::tables::{Scratch, Table, room_for};
use crate::walk_point::WalkPoint;
use std::alloc::{AllocError, Global};

/// Writes the class totals of a point, and the first best moves if the player chooses there, into the lists from the place `start` on. `totals` ends with
/// the point's row.
fn fill_row(
    at: &WalkPoint<'_, '_>,
    start: usize,
    totals: &mut [i128],
    picks: &mut [u8],
    scratch: &mut Scratch,
)
    requires start { start + at.now.count ≡ length totals.old }
    requires picks { length totals.old ≤ length picks.old }
    requires rows { HasRows (frame_on at.now) (lists_on at.now) scratch.old }
    ensures rows { HasRows (frame_on at.now) (lists_on at.now) scratch.new }
    ensures merged { IsMerged (frame_on at.now) (lists_on at.now) at.now.side.player
        (total_worth (frame_on at.now) (lists_on at.now) (totals_on at.now)) at.now.point (drop start totals.new) (drop start picks.new) }
    ensures behind { (i : ℕ) → length totals.old ≤ i → slice_index picks.new i ≡ slice_index picks.old i }
{
    let end = totals.len();
    let best = &mut totals[start..end];
    let moves = &mut picks[start..end];
    merge_moves(
        at,
        &mut scratch.ends,
        &mut scratch.numbers,
        &mut scratch.worths,
        best,
        moves,
    );
}

/// Sets the class totals and first best moves of a point, from the totals of all later points. `starts` has for each point the place of its first total.
fn fill_point(
    side: &Side<'_>,
    starts: &[u32],
    point: u32,
    totals: &mut [i128],
    picks: &mut [u8],
    scratch: &mut Scratch,
)
    requires point { point < point_count (frame_at side.now) }
    requires laid { AreLaidFrom (frame_at side.now) (lists_at side.now) starts.now 0 totals.old }
    requires picks { start_of (frame_at side.now) (lists_at side.now) (point_count (frame_at side.now)) ≤ length picks.old }
    requires rows { HasRows (frame_at side.now) (lists_at side.now) scratch.old }
    requires later { AreBestFrom (frame_at side.now) (lists_at side.now) side.now.player (totals_at side.now totals.old) (picks_at side.now picks.old)
        (point + 1) }
    ensures rows { HasRows (frame_at side.now) (lists_at side.now) scratch.new }
    ensures known { AreBestFrom (frame_at side.now) (lists_at side.now) side.now.player (totals_at side.now totals.new) (picks_at side.now picks.new) point }
{
    let round = side.form.round_at(point);
    let start = starts[point as usize] as usize;
    let count = side.form.class_total(round) as usize;
    let from = start + count;
    let (front, later) = totals.split_at_mut(from);
    let at = WalkPoint {
        side: *side,
        starts,
        from,
        later,
        point,
        round,
        count,
    };
    fill_row(&at, start, front, picks, scratch);
}

/// Sets the class totals and first best moves of all points against the other's plan, the last point first.
/// What each end pays is added up once.
pub fn backward(side: &Side<'_>, table: &mut Table, scratch: &mut Scratch)
    requires laid { IsLaid (frame_at side.now) (lists_at side.now) table.old }
    requires rows { HasRows (frame_at side.now) (lists_at side.now) scratch.old }
    ensures laid { IsLaid (frame_at side.now) (lists_at side.now) table.new }
    ensures rows { HasRows (frame_at side.now) (lists_at side.now) scratch.new }
    ensures best { AreBestTotals (frame_at side.now) (lists_at side.now) side.now.player (plan_at side.now) (totals_at side.now table.new.totals.items)
        (picks_at side.now table.new.picks.items) }
{
    for point in (0..side.form.point_total()).rev() {
        fill_point(
            side,
            &table.starts,
            point,
            &mut table.totals,
            &mut table.picks,
            scratch,
        );
    }
}

/// Returns the table of a player's best class totals and first best moves against the other's plan.
pub fn filled(alloc: Global, side: &Side<'_>) -> Result<Table, AllocError>
    ensures { IfOk result (IsFilled side.now) }
{
    let (mut table, mut scratch) = room_for(alloc, side.form)?;
    backward(side, &mut table, &mut scratch);
    Ok(table)
}
