//! What moves are worth to all members of a class together.

ghost use Rattle.std.specs.Prelude.{◌+◌, ◌<◌, ◌≤◌, length};
ghost use Rattle.gs_game.specs.Seen.{target_of};
ghost use Rattle.gs_model.specs.{Classes.{class_count}, Frame.{move_count}, FrameFacts.{IsInside}};
ghost use Rattle.gs_best.specs.{Rows.{AreWorths}, ClassTotals.{total_worth}, LaterRows.{AreLaidFrom, IsLaidBehind, IsRowOf, later_totals}};
ghost use Rattle.gs_best.specs.{Rooms.{IsWide, IsWideEarlier}, Sides.{frame_at, lists_at}, WalkPoints.{frame_on, lists_on, totals_on}};

use crate::class_row::ClassRow;
use crate::gathering::read_row;
use crate::side::Side;
use crate::walk_point::WalkPoint;
use gs_game::Target;

/// Returns the class totals at a position. Those of a point are read where they stand: `totals` has them from the place `from` of a table on. Those of an
/// end are added up and written into `row`.
pub(crate) fn row_to<'r>(
    side: &Side<'_>,
    starts: &[u32],
    from: usize,
    totals: &'r [i128],
    target: Target,
    row: &'r mut [i128],
    numbers: &mut [u64],
) -> ClassRow<'r>
    requires inside { IsInside (frame_at side.now) (target_of target) }
    requires laid { AreLaidFrom (frame_at side.now) (lists_at side.now) starts.now from totals.now }
    requires behind { IsLaidBehind (frame_at side.now) (lists_at side.now) from (target_of target) }
    requires row { IsWide (frame_at side.now) (lists_at side.now) (length row.old) }
    requires numbers { IsWide (frame_at side.now) (lists_at side.now) (length numbers.old) }
    ensures held { IsRowOf (frame_at side.now) (lists_at side.now) (later_totals side.now from totals.now) (target_of target) result }
    ensures room { result.start + class_count (lists_at side.now) result.round ≤ length result.values.now }
{
    let form = side.form;
    match target {
        Target::Point(point) => ClassRow {
            round: form.round_at(point),
            values: totals,
            start: starts[point as usize] as usize - from,
        },
        Target::End(end) => {
            let round = form.end_round(end);
            form.end_sums(side.player, side.other, end, row, numbers);
            ClassRow {
                round,
                values: row,
                start: 0,
            }
        }
    }
}

/// Returns what a move of a point is worth to each class of the point's round. May overwrite `row`, `numbers` and `worths`.
pub(crate) fn read_worths<'r>(
    at: &'r WalkPoint<'_, '_>,
    choice: u8,
    row: &'r mut [i128],
    numbers: &mut [u64],
    worths: &'r mut [i128],
) -> &'r [i128]
    requires choice { choice < move_count (frame_on at.now) at.now.point }
    requires row { IsWide (frame_on at.now) (lists_on at.now) (length row.old) }
    requires numbers { IsWide (frame_on at.now) (lists_on at.now) (length numbers.old) }
    requires wide { IsWideEarlier (frame_on at.now) (lists_on at.now) (length worths.old) }
    ensures worths { AreWorths (frame_on at.now) (lists_on at.now) (total_worth (frame_on at.now) (lists_on at.now) (totals_on at.now)) at.now.point
        choice result.now }
    ensures long { at.now.count ≤ length result.now }
{
    let target = at.side.form.target_at(at.point, choice);
    let below = row_to(&at.side, at.starts, at.from, at.later, target, row, numbers);
    read_row(at.side.form, below, at.round, worths)
}
