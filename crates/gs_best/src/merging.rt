//! The class totals of a point, from what its moves are worth.

ghost use Rattle.std.specs.Prelude.{◌≤◌, length};
ghost use Rattle.gs_best.specs.{ClassTotals.{total_worth}, Rooms.{IsWide, IsWideEarlier}};
ghost use Rattle.gs_best.specs.{Rows.{IsMerged}, WalkPoints.{frame_on, lists_on, totals_on}};

use crate::raising::{add, raise};
use crate::targets::read_worths;
use crate::walk_point::WalkPoint;

/// Writes the class totals of a point for each class of its round: the greatest worth of a move, with the first move that has it, if the player chooses there,
/// else the sum of the worths of all moves.
pub(crate) fn merge_moves(
    at: &WalkPoint<'_, '_>,
    row: &mut [i128],
    numbers: &mut [u64],
    worths: &mut [i128],
    best: &mut [i128],
    moves: &mut [u8],
)
    requires row { IsWide (frame_on at.now) (lists_on at.now) (length row.old) }
    requires numbers { IsWide (frame_on at.now) (lists_on at.now) (length numbers.old) }
    requires worths { IsWideEarlier (frame_on at.now) (lists_on at.now) (length worths.old) }
    requires best { at.now.count ≤ length best.old }
    requires moves { at.now.count ≤ length moves.old }
    ensures { IsMerged (frame_on at.now) (lists_on at.now) at.now.side.player (total_worth (frame_on at.now) (lists_on at.now) (totals_on at.now))
        at.now.point best.new moves.new }
{
    for choice in 0..at.side.form.move_total(at.point) {
        let read = read_worths(&*at, choice, row, numbers, worths);
        if at.side.form.chooser(at.point) == at.side.player {
            raise(read, choice, at.count, best, moves);
        } else {
            add(read, choice, at.count, best);
        }
    }
}
