//! Class totals found again where they are due, from the last cell to the first.

ghost use Rattle.std.specs.Prelude.{◌≡◌, ◌+◌, ◌*◌, ◌<◌, ◌≤◌, ℕ, ℤ, MatchOption, length, slice_index};
ghost use Rattle.gs_model.specs.{Classes.{IsClass}, Positions.{at_point}};
ghost use Rattle.gs_seq.specs.Abstracts.{abstract_frame, lists_of};
ghost use Rattle.gs_best.specs.Tables.{classes_at};
ghost use Rattle.gs_play.specs.{DueTurns.{IsNoneDue}, Plots.{HasNoWay, IsCellOf, IsRowIn, IsWayIn, LeadsTo}, Sides.{side_frame, side_lists}};
ghost use Rattle.gs_play.specs.Tallies.{AreSmallAtEnds, FeedsAbove, HasTallyRoom, IsLineFound, IsSwept, IsTally, KeepsChoices, TellsMoves, up_of};

use crate::clock::Clock;
use crate::dues::{past_due, renew, set_due};
use crate::line::{Line, above, sum};
use crate::plot::{PointRow, Way};
use crate::role::Role;
use crate::tally::{Tally, add_up, choose};
use crate::ways::way_to_point;
use gs_seq::Abstract;

/// Adds a line to what a move is worth to the class above a class of the round to which it leads. The cell of that class is due.
pub(crate) fn feed(form: &Abstract, tally: &mut Tally, way: Way, class: u32, more: Line)
    requires way { IsWayIn (abstract_frame form.now) (lists_of form.now) way }
    requires class { IsClass (lists_of form.now) way.round class }
    requires room { HasTallyRoom (abstract_frame form.now) (lists_of form.now) tally.old }
    ensures kept { KeepsChoices (abstract_frame form.now) (lists_of form.now) tally.old tally.new }
    ensures class { IsClass (lists_of form.now) way.row.round (up_of (abstract_frame form.now) (lists_of form.now) way class) }
    ensures fed { FeedsAbove (abstract_frame form.now) (lists_of form.now) way class more tally.old tally.new }
{
    let up = form.class_above(way.round, way.row.round, class) as usize - 1;
    let place = way.row.worth + (up * way.row.moves + usize::from(way.choice));
    tally.worths[place] = sum(tally.worths[place], more);
    set_due(&mut tally.dues, way.row.cell + up, 0);
}

/// Finds the class total of a cell of a row again from the worths of its moves.
fn find(side: &Role<'_>, tally: &mut Tally, cell: usize, row: PointRow, clock: Clock)
    requires row { IsRowIn (side_frame side.now) (side_lists side.now) row }
    requires cell { IsCellOf (side_frame side.now) (side_lists side.now) row.point cell }
    requires room { HasTallyRoom (side_frame side.now) (side_lists side.now) tally.old }
    ensures room { HasTallyRoom (side_frame side.now) (side_lists side.now) tally.new }
    ensures found { IsLineFound side.now.player row cell clock.turn clock.last tally.old tally.new }
    ensures tells { TellsMoves (side_frame side.now) (side_lists side.now) tally.old tally.new }
{
    let first = row.worth + (cell - row.cell) * row.moves;
    if row.player == side.player {
        choose(tally, row.point as usize, cell, first, row.moves, clock);
    } else {
        add_up(tally, cell, first, row.moves, clock.last);
    }
}

/// Finds the class total of a cell of a row again. If it has changed, the worth that it counts for changes as much. `way` leads to the row's point.
fn settle(
    side: &Role<'_>,
    tally: &mut Tally,
    cell: usize,
    row: PointRow,
    way: Option<Way>,
    clock: Clock,
)
    requires row { IsRowIn (side_frame side.now) (side_lists side.now) row }
    requires cell { IsCellOf (side_frame side.now) (side_lists side.now) row.point cell }
    requires way { MatchOption way (HasNoWay (side_frame side.now) (at_point row.point))
        (LeadsTo (side_frame side.now) (side_lists side.now) (at_point row.point)) }
    requires room { HasTallyRoom (side_frame side.now) (side_lists side.now) tally.old }
    ensures room { HasTallyRoom (side_frame side.now) (side_lists side.now) tally.new }
    ensures later { clock.turn < slice_index tally.new.dues.turns.items cell }
    ensures behind { (k : ℕ) → cell < k → slice_index tally.new.dues.turns.items k ≡ slice_index tally.old.dues.turns.items k }
    ensures tells { TellsMoves (side_frame side.now) (side_lists side.now) tally.old tally.new }
    ensures kept { (pays rise : ℕ → ℕ → ℤ) → AreSmallAtEnds (side_frame side.now) (side_lists side.now) side.now.player pays rise
        → IsNoneDue tally.old.dues.turns.items (cell + 1) (length tally.old.dues.turns.items) clock.turn
        → IsTally (side_frame side.now) (side_lists side.now) side.now.player pays rise clock.turn tally.old
        → IsTally (side_frame side.now) (side_lists side.now) side.now.player pays rise clock.turn tally.new }
{
    let old = tally.totals[cell];
    find(side, tally, cell, row, clock);
    let new = tally.totals[cell];
    if new == old {
        return;
    }
    if let Some(way) = way {
        let class = (cell - row.cell) as u32 + 1;
        feed(side.form, tally, way, class, above(new, old));
    }
}

/// Finds the class totals of some cells of a row again that are due in the turn at hand: from `from` up to but not including `stop`.
fn sweep_row(
    side: &Role<'_>,
    tally: &mut Tally,
    row: PointRow,
    from: usize,
    stop: usize,
    clock: Clock,
)
    requires row { IsRowIn (side_frame side.now) (side_lists side.now) row }
    requires from { row.cell ≤ from }
    requires run { from ≤ stop }
    requires below { stop ≤ row.cell + classes_at (side_frame side.now) (side_lists side.now) row.point }
    requires room { HasTallyRoom (side_frame side.now) (side_lists side.now) tally.old }
    requires behind { IsNoneDue tally.old.dues.turns.items stop (length tally.old.dues.turns.items) clock.turn }
    ensures settled { IsNoneDue tally.new.dues.turns.items from (length tally.new.dues.turns.items) clock.turn }
    ensures swept { IsSwept (side_frame side.now) (side_lists side.now) side.now.player clock.turn tally.old tally.new }
{
    let way = way_to_point(side, row);
    for cell in (from..stop).rev() {
        if tally.dues.turns[cell] <= clock.turn {
            settle(side, tally, cell, row, way, clock);
        }
    }
}

/// Finds the class totals of a block of cells again that are due in the turn at hand.
fn sweep_block(side: &Role<'_>, tally: &mut Tally, block: usize, clock: Clock)
    requires block { block < length tally.old.dues.soonest.items }
    requires room { HasTallyRoom (side_frame side.now) (side_lists side.now) tally.old }
    requires behind { IsNoneDue tally.old.dues.turns.items (block * 64 + 64) (length tally.old.dues.turns.items) clock.turn }
    ensures settled { IsNoneDue tally.new.dues.turns.items (block * 64) (length tally.new.dues.turns.items) clock.turn }
    ensures swept { IsSwept (side_frame side.now) (side_lists side.now) side.now.player clock.turn tally.old tally.new }
{
    let from = block * 64;
    let stop = tally.totals.len().min(from + 64);
    let mut left = past_due(&tally.dues.turns, from, stop, clock.turn);
    while from < left {
        let row = side.plot.rows[side.plot.points[left - 1] as usize];
        let first = row.cell.max(from);
        sweep_row(side, tally, row, first, left, clock);
        left = past_due(&tally.dues.turns, from, first, clock.turn);
    }
    renew(&mut tally.dues, block, from, stop);
}

/// Finds all class totals again that are due in the turn at hand.
pub(crate) fn sweep(side: &Role<'_>, tally: &mut Tally, clock: Clock)
    requires room { HasTallyRoom (side_frame side.now) (side_lists side.now) tally.old }
    ensures settled { IsNoneDue tally.new.dues.turns.items 0 (length tally.new.dues.turns.items) clock.turn }
    ensures swept { IsSwept (side_frame side.now) (side_lists side.now) side.now.player clock.turn tally.old tally.new }
{
    for block in (0..tally.dues.soonest.len()).rev() {
        if tally.dues.soonest[block] <= clock.turn {
            sweep_block(side, tally, block, clock);
        }
    }
}
