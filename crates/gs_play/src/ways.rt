//! The moves that lead to points and ends, read from the plot of a game.

ghost use Rattle.std.specs.Prelude.{◌≡◌, ◌<◌, MatchOption};
ghost use Rattle.gs_game.specs.Seen.{step_of};
ghost use Rattle.gs_model.specs.{Frame.{end_count, point_count, round_of}, Positions.{Target, at_end, at_point}};
ghost use Rattle.gs_play.specs.{Plots.{HasNoWay, IsMoveTo, IsRowIn, LeadsTo}, Sides.{side_frame, side_lists}};

use crate::plot::{PointRow, Way};
use crate::role::Role;
use gs_game::Step;

/// Returns a move with the row of its point and the round to which it leads.
fn way_by(side: &Role<'_>, step: Step, round: u8) -> Way
    requires { step.point < point_count (side_frame side.now) }
    ensures { (t : Target) → IsMoveTo (side_frame side.now) t (step_of step) → round ≡ round_of (side_frame side.now) t
        → LeadsTo (side_frame side.now) (side_lists side.now) t result }
{
    Way {
        row: side.plot.rows[step.point as usize],
        choice: step.choice,
        round,
    }
}

/// Returns the move that leads to the point of a row. Returns `None` if no move does.
pub(crate) fn way_to_point(side: &Role<'_>, row: PointRow) -> Option<Way>
    requires { IsRowIn (side_frame side.now) (side_lists side.now) row }
    ensures { MatchOption result (HasNoWay (side_frame side.now) (at_point row.point))
        (LeadsTo (side_frame side.now) (side_lists side.now) (at_point row.point)) }
{
    let step = side.plot.to_points[row.point as usize]?;
    Some(way_by(side, step, row.round))
}

/// Returns the move that leads to an end. Returns `None` if no move does.
pub(crate) fn way_to_end(side: &Role<'_>, end: u32) -> Option<Way>
    requires { end < end_count (side_frame side.now) }
    ensures { MatchOption result (HasNoWay (side_frame side.now) (at_end end)) (LeadsTo (side_frame side.now) (side_lists side.now) (at_end end)) }
{
    let step = side.plot.to_ends[end as usize]?;
    Some(way_by(side, step, side.form.end_round(end)))
}
