//! A point whose numbers are checked, and where its moves lead.

ghost use Rattle.std.specs.Prelude.{◌≡◌, ◌<◌, ◌≤◌, length};
ghost use Rattle.gs_game.specs.Seen.{target_of};
ghost use Rattle.gs_model.specs.{Frame.{point_count, round_of}, Positions.{at_point}};
ghost use Rattle.gs_best.specs.{Sides.{frame_at, lists_at}, Tables.{start_of}};
ghost use Rattle.gs_certificate.specs.Claims.{AreWays};

use crate::claim::Claim;
use crate::way::{Way, way_from};

/// A point whose numbers are checked.
#[derive(Clone, Copy)]
pub(crate) struct Spot<'a> {
    pub(crate) claim: Claim<'a>,
    pub(crate) point: u32,
    pub(crate) here: Way,
    pub(crate) ghost inside: { point < point_count (frame_at claim.side) },
    pub(crate) ghost to_is: { target_of here.to ≡ at_point point },
    pub(crate) ghost round_is: { here.round ≡ round_of (frame_at claim.side) (at_point point) },
    pub(crate) ghost place_is: { here.place ≡ start_of (frame_at claim.side) (lists_at claim.side) point },
}

/// Writes where each move of a point leads.
#[inline(always)]
pub(crate) fn find_ways(spot: &Spot<'_>, ways: &mut [Way])
    requires { 26 ≤ length ways.old }
    ensures { let s = spot.now.claim.side in AreWays (frame_at s) (lists_at s) spot.now.point ways.new }
{
    let form = spot.claim.side.form;
    for choice in 0..form.move_total(spot.point) {
        let to = form.target_at(spot.point, choice);
        ways[usize::from(choice)] = way_from(form, spot.point, spot.here.place, to);
    }
}
