//! Positions, with their rounds and the places of their numbers.

ghost use Rattle.std.specs.Prelude.{◌≡◌, ◌≤◌};
ghost use Rattle.gs_game.specs.Seen.{target_of};
ghost use Rattle.gs_model.specs.{Frame.{point_count}, FrameFacts.{IsFrom, IsInside}};
ghost use Rattle.gs_seq.specs.Abstracts.{abstract_frame, lists_of};
ghost use Rattle.gs_best.specs.Tables.{start_of};
ghost use Rattle.gs_certificate.specs.Claims.{IsWay};

use gs_game::Target;
use gs_seq::Abstract;

/// A point or an end, its round, and for a point the place of its first number.
#[derive(Clone, Copy)]
pub(crate) struct Way {
    pub(crate) to: Target,
    pub(crate) round: u8,
    pub(crate) place: u32,
}

/// Returns the place of the first class of point `to`, from the place of a point that is not later.
fn place_from(form: &Abstract, from: u32, start: u32, to: u32) -> u32
    requires start { start ≡ start_of (abstract_frame form.now) (lists_of form.now) from }
    requires onward { from ≤ to }
    requires top { to ≤ point_count (abstract_frame form.now) }
    ensures { result ≡ start_of (abstract_frame form.now) (lists_of form.now) to }
{
    let mut place = start;
    for point in from..to {
        place += form.class_total(form.round_at(point));
    }
    place
}

/// Returns a point or an end with its round and its place, from the place of a point that is not later.
pub(crate) fn way_from(form: &Abstract, from: u32, start: u32, to: Target) -> Way
    requires start { start ≡ start_of (abstract_frame form.now) (lists_of form.now) from }
    requires inside { IsInside (abstract_frame form.now) (target_of to) }
    requires onward { IsFrom from (target_of to) }
    ensures way { IsWay (abstract_frame form.now) (lists_of form.now) result }
    ensures to { result.to ≡ to }
{
    match to {
        Target::Point(point) => Way {
            to,
            round: form.round_at(point),
            place: place_from(form, from, start, point),
        },
        Target::End(end) => Way {
            to,
            round: form.end_round(end),
            place: 0,
        },
    }
}
