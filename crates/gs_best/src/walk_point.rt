//! A point whose class totals are found.

ghost use Rattle.std.specs.Prelude.{◌≡◌, ◌+◌, ◌<◌};
ghost use Rattle.gs_model.specs.{Frame.{point_count, round_of}, Positions.{at_point}};
ghost use Rattle.gs_best.specs.{Tables.{classes_at, start_of}, LaterRows.{AreLaidFrom, AreModestFrom, later_totals}};
ghost use Rattle.gs_best.specs.Sides.{frame_at, lists_at};

use crate::side::Side;

/// A point with its round and the number of its classes. `later` has the class totals of all later points: those of the table from the place `from` on.
#[derive(Clone, Copy)]
pub(crate) struct WalkPoint<'a, 'b> {
    pub(crate) side: Side<'a>,
    pub(crate) starts: &'b [u32],
    pub(crate) from: usize,
    pub(crate) later: &'b [i128],
    pub(crate) point: u32,
    pub(crate) round: u8,
    pub(crate) count: usize,
    pub(crate) ghost inside: { point < point_count (frame_at side) },
    pub(crate) ghost round_is: { round ≡ round_of (frame_at side) (at_point point) },
    pub(crate) ghost from_is: { from ≡ start_of (frame_at side) (lists_at side) (point + 1) },
    pub(crate) ghost count_is: { count ≡ classes_at (frame_at side) (lists_at side) point },
    pub(crate) ghost laid: { AreLaidFrom (frame_at side) (lists_at side) starts.now from later.now },
    pub(crate) ghost modest: { AreModestFrom (frame_at side) (lists_at side) (later_totals side from later.now) (point + 1) },
}
