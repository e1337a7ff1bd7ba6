//! Numbers that are claimed to bound what a player gains.

ghost use Rattle.std.specs.{Prelude.{◌≡◌, ◌<◌, ◌^◌, All, length, unsigned_abs}, Option.{ForSome}};
ghost use Rattle.gs_model.specs.Frame.{point_count};
ghost use Rattle.gs_best.specs.{Sides.{frame_at, lists_at, plan_at}, Tables.{start_of}};
ghost use Rattle.gs_certificate.specs.Paid.{AreSumsPaid};

use crate::ends::EndSums;
use gs_best::Side;

/// A number for each point and each class of its round: what each member of the class gains at most. With it comes what ends pay the player, if that is kept.
#[derive(Clone, Copy)]
pub(crate) struct Claim<'a> {
    pub(crate) side: Side<'a>,
    pub(crate) numbers: &'a [i128],
    pub(crate) ends: Option<&'a EndSums>,
    pub(crate) ghost long: { length numbers.now ≡ start_of (frame_at side) (lists_at side) (point_count (frame_at side)) },
    pub(crate) ghost modest: { All (λ z. unsigned_abs z < 2 ^ 90) numbers.now },
    pub(crate) ghost kept: { ForSome ends (λ e. AreSumsPaid (frame_at side) (lists_at side) side.player (plan_at side) e.now) },
}
