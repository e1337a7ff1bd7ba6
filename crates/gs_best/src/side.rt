//! A player whose class totals are found, and the plan that they are against.

ghost use Rattle.std.specs.Prelude.{◌-◌, ◌<◌, ◌≤◌};
ghost use Rattle.gs_seq.specs.{Abstracts.{abstract_frame, lists_of}, Plans.{IsPlanOf}};

use gs_seq::{Abstract, Plan};

/// A player, 1 or 2, and the other player's plan over the classes.
#[derive(Clone, Copy)]
pub struct Side<'a> {
    pub form: &'a Abstract<'a>,
    pub player: u8,
    pub other: &'a Plan,
    pub ghost some: { 0 < player },
    pub ghost two: { player ≤ 2 },
    pub ghost plan: { IsPlanOf (abstract_frame form.now) (lists_of form.now) (3 - player) other.now },
}
