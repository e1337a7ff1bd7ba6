//! The query of a strategy.

ghost use Rattle.std.specs.Prelude.{◌≡◌, ◌<◌, ◌≤◌, ◌==◌, IfOk, if◌then◌else◌};
ghost use Rattle.gs_strategy_commands.specs.{Commands.{SaysQueried}, Held.{HoldsStrategy}, Queries.{IsToldAt}};
ghost use Rattle.gs_lift.specs.Queries.{IsQuerySpot, signals_of};
ghost use Rattle.gs_reply.specs.Replies.{Answers};
ghost use Rattle.gs_strategy.specs.Views.{stored_view};

use gs_frac::Fraction;
use gs_lift::{Mixture, Spot, locate, mix};
use gs_reply::{Refusal, Stop, mix_text};
use gs_seq::{Abstract, Plan};
use gs_strategy::Stored;
use std::alloc::{AllocError, Global};

/// A query for the mixture of a player at a point with a raw signal. `line` is the text of the point's line, `signal` that of the raw signal.
#[derive(Clone, Copy)]
pub(crate) struct Query<'w> {
    pub player: u8,
    pub line: &'w str,
    pub signal: &'w str,
    pub ghost some: { 0 < player },
    pub ghost two: { player ≤ 2 },
}

// Returns a player's plan.
fn plan_of(stored: &Stored, player: u8) -> &Plan
    ensures { result.now ≡ (if player == 1 then stored.now.one else stored.now.two) }
{
    if player == 1 {
        &stored.one
    } else {
        &stored.two
    }
}

// Returns a player's gap.
fn gap_of(stored: &Stored, player: u8) -> &Fraction
    ensures { result.now ≡ (if player == 1 then stored.now.verdict.gap1 else stored.now.verdict.gap2) }
{
    if player == 1 {
        &stored.verdict.gap1
    } else {
        &stored.verdict.gap2
    }
}

// Returns the text of a player's mixture at a decision point with a raw signal, and of the player's gap.
fn told_at(
    alloc: Global,
    query: &Query<'_>,
    stored: &Stored,
    form: &Abstract,
    spot: Spot,
) -> Result<Vec<u8>, AllocError>
    requires held { HoldsStrategy form.now.lossless.now stored.now }
    requires spot { IsQuerySpot (signals_of form.now) query.now.player query.now.line.now query.now.signal.now spot }
    ensures { IfOk result (λ text. IsToldAt (stored_view stored.now) query.now.player spot.point spot.signal text.items) }
{
    let plan = plan_of(stored, query.player);
    let mut mixture = Mixture::new(alloc)?;
    mix(form, plan, spot, &mut mixture);
    mix_text(alloc, &mixture, gap_of(stored, query.player))
}

/// Returns the text of the mixture and the gap that a query names in a confirmed strategy, or the refusal of a query that names none.
pub(crate) fn located(
    alloc: Global,
    query: &Query<'_>,
    stored: &Stored,
    form: &Abstract,
) -> Result<Vec<u8>, Stop>
    requires { HoldsStrategy form.now.lossless.now stored.now }
    ensures { Answers (SaysQueried query.now.player query.now.line.now query.now.signal.now (stored_view stored.now)) result }
{
    match locate(form, query.player, query.line, query.signal) {
        Ok(spot) => Ok(told_at(alloc, query, stored, form, spot)?),
        Err(fault) => Err(Stop::Refused(Refusal::BadQuery(fault))),
    }
}
