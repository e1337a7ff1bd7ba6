//! The checks of a strategy before a command answers: its classes, its size, its numbers.

ghost use Rattle.std.specs.Prelude.{◌≡◌, IfErr, IfOk};
ghost use Rattle.gs_file.specs.Views.{valid_view};
ghost use Rattle.gs_model.specs.Lossless.{IsLossless};
ghost use Rattle.gs_strategy.specs.{Confirmed.{IsConfirmed, strategy_frame}, Views.{stored_view}};
ghost use Rattle.gs_reply.specs.{Replies.{StopsFor}, Troubles.{SaysUnlike}};
ghost use Rattle.gs_strategy_commands.specs.{Held.{HoldsStrategy, IsFormOf}, Troubles.{IsUnconfirmed, SaysTooLarge, SaysWrong}};

use crate::numbers::first_wrong;
use gs_best::{Work, verdict};
use gs_lossless::Lossless;
use gs_reply::{Refusal, Stop, lossless_classes, sequence_form};
use gs_seq::Abstract;
use gs_strategy::Stored;
use gs_tree::Signals;
use std::alloc::Global;

/// Returns the classes of a strategy as lossless ones over the signals of its game, or the refusal with their first unlike pair.
pub(crate) fn lossless_of<'a>(
    alloc: Global,
    stored: &'a Stored,
    signals: &'a Signals<'a>,
) -> Result<Lossless<'a>, Stop>
    requires { signals.now.game.now ≡ stored.now.game }
    ensures held { IfOk result (λ l. HoldsStrategy l stored.entry.now) }
    ensures lossless { IfOk result (λ _. IsLossless (strategy_frame (stored_view stored.entry.now)) stored.entry.now.classes.lists) }
    ensures unlike { IfErr result (StopsFor (SaysUnlike (valid_view stored.entry.now.game) stored.entry.now.classes.lists)) }
{
    lossless_classes(alloc, signals, &stored.classes)
}

/// Returns the game of a strategy in sequence form over its classes, or the refusal of a game that is too large.
pub(crate) fn form_of<'a>(
    alloc: Global,
    stored: &Stored,
    lossless: &'a Lossless<'a>,
) -> Result<Abstract<'a>, Stop>
    requires held { HoldsStrategy lossless.now stored.now }
    requires lossless { IsLossless (strategy_frame (stored_view stored.now)) stored.now.classes.lists }
    ensures form { IfOk result (IsFormOf stored.now) }
    ensures large { IfErr result (StopsFor (SaysTooLarge (stored_view stored.now))) }
{
    sequence_form(alloc, lossless)
}

// Refuses a strategy with its first stated number that differs from the computed one. One that is not refused is confirmed.
fn check_numbers(alloc: Global, stored: &Stored, form: &Abstract) -> Result<(), Stop>
    requires { IsFormOf stored.now form.now }
    ensures confirmed { IfOk result (λ _. IsConfirmed (stored_view stored.now)) }
    ensures wrong { IfErr result (StopsFor (SaysWrong (stored_view stored.now))) }
{
    let mut work = Work::new(alloc, form)?;
    let found = verdict(form, &stored.one, &stored.two, &mut work);
    match first_wrong(&stored.verdict, &found) {
        Some(wrong) => Err(Stop::Refused(Refusal::WrongNumber(wrong))),
        None => Ok(()),
    }
}

/// Returns the game of a confirmed strategy in sequence form over its classes. Otherwise it returns the refusal of a game that is too large, or of the first
/// wrong number.
pub fn confirmed_form<'a>(
    alloc: Global,
    stored: &Stored,
    lossless: &'a Lossless<'a>,
) -> Result<Abstract<'a>, Stop>
    requires held { HoldsStrategy lossless.now stored.now }
    requires lossless { IsLossless (strategy_frame (stored_view stored.now)) stored.now.classes.lists }
    ensures form { IfOk result (IsFormOf stored.now) }
    ensures confirmed { IfOk result (λ _. IsConfirmed (stored_view stored.now)) }
    ensures refused { IfErr result (StopsFor (IsUnconfirmed (stored_view stored.now))) }
{
    let form = form_of(alloc, stored, lossless)?;
    check_numbers(alloc, stored, &form)?;
    Ok(form)
}
