//! The answer to what is wanted of the strategy of a file, if it is confirmed.

ghost use Rattle.std.specs.Prelude.{◌≡◌};
ghost use Rattle.gs_strategy_commands.specs.{Commands.{OfConfirmed, OfStrategy}, Held.{HoldsStrategy}, Wanted.{says_wanted}};
ghost use Rattle.gs_reply.specs.Replies.{Answers};
ghost use Rattle.gs_strategy.specs.Views.{stored_view};

use crate::certifying::certified_text;
use crate::checks::{confirmed_form, lossless_of};
use crate::queries::located;
use crate::wanted::Wanted;
use gs_file::Version;
use gs_reply::{Stop, Which, stored_strategy, verdict_text};
use gs_seq::Abstract;
use gs_strategy::Stored;
use gs_tree::Signals;
use std::alloc::Global;
use std::convert::AsSlice;

// Returns what is wanted of a confirmed strategy, or the refusal of a query that names no decision point.
fn told(
    alloc: Global,
    wanted: &Wanted<'_>,
    stored: &Stored,
    form: &Abstract,
) -> Result<Vec<u8>, Stop>
    requires { HoldsStrategy form.now.lossless.now stored.now }
    ensures { Answers (says_wanted wanted.now (stored_view stored.now)) result }
{
    let text = match wanted {
        Wanted::Numbers => verdict_text(alloc, &stored.verdict),
        Wanted::Upgrade => stored.text(alloc, Version::Two),
        Wanted::Certificate => certified_text(alloc, stored, form),
        Wanted::Mixture(query) => return located(alloc, query, stored, form),
    };
    Ok(text?)
}

// Returns what is wanted of a strategy over the signals of its game, if it is confirmed; or the refusal.
fn over(
    alloc: Global,
    wanted: &Wanted<'_>,
    stored: &Stored,
    signals: &Signals,
) -> Result<Vec<u8>, Stop>
    requires { signals.now.game.now ≡ stored.now.game }
    ensures { Answers (OfConfirmed (says_wanted wanted.now) (stored_view stored.now)) result }
{
    let lossless = lossless_of(alloc, stored, signals)?;
    let form = confirmed_form(alloc, stored, &lossless)?;
    told(alloc, wanted, stored, &form)
}

// Returns what is wanted of a strategy, if it is confirmed; or the refusal.
fn confirmed(alloc: Global, wanted: &Wanted<'_>, stored: &Stored) -> Result<Vec<u8>, Stop>
    ensures { Answers (OfConfirmed (says_wanted wanted.now) (stored_view stored.now)) result }
{
    let signals = Signals::of(alloc, &stored.game)?;
    over(alloc, wanted, stored, &signals)
}

/// Returns what is wanted of the strategy that the bytes hold, if it is confirmed; or the refusal. The bytes are let go once they are read.
pub(crate) fn answer<B: AsSlice<u8> + Drop>(
    alloc: Global,
    wanted: &Wanted<'_>,
    bytes: B,
) -> Result<Vec<u8>, Stop>
    ensures { Answers (OfStrategy (OfConfirmed (says_wanted wanted.now)) (B.items bytes)) result }
{
    let stored = stored_strategy(alloc, Which::Only, bytes.as_slice())?;
    drop(bytes);
    confirmed(alloc, wanted, &stored)
}
