//! Games over classes, as far as they are not refused: lossless classes, and the game in sequence form.

ghost use Rattle.std.specs.Prelude.{◌≡◌, ◌<◌, ◌≤◌, IfErr, IfOk, length};
ghost use Rattle.gs_file.specs.Views.{valid_view};
ghost use Rattle.gs_model.specs.{Frame.{frame_of}, Game.{round_count}, Lossless.{IsLossless}, Signals.{signal_at, signals as signals_in}};
ghost use Rattle.gs_reply.specs.{Refusals.{Unlike_pair}, Replies.{IsRefusal, StopsFor}, Troubles.{SaysLarge, SaysUnlike}};
ghost use Rattle.gs_seq.specs.{Abstracts.{abstract_frame, lists_of}, Stops.{IsSmall}};
ghost use Rattle.gs_tree.specs.{Texts.{signal_text}, Trees.{deck_of, rules_of}};

use crate::refusals::{Refusal, Stop};
use gs_filter::Classes;
use gs_lossless::{CheckStop, Lossless, check};
use gs_seq::Abstract;
use gs_tree::Signals;
use std::alloc::{AllocError, Global};

// Returns the refusal of classes in which two signals of a round are unlike.
fn unlike(
    alloc: Global,
    signals: &Signals,
    round: u8,
    first: u32,
    second: u32,
) -> Result<Refusal, AllocError>
    requires some { 0 < round }
    requires last { round ≤ round_count (rules_of signals.now) }
    requires first { first < length (signals_in (rules_of signals.now) round) }
    requires second { second < length (signals_in (rules_of signals.now) round) }
    ensures { IfOk result (λ told. IsRefusal told (Unlike_pair round (signal_text (deck_of signals.now) (signal_at (rules_of signals.now) round first))
        (signal_text (deck_of signals.now) (signal_at (rules_of signals.now) round second)))) }
{
    let first = signals.text(alloc, round, first)?;
    let second = signals.text(alloc, round, second)?;
    Ok(Refusal::Unlike {
        round,
        first,
        second,
    })
}

/// Returns classes as lossless ones over the signals of a game, or the refusal with their first unlike pair.
pub fn lossless_classes<'a>(
    alloc: Global,
    signals: &'a Signals<'a>,
    classes: &'a Classes,
) -> Result<Lossless<'a>, Stop>
    requires { classes.now.parents ≡ (frame_of (rules_of signals.now)).parents }
    ensures held_signals { IfOk result (λ l. l.signals.now ≡ signals.entry.now) }
    ensures held_classes { IfOk result (λ l. l.classes.now ≡ classes.entry.now) }
    ensures lossless { IfOk result (λ _. IsLossless (frame_of (rules_of signals.entry.now)) classes.entry.now.lists) }
    ensures unlike { IfErr result (StopsFor (SaysUnlike (valid_view signals.entry.now.game.now) classes.entry.now.lists)) }
{
    match check(alloc, signals, classes) {
        Ok(lossless) => Ok(lossless),
        Err(
            CheckStop::Unlike {
                round,
                first,
                second,
            },
        ) => Err(Stop::Refused(unlike(alloc, signals, round, first, second)?)),
        Err(CheckStop::Memory) => Err(Stop::Memory),
    }
}

/// Returns the sequence form of a game over lossless classes, or the refusal of a game that is too large.
pub fn sequence_form<'a>(alloc: Global, lossless: &'a Lossless<'a>) -> Result<Abstract<'a>, Stop>
    ensures held { IfOk result (λ form. form.lossless.now ≡ lossless.entry.now) }
    ensures small { IfOk result (λ form. IsSmall (abstract_frame form) (lists_of form)) }
    ensures large { IfErr result (StopsFor (SaysLarge (valid_view lossless.entry.now.signals.now.game.now) lossless.entry.now.classes.now.lists)) }
{
    Ok(Abstract::of(alloc, lossless)?)
}
