//! Judging strategies that were read on raw cards.

ghost use Rattle.std.specs.Prelude.{◌≡◌};
ghost use Rattle.gs_raw_commands.specs.Commands.{SaysDuel, SaysHands, SaysJudged};
ghost use Rattle.gs_file.specs.Views.{valid_view};
ghost use Rattle.gs_reply.specs.Replies.{Answers};
ghost use Rattle.gs_strategy.specs.Views.{stored_view};

use crate::games::same_game;
use crate::hands::push_hands;
use gs_raw::{Facing, RawStop, raw_duel, raw_verdict};
use gs_reply::{Limit, Refusal, Stop, verdict_text};
use gs_strategy::Stored;
use gs_tree::Signals;
use std::alloc::Global;

// Returns the answer of `judge` for a strategy over the signals of its game.
fn judged_over(alloc: Global, stored: &Stored, signals: &Signals) -> Result<Vec<u8>, Stop>
    requires { signals.now.game.now ≡ stored.now.game }
    ensures { Answers (SaysJudged (stored_view stored.now)) result }
{
    let Stored {
        classes,
        one,
        two,
        ..
    } = stored;
    match raw_verdict(alloc, signals, classes, one, classes, two) {
        Ok(verdict) => Ok(verdict_text(alloc, &verdict)?),
        Err(RawStop::TooManyCells { count }) => Err(Stop::Refused(Refusal::TooLarge(
            Limit::RawCells { count },
        ))),
        Err(RawStop::Memory) => Err(Stop::Memory),
    }
}

/// Returns the answer of `judge` for a strategy: the value and gaps of its plans on raw cards, or the refusal of too many raw cells.
pub(crate) fn judged(alloc: Global, stored: &Stored) -> Result<Vec<u8>, Stop>
    ensures { Answers (SaysJudged (stored_view stored.now)) result }
{
    let signals = Signals::of(alloc, &stored.game)?;
    judged_over(alloc, stored, &signals)
}

// Returns the answer of `duel` for two strategies over the signals of their game. Player 1's plan of the first plays against player 2's of the second. The
// answer is their value and gaps, and the value of each raw signal of round 1.
fn fought_over(
    alloc: Global,
    one: &Stored,
    two: &Stored,
    signals: &Signals,
) -> Result<Vec<u8>, Stop>
    requires game { signals.now.game.now ≡ one.now.game }
    requires same { valid_view one.now.game ≡ valid_view two.now.game }
    ensures { Answers (SaysHands (stored_view one.now) (stored_view two.now)) result }
{
    let facing = Facing {
        signals,
        first: &one.classes,
        one: &one.one,
        second: &two.classes,
        two: &two.two,
    };
    match raw_duel(alloc, &facing) {
        Ok(duel) => {
            let mut text = verdict_text(alloc, &duel.verdict)?;
            push_hands(&mut text, alloc, signals, &duel.hands)?;
            Ok(text)
        }
        Err(RawStop::TooManyCells { count }) => Err(Stop::Refused(Refusal::TooLarge(
            Limit::RawCells { count },
        ))),
        Err(RawStop::Memory) => Err(Stop::Memory),
    }
}

// Returns the answer of `duel` for two strategies of one game.
fn fought(alloc: Global, one: &Stored, two: &Stored) -> Result<Vec<u8>, Stop>
    requires { valid_view one.now.game ≡ valid_view two.now.game }
    ensures { Answers (SaysHands (stored_view one.now) (stored_view two.now)) result }
{
    let signals = Signals::of(alloc, &one.game)?;
    fought_over(alloc, one, two, &signals)
}

/// Returns the answer of `duel` for two strategies, or the refusal of two different games.
pub(crate) fn dueled(alloc: Global, one: &Stored, two: &Stored) -> Result<Vec<u8>, Stop>
    ensures { Answers (SaysDuel (stored_view one.now) (stored_view two.now)) result }
{
    if !same_game(alloc, &one.game, &two.game)? {
        return Err(Stop::Refused(Refusal::OtherGame));
    }
    fought(alloc, one, two)
}
