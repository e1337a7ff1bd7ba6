//! The commands that read a strategy file. All but `verify` let its bytes go once they are read.
//! So up to 16 MB are not kept beside what was read.

ghost use Rattle.std.specs.Prelude.{◌<◌, ◌≤◌};
ghost use Rattle.gs_words.specs.Tasks.{IsInRange, of_strategy, strategy_task};
ghost use Rattle.gs_strategy_commands.specs.{Asks.{StrategyAsks}, Certificates.{Certifies}, Commands.{Evaluates, Queries, Upgrades}, Verifying.{Verifies}};
ghost use Rattle.gs_reply.specs.Replies.{Answers};

use crate::answers::answer;
use crate::queries::Query;
use crate::verifying::verified;
use crate::wanted::Wanted;
use gs_json::first_line;
use gs_reply::{Stop, Which, stored_strategy};
use gs_words::OfStrategy;
use std::alloc::Global;
use std::convert::AsSlice;

/// Returns the value and the gaps that the strategy file states, if the strategy is confirmed; or the refusal.
pub(crate) fn evaluate_answer<B: AsSlice<u8> + Drop>(
    alloc: Global,
    bytes: B,
) -> Result<Vec<u8>, Stop>
    ensures { Answers (Evaluates (B.items bytes)) result }
{
    answer(alloc, &Wanted::Numbers, bytes)
}

/// Returns the text in version 2 of the strategy, if it is confirmed; or the refusal.
pub(crate) fn upgrade_answer<B: AsSlice<u8> + Drop>(
    alloc: Global,
    bytes: B,
) -> Result<Vec<u8>, Stop>
    ensures { Answers (Upgrades (B.items bytes)) result }
{
    answer(alloc, &Wanted::Upgrade, bytes)
}

/// Returns the mixture of a player at the point and the raw signal that the two texts name, and the player's gap; or the refusal of the file or of the
/// texts.
pub(crate) fn query_answer<B: AsSlice<u8> + Drop>(
    alloc: Global,
    player: u8,
    line: &str,
    signal: &str,
    bytes: B,
) -> Result<Vec<u8>, Stop>
    requires some { 0 < player }
    requires two { player ≤ 2 }
    ensures { Answers (Queries player line.now signal.now (B.items bytes)) result }
{
    let query = Query {
        player,
        line,
        signal,
    };
    answer(alloc, &Wanted::Mixture(query), bytes)
}

/// Returns the strategy's text in version 2 and its certificate, if the strategy is confirmed; or the refusal.
pub(crate) fn certify_answer<B: AsSlice<u8> + Drop>(
    alloc: Global,
    bytes: B,
) -> Result<Vec<u8>, Stop>
    ensures { Answers (Certifies (B.items bytes)) result }
{
    answer(alloc, &Wanted::Certificate, bytes)
}

/// Returns the value of a strategy's plans and the bounds of its certificate, if the certificate is valid; or the refusal of the strategy or of the
/// certificate. The strategy file ends with the first line feed, and the certificate follows.
pub(crate) fn verify_answer(alloc: Global, bytes: &[u8]) -> Result<Vec<u8>, Stop>
    ensures { Answers (Verifies bytes.now) result }
{
    let (first, second) = first_line(bytes);
    let stored = stored_strategy(alloc, Which::Only, first)?;
    verified(alloc, &stored, second)
}

/// Returns the answer to a request on the bytes of a strategy file: the text to print, or why it stops. The bytes are let go once they are read.
pub fn strategy_answer<B: AsSlice<u8> + Drop>(
    alloc: Global,
    request: OfStrategy,
    bytes: B,
) -> Result<Vec<u8>, Stop>
    requires { IsInRange (of_strategy (strategy_task request)) }
    ensures { Answers (StrategyAsks (strategy_task request.entry) (B.items bytes)) result }
{
    match request {
        OfStrategy::Evaluate => evaluate_answer(alloc, bytes),
        OfStrategy::Query {
            player,
            line,
            signal,
        } => query_answer(alloc, player, line, signal, bytes),
        OfStrategy::Upgrade => upgrade_answer(alloc, bytes),
        OfStrategy::Certify => certify_answer(alloc, bytes),
        OfStrategy::Verify => verify_answer(alloc, bytes.as_slice()),
    }
}
