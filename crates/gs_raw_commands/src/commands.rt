//! The commands that judge strategies.

ghost use Rattle.gs_raw_commands.specs.{Asks.{RawAsks}, Commands.{Duels, Judges}};
ghost use Rattle.gs_reply.specs.Replies.{Answers};

use crate::judging::{dueled, judged};
use gs_json::first_line;
use gs_reply::{Stop, Which, stored_strategy};
use gs_words::OfRaw;
use std::alloc::Global;
use std::convert::AsSlice;

/// Returns the value of the plans of a strategy file and what each player could still gain by any raw plan; or the refusal. The classes may be lossless
/// or not. The bytes are let go once they are read.
pub(crate) fn judge_answer<B: AsSlice<u8> + Drop>(alloc: Global, bytes: B) -> Result<Vec<u8>, Stop>
    ensures { Answers (Judges (B.items bytes)) result }
{
    let stored = stored_strategy(alloc, Which::Only, bytes.as_slice())?;
    drop(bytes);
    judged(alloc, &stored)
}

/// Returns the answer of `duel` for two strategy files, one after the other: player 1's plan of the first plays against player 2's of the second. The answer
/// is their value, what each player could still gain by any raw plan, and the value of each raw signal of round 1; or the refusal. The bytes are let go once
/// they are read.
pub(crate) fn duel_answer<B: AsSlice<u8> + Drop>(alloc: Global, bytes: B) -> Result<Vec<u8>, Stop>
    ensures { Answers (Duels (B.items bytes)) result }
{
    let (first, second) = first_line(bytes.as_slice());
    let one = stored_strategy(alloc, Which::First, first)?;
    let two = stored_strategy(alloc, Which::Second, second)?;
    drop(bytes);
    dueled(alloc, &one, &two)
}

/// Returns the answer to a request on the bytes of strategy files, on raw cards: the text to print, or why it stops. The bytes are let go once they are
/// read.
pub fn raw_answer<B: AsSlice<u8> + Drop>(
    alloc: Global,
    request: OfRaw,
    bytes: B,
) -> Result<Vec<u8>, Stop>
    ensures { Answers (RawAsks request (B.items bytes)) result }
{
    match request {
        OfRaw::Judge => judge_answer(alloc, bytes),
        OfRaw::Duel => duel_answer(alloc, bytes),
    }
}
