//! Answering a request.

ghost use Rattle.std.specs.Prelude.{◌≡◌};
ghost use Rattle.gs_run.specs.{Asking.{Asks, reads}, Making.{Makes}};
ghost use Rattle.gs_reply.specs.Replies.{Answers};
ghost use Rattle.gs_words.specs.Tasks.{IsInRange, make, task_of};

use gs_game_commands::game_answer;
use gs_raw_commands::raw_answer;
use gs_reply::Stop;
use gs_strategy_commands::strategy_answer;
use gs_words::{Make, OfGame, Request, made_game};
use std::alloc::Global;
use std::convert::AsSlice;

/// Returns whether a request reads an input.
pub(crate) fn reads_input(request: Request) -> bool
    ensures { result ≡ reads (task_of request.entry) }
{
    match request {
        Request::Make(_) => false,
        _ => true,
    }
}

// Returns a made game's file, or the summary of its signal classes.
fn made(alloc: Global, asked: Make) -> Result<Vec<u8>, Stop>
    requires { IsInRange (make asked) }
    ensures { Answers (Makes asked asked.summary) result }
{
    let file = made_game(alloc, asked.kind, asked.ranks, asked.suits, asked.cap)?;
    if asked.summary {
        game_answer(alloc, OfGame::Shrink { summary: true }, file.as_bytes())
    } else {
        Ok(file.into_bytes())
    }
}

/// Returns the answer to a request for the bytes of its input: the text to print, or why it stops. Bytes of which a
/// command has no more use are let go.
pub(crate) fn answer<B: AsSlice<u8> + Drop>(
    alloc: Global,
    request: Request,
    bytes: B,
) -> Result<Vec<u8>, Stop>
    requires { IsInRange (task_of request) }
    ensures { Answers (Asks (task_of request.entry) (B.items bytes)) result }
{
    match request {
        Request::OfGame(asked) => game_answer(alloc, asked, bytes.as_slice()),
        Request::OfStrategy(asked) => strategy_answer(alloc, asked, bytes),
        Request::OfRaw(asked) => raw_answer(alloc, asked, bytes),
        Request::Make(asked) => made(alloc, asked),
    }
}
