//! The commands that read a game file.

ghost use Rattle.std.specs.Prelude.{◌≤◌};
ghost use Rattle.gs_reply.specs.Replies.{Answers};
ghost use Rattle.gs_words.specs.Tasks.{IsInRange, of_game};
ghost use Rattle.gs_game_commands.specs.{Asks.{GameAsks}, Checking.{Checks}, Paths.{ShowsPath}, Playing.{Plays}, Settling.{Settles}, Solving.{Solves}};

use crate::asked::{Asked, Question, Turns};
use crate::settling::settled;
use crate::shrinking::shrink_answer;
use gs_reply::Stop;
use gs_words::{Grouping, OfGame};
use std::alloc::Global;

/// Returns the answer of `check` to the bytes of a game file: the text or the summary of the classes of this grouping, if they are lossless; or the
/// refusal.
pub(crate) fn check_answer(
    alloc: Global,
    bytes: &[u8],
    grouping: Grouping,
    summary: bool,
) -> Result<Vec<u8>, Stop>
    ensures { Answers (Checks grouping summary bytes.now) result }
{
    settled(alloc, &Question::Classes { summary }, bytes, grouping)
}

/// Returns the answer of `play` to the bytes of a game file: the text of the strategy after `turns` turns of fictitious play over the classes of a
/// grouping, or the refusal.
pub(crate) fn play_answer(
    alloc: Global,
    bytes: &[u8],
    grouping: Grouping,
    turns: u32,
) -> Result<Vec<u8>, Stop>
    requires few { turns ≤ 1000000 }
    ensures { Answers (Settles (Plays turns) grouping bytes.now) result }
{
    let asked = Asked::Play(Turns { count: turns });
    settled(alloc, &Question::Over(asked), bytes, grouping)
}

/// Returns the answer of `solve` to the bytes of a game file: the text of a strategy over the classes of a grouping whose gaps are both 0, or the
/// refusal.
pub(crate) fn solve_answer(alloc: Global, bytes: &[u8], grouping: Grouping) -> Result<Vec<u8>, Stop>
    ensures { Answers (Settles Solves grouping bytes.now) result }
{
    settled(alloc, &Question::Over(Asked::Solve), bytes, grouping)
}

/// Returns the answer of `path` to the bytes of a game file: the lines of the path on which `solve` finds its strategy, or the refusal.
pub(crate) fn path_answer(alloc: Global, bytes: &[u8], grouping: Grouping) -> Result<Vec<u8>, Stop>
    ensures { Answers (Settles ShowsPath grouping bytes.now) result }
{
    settled(alloc, &Question::Over(Asked::Path), bytes, grouping)
}

/// Returns the answer to a request on the bytes of a game file: the text to print, or why it stops.
pub fn game_answer(alloc: Global, request: OfGame, bytes: &[u8]) -> Result<Vec<u8>, Stop>
    requires { IsInRange (of_game request) }
    ensures { Answers (GameAsks request bytes.now) result }
{
    match request {
        OfGame::Shrink { summary } => shrink_answer(alloc, bytes, summary),
        OfGame::Check { grouping, summary } => check_answer(alloc, bytes, grouping, summary),
        OfGame::Solve { grouping } => solve_answer(alloc, bytes, grouping),
        OfGame::Play { grouping, turns } => play_answer(alloc, bytes, grouping, turns),
        OfGame::Path { grouping } => path_answer(alloc, bytes, grouping),
    }
}
