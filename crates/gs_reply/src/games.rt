//! The game of a game file.

ghost use Rattle.std.specs.Prelude.{◌≡◌, IfErr, IfOk, Ok};
ghost use Rattle.gs_file.specs.{Reading.{read_at}, Views.{valid_view}};
ghost use Rattle.gs_reply.specs.Replies.{IsBadGame, StopsFor};

use crate::refusals::{Refusal, Stop};
use gs_file::{FileError, read_game};
use gs_game::ValidGame;
use std::alloc::Global;

/// Returns the game that the bytes of a game file state, or the refusal of bytes that state none.
pub fn stated_game(alloc: Global, bytes: &[u8]) -> Result<ValidGame, Stop>
    ensures stated { IfOk result (λ game. read_at bytes.now ≡ Ok (valid_view game)) }
    ensures refused { IfErr result (StopsFor (IsBadGame (read_at bytes.now))) }
{
    match read_game(alloc, bytes) {
        Ok(game) => Ok(game),
        Err(FileError::Memory) => Err(Stop::Memory),
        Err(FileError::Fault(fault)) => Err(Stop::Refused(Refusal::BadGame(fault))),
    }
}
