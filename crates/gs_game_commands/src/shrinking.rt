//! The command `shrink`.

ghost use Rattle.std.specs.Prelude.{IfOk};
ghost use Rattle.gs_file.specs.Views.{valid_view};
ghost use Rattle.gs_game_commands.specs.Shrinking.{IsShrunk, Shrinks};
ghost use Rattle.gs_reply.specs.Replies.{Answers};

use crate::telling::told;
use gs_game::ValidGame;
use gs_reply::{Stop, stated_game};
use gs_tree::Signals;
use std::alloc::{AllocError, Global};

// Returns the text of the signal classes of a game, or their summary.
fn shrunk(alloc: Global, game: &ValidGame, summary: bool) -> Result<Vec<u8>, AllocError>
    ensures { IfOk result (λ text. IsShrunk summary (valid_view game.now) text.items) }
{
    let signals = Signals::of(alloc, game)?;
    let classes = gs_iso::shrink(alloc, &signals)?;
    told(alloc, &signals, &classes, summary)
}

/// Returns the answer of `shrink` to the bytes of a game file: the text or the summary of its signal classes, or the refusal.
pub(crate) fn shrink_answer(alloc: Global, bytes: &[u8], summary: bool) -> Result<Vec<u8>, Stop>
    ensures { Answers (Shrinks summary bytes.now) result }
{
    let game = stated_game(alloc, bytes)?;
    Ok(shrunk(alloc, &game, summary)?)
}
