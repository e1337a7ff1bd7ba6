//! The command `play` over a game in sequence form.

ghost use Rattle.std.specs.Prelude.{◌≤◌, IfOk};
ghost use Rattle.gs_seq.specs.{Abstracts.{abstract_frame, lists_of}, Stops.{IsSmall}};
ghost use Rattle.gs_game_commands.specs.{Playing.{IsPlayed}, Settling.{file_game_in}};

use crate::writing::text_of;
use gs_play::play;
use gs_seq::Abstract;
use std::alloc::{AllocError, Global};

/// Returns the text of the strategy after `turns` turns of fictitious play.
pub(crate) fn played(alloc: Global, form: &Abstract, turns: u32) -> Result<Vec<u8>, AllocError>
    requires few { turns ≤ 1000000 }
    requires small { IsSmall (abstract_frame form.now) (lists_of form.now) }
    ensures { IfOk result (λ text. IsPlayed turns (file_game_in form.now) (lists_of form.now) text.items) }
{
    let (one, two) = play(alloc, form, turns)?;
    text_of(alloc, form, &one, &two)
}
