//! Stand-ins: earlier signals with the same class and the same sums.

ghost use Rattle.std.specs.Prelude.{◌<◌, IfOk, IsTrue, get_or, length};
ghost use Rattle.gs_model.specs.Frame.{frame_of};
ghost use Rattle.gs_tree.specs.Trees.{rules_of};
ghost use Rattle.gs_lossless.specs.Scans.{StandFor};

use crate::aspect_keys::AspectKeys;
use crate::boards::stand_ins;
use std::alloc::{AllocError, Global};

/// The number of signals that are compared before stand-ins are listed.
/// If a signal early in the last round differs from the first member of its class, listing stand-ins would take more time than it saves.
const SOON: u32 = 4096;

/// Returns the stand-ins to use from a signal on. At one signal of the last round, lists for each signal of the round a stand-in that sees the same deals.
/// At every other signal, and in every other round, returns `listed` unchanged.
pub(crate) fn stand_ins_at(
    alloc: Global,
    at: &AspectKeys<'_>,
    signal: u32,
    listed: Vec<u32>,
) -> Result<Vec<u32>, AllocError>
    requires { StandFor (frame_of (rules_of at.now.signals.now)) at.now.classes.now.lists at.now.aspect at.now.round listed.items }
    ensures { IfOk result (λ v. StandFor (frame_of (rules_of at.now.signals.now)) at.now.classes.now.lists at.now.aspect at.now.round v.items) }
{
    if signal == SOON && at.round == at.signals.rounds() {
        stand_ins(alloc, at.signals, &at.keys)
    } else {
        Ok(listed)
    }
}

/// Returns whether an earlier signal is listed as the stand-in of a signal.
pub(crate) fn has_earlier(firsts: &[u32], signal: u32) -> bool
    ensures { IsTrue result → (signal < length firsts.now) × (get_or firsts.now signal 0 < signal) }
{
    firsts
        .get(signal as usize)
        .is_some_and(|first| *first < signal)
}
