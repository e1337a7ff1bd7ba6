//! Rounds that the latest turn has settled. Members of a class have the same sums if the turn did not change the classes by which sums are taken.

ghost use Rattle.std.specs.Prelude.{◌≡◌, ◌≤◌, ◌<◌, ◌↔◌, IfOk, IsTrue, length};
ghost use Rattle.gs_model.specs.{Classes.{list_of}, Frame.{frame_of}, RefinementTurn.{IsTurn}};
ghost use Rattle.gs_tree.specs.Trees.{rules_of};
ghost use Rattle.gs_split.specs.Turns.{AreKnown};

use gs_filter::Classes;
use gs_tree::Signals;
use std::alloc::{AllocError, Global};

/// Returns whether two lists of classes are equal.
fn are_same(ones: &[u32], others: &[u32]) -> bool
    ensures { IsTrue result ↔ (ones.now ≡ others.now) }
{
    ones == others
}

/// Returns whether the classes of a round are unchanged.
fn stays(before: &Classes, classes: &Classes, round: u8) -> bool
    requires some { 0 < round }
    requires before { round ≤ length before.now.lists }
    requires top { round ≤ length classes.now.lists }
    ensures { IsTrue result → list_of before.now.lists round ≡ list_of classes.now.lists round }
{
    let place = usize::from(round) - 1;
    are_same(&before.lists()[place], &classes.lists()[place])
}

/// Returns for each round whether the latest turn split all that sums can split: whether the classes by which it took the sums are unchanged.
/// These are the classes of the next round and, for the last round, its own.
pub(crate) fn known_rounds(
    alloc: Global,
    signals: &Signals,
    before: &Classes,
    classes: &Classes,
) -> Result<Vec<bool>, AllocError>
    requires before { before.now.parents ≡ (frame_of (rules_of signals.now)).parents }
    requires parents { classes.now.parents ≡ (frame_of (rules_of signals.now)).parents }
    requires turned { IsTurn (frame_of (rules_of signals.now)) before.now.lists classes.now.lists }
    ensures { IfOk result (λ v. AreKnown (frame_of (rules_of signals.now)) classes.now.lists v.items) }
{
    let last = signals.rounds();
    let mut known = Vec::with_capacity(alloc, usize::from(last))?;
    for above in 0..last {
        known.push(stays(before, classes, last.min(above + 2)))?;
    }
    Ok(known)
}
