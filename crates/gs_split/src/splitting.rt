//! Refinement by turns, until a turn splits no class.

ghost use Rattle.std.specs.Prelude.{◌≡◌, ◌<◌, ◌^◌, IfOk, sum_by};
ghost use Rattle.gs_model.specs.{Classes.{IsClasses}, Frame.{frame_of}, Numbering.{greatest}, Refinement.{IsCoarsestLossless}};
ghost use Rattle.gs_tree.specs.Trees.{rules_of};

use crate::proposal::proposal;
use crate::stays::known_rounds;
use crate::turns::turn;
use gs_filter::Classes;
use gs_lossless::Grouped;
use gs_tree::Signals;
use std::alloc::{AllocError, Global};

/// Returns the number of classes of all rounds together.
fn class_total(classes: &Classes) -> u64
    ensures value { result ≡ sum_by greatest classes.now.lists }
    ensures few { result < 2 ^ 40 }
    ensures classes { IsClasses classes.now.parents classes.now.lists }
{
    let mut total = 0u64;
    for before in 0..classes.rounds() {
        total += u64::from(classes.classes(before + 1));
    }
    total
}

/// Makes exact turns from given classes until a turn splits no class, and returns the classes then reached.
fn settled(alloc: Global, signals: &Signals, from: &Classes) -> Result<Classes, AllocError>
    requires { from.now.parents ≡ (frame_of (rules_of signals.now)).parents }
    ensures coarsest { IfOk result (λ c. IsCoarsestLossless (frame_of (rules_of signals.now)) from.now.lists c.lists) }
    ensures parents { IfOk result (λ c. c.parents ≡ (frame_of (rules_of signals.now)).parents) }
{
    let mut total = class_total(from);
    let mut known = vec![in alloc; false; usize::from(signals.rounds())]?;
    let mut classes = turn(alloc, signals, from, &known)?;
    while total < class_total(&classes) {
        total = class_total(&classes);
        let finer = turn(alloc, signals, &classes, &known)?;
        known = known_rounds(alloc, signals, &classes, &finer)?;
        classes = finer;
    }
    Ok(classes)
}

/// Returns the coarsest lossless refinement of given classes: every lossless refinement of the given classes refines it.
/// Classes are numbered from 1 by first member.
///
/// Starts from the proposal, if there is one, and then makes exact turns until a turn splits no class.
/// Each turn splits members of a class whose parents were split, or whose sums against the classes so far differ.
///
/// Source: partition refinement.
pub fn split(alloc: Global, signals: &Signals, from: &Classes) -> Result<Classes, AllocError>
    requires { from.now.parents ≡ (frame_of (rules_of signals.now)).parents }
    ensures coarsest { IfOk result (λ c. IsCoarsestLossless (frame_of (rules_of signals.now)) from.now.lists c.lists) }
    ensures parents { IfOk result (λ c. c.parents ≡ (frame_of (rules_of signals.now)).parents) }
{
    let given = Grouped {
        signals,
        classes: from,
    };
    if let Some(proposed) = proposal(alloc, &given)? {
        return settled(alloc, signals, &proposed);
    }
    settled(alloc, signals, from)
}
