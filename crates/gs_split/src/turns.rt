//! One turn of the refinement.

ghost use Rattle.std.specs.Prelude.{◌≡◌, ◌<◌, ◌≤◌, ℕ, true, IfOk};
ghost use Rattle.gs_model.specs.{Rows.{rows}, Classes.{InOneClass}, Frame.{frame_of, last_round}, RefinementTurn.{IsTurn}};
ghost use Rattle.gs_tree.specs.Trees.{rules_of};
ghost use Rattle.gs_split.specs.Turns.{AreExact, AreKnown, AreTurnNumbers, HaveSameSums};

use crate::aspects::aspect_numbers;
use crate::parting::parted;
use gs_filter::Classes;
use gs_lossless::Grouped;
use gs_tree::Signals;
use std::alloc::{AllocError, Global};

/// Returns a number for each signal of a round. Within a class, numbers are equal exactly where the signals have the same sums.
/// These are the sums of deals in the last round, and the counts of children by class before it.
/// With `known`, all members of each class are known to have the same sums, and all numbers are 0.
fn round_numbers(
    alloc: Global,
    grouped: &Grouped<'_>,
    round: u8,
    known: bool,
) -> Result<Vec<u32>, AllocError>
    requires some { 0 < round }
    requires top { round ≤ last_round (frame_of (rules_of grouped.now.signals.now)) }
    requires known { known ≡ true → (s t : ℕ) → InOneClass (frame_of (rules_of grouped.now.signals.now)) grouped.now.classes.now.lists round s t
        → HaveSameSums (frame_of (rules_of grouped.now.signals.now)) grouped.now.classes.now.lists round s t }
    ensures { IfOk result (λ v. AreTurnNumbers (frame_of (rules_of grouped.now.signals.now)) grouped.now.classes.now.lists round v.items) }
{
    if known {
        vec![in alloc; 0; grouped.signals.count(round) as usize]
    } else {
        aspect_numbers(alloc, grouped, round)
    }
}

/// Returns for each round the numbers of its signals.
fn exact_numbers(
    alloc: Global,
    grouped: &Grouped<'_>,
    known: &[bool],
) -> Result<Vec<Vec<u32>>, AllocError>
    requires known { AreKnown (frame_of (rules_of grouped.now.signals.now)) grouped.now.classes.now.lists known.now }
    ensures { IfOk result (λ v. AreExact (frame_of (rules_of grouped.now.signals.now)) grouped.now.classes.now.lists (rows v.items)) }
{
    let mut numbers = Vec::with_capacity(alloc, usize::from(grouped.signals.rounds()))?;
    for done in 0..grouped.signals.rounds() {
        let is_known = known[usize::from(done)];
        let here = round_numbers(alloc, grouped, done + 1, is_known)?;
        numbers.push(here)?;
    }
    Ok(numbers)
}

/// Makes one turn and returns the new classes. Two signals of one class stay together if their parents do and if they have the same sums.
/// The sums are taken against the old classes: sums of deals in the last round, and counts of children by class before it.
/// `known` marks the rounds in which members of each class are known to have the same sums.
pub(crate) fn turn(
    alloc: Global,
    signals: &Signals,
    classes: &Classes,
    known: &[bool],
) -> Result<Classes, AllocError>
    requires parents { classes.now.parents ≡ (frame_of (rules_of signals.now)).parents }
    requires known { AreKnown (frame_of (rules_of signals.now)) classes.now.lists known.now }
    ensures parents { IfOk result (λ c. c.parents ≡ (frame_of (rules_of signals.now)).parents) }
    ensures turn { IfOk result (λ c. IsTurn (frame_of (rules_of signals.now)) classes.now.lists c.lists) }
{
    let grouped = Grouped { signals, classes };
    let numbers = exact_numbers(alloc, &grouped, known)?;
    parted(alloc, &grouped, &numbers)
}
