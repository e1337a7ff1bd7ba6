//! Splitting classes by numbers of their members.

ghost use Rattle.std.specs.Prelude.{◌≡◌, ◌-◌, ◌<◌, ◌≤◌, IfOk, length};
ghost use Rattle.gs_model.specs.{Rows.{rows}, Frame.{frame_of, last_round, signal_count}};
ghost use Rattle.gs_tree.specs.Trees.{rules_of};
ghost use Rattle.gs_split.specs.Turns.{AreParted, HaveNumbers, IsRoundParted};

use crate::rounds::{TurnKeys, round_classes};
use gs_filter::Classes;
use gs_iso::last_classes;
use gs_lossless::Grouped;
use std::alloc::{AllocError, Global};

/// Returns the new classes of a round, from a number for each signal. `above` has the new classes of the round before.
fn round_parted(
    alloc: Global,
    grouped: &Grouped<'_>,
    round: u8,
    above: &[u32],
    numbers: &[u32],
) -> Result<Vec<u32>, AllocError>
    requires some { 0 < round }
    requires top { round ≤ last_round (frame_of (rules_of grouped.now.signals.now)) }
    requires any { round ≡ 1 → 0 < length above.now }
    requires above { 1 < round → length above.now ≡ signal_count (frame_of (rules_of grouped.now.signals.now)) (round - 1) }
    requires numbers { length numbers.now ≡ signal_count (frame_of (rules_of grouped.now.signals.now)) round }
    ensures { IfOk result (λ v. IsRoundParted (frame_of (rules_of grouped.now.signals.now)) grouped.now.classes.now.lists above.now numbers.now round v.items) }
{
    let before = &grouped.classes.lists()[usize::from(round) - 1];
    let keys = TurnKeys {
        before,
        above,
        parents: grouped.signals.parents_in(round),
        numbers,
    };
    round_classes(alloc, &keys)
}

/// Returns the new classes of all rounds, from a number for each signal of each round.
fn parted_lists(
    alloc: Global,
    grouped: &Grouped<'_>,
    numbers: &[Vec<u32>],
) -> Result<Vec<Vec<u32>>, AllocError>
    requires { HaveNumbers (frame_of (rules_of grouped.now.signals.now)) (rows numbers.now) }
    ensures { IfOk result (λ v. AreParted (frame_of (rules_of grouped.now.signals.now)) grouped.now.classes.now.lists (rows numbers.now) (rows v.items)) }
{
    let mut lists = Vec::with_capacity(alloc, usize::from(grouped.signals.rounds()))?;
    for done in 0..grouped.signals.rounds() {
        let above = last_classes(&lists);
        let here_numbers = &numbers[usize::from(done)];
        let here = round_parted(alloc, grouped, done + 1, above, here_numbers)?;
        lists.push(here)?;
    }
    Ok(lists)
}

/// Splits the classes of all rounds: two signals of one class stay together if their parents do and their numbers are equal.
pub(crate) fn parted(
    alloc: Global,
    grouped: &Grouped<'_>,
    numbers: &[Vec<u32>],
) -> Result<Classes, AllocError>
    requires { HaveNumbers (frame_of (rules_of grouped.now.signals.now)) (rows numbers.now) }
    ensures parents { IfOk result (λ c. c.parents ≡ (frame_of (rules_of grouped.now.signals.now)).parents) }
    ensures parted { IfOk result (λ c. AreParted (frame_of (rules_of grouped.now.signals.now)) grouped.now.classes.now.lists (rows numbers.now) c.lists) }
{
    let lists = parted_lists(alloc, grouped, numbers)?;
    Classes::of_filter(alloc, grouped.signals.parents(), lists)
}
