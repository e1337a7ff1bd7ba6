//! What a turn compares: the sums of deals in the last round, and the children before it.

ghost use Rattle.std.specs.Prelude.{◌≡◌, ◌<◌, ◌≤◌, ℕ, false, true, IfOk, IsTrue, List, get_or, length};
ghost use Rattle.gs_model.specs.{Classes.{ClassLists, list_of}, Frame.{frame_of, last_round}};
ghost use Rattle.gs_tree.specs.Trees.{rules_of};
ghost use Rattle.gs_lossless.specs.{Amounts.{AreAspectFirsts, HasAspect}, declared.aspects.Aspect.{Aspect as AspectOf}};
ghost use Rattle.gs_split.specs.Turns.{AreSettled, AreAspectNumbers, AreTurnNumbers};

use crate::members::number_members;
use gs_filter::{Classes, next_members};
use gs_lossless::{Aspect, AspectKeys, Grouped, stand_ins};
use gs_tree::Signals;
use std::alloc::{AllocError, Global};

/// Returns for each signal of a round a stand-in on the aspect that a turn compares, at the same or an earlier place.
/// In the last round the stand-in sees the same deals; before it, the stand-in is the signal itself.
fn aspect_firsts(alloc: Global, grouped: &Grouped<'_>, round: u8) -> Result<Vec<u32>, AllocError>
    requires some { 0 < round }
    requires top { round ≤ last_round (frame_of (rules_of grouped.now.signals.now)) }
    ensures { let f = frame_of (rules_of grouped.now.signals.now) in
        IfOk result (λ v. (aspect : AspectOf) → HasAspect f aspect round → AreAspectFirsts f grouped.now.classes.now.lists aspect round v.items) }
{
    if round == grouped.signals.rounds() {
        let keys = &grouped.classes.lists()[usize::from(round) - 1];
        return stand_ins(alloc, grouped.signals, keys);
    }
    let count = grouped.signals.count(round);
    let mut firsts = Vec::with_capacity(alloc, count as usize)?;
    for signal in 0..count {
        firsts.push(signal)?;
    }
    Ok(firsts)
}

/// Returns for each class of a round whether its first member is the stand-in of all its members.
fn settled_classes(
    alloc: Global,
    classes: &Classes,
    round: u8,
    firsts: &[u32],
) -> Result<Vec<bool>, AllocError>
    requires some { 0 < round }
    requires top { round ≤ length classes.now.lists }
    requires all { length firsts.now ≡ length (list_of classes.now.lists round) }
    ensures { IfOk result (λ v. AreSettled classes.now.lists round firsts.now v.items) }
{
    let mut settled = vec![in alloc; true; classes.classes(round) as usize]?;
    for signal in 0..classes.signals(round) {
        let class = classes.class_of(round, signal);
        if firsts[signal as usize] != classes.first(round, class) {
            settled[class as usize - 1] = false;
        }
    }
    Ok(settled)
}

/// Returns the aspect that a turn compares in a round: the deals in the last round, the children before it.
fn aspect_at(signals: &Signals, round: u8) -> Aspect
    requires some { 0 < round }
    requires top { round ≤ last_round (frame_of (rules_of signals.now)) }
    ensures aspect { HasAspect (frame_of (rules_of signals.now)) result round }
    ensures turn { (lists : ClassLists) (numbers : List ℕ) → AreAspectNumbers (frame_of (rules_of signals.now)) lists result round numbers
        → AreTurnNumbers (frame_of (rules_of signals.now)) lists round numbers }
{
    if round < signals.rounds() {
        Aspect::Children
    } else {
        Aspect::Deals
    }
}

/// Returns whether all classes are settled.
fn are_all(settled: &[bool]) -> bool
    ensures { IsTrue result → (s : ℕ) → s < length settled.now → get_or settled.now s false ≡ true }
{
    settled.iter().all(|is_settled| *is_settled)
}

/// Returns a number for each signal of a round, as `aspect_numbers` does. `firsts` has the stand-ins, and `settled` whether each class is settled.
/// Goes class by class, and passes over classes that are settled.
fn numbers_by_class(
    alloc: Global,
    grouped: &Grouped<'_>,
    round: u8,
    firsts: &[u32],
    settled: &[bool],
) -> Result<Vec<u32>, AllocError>
    requires some { 0 < round }
    requires top { round ≤ last_round (frame_of (rules_of grouped.now.signals.now)) }
    requires firsts { let f = frame_of (rules_of grouped.now.signals.now) in
        (aspect : AspectOf) → HasAspect f aspect round → AreAspectFirsts f grouped.now.classes.now.lists aspect round firsts.now }
    requires settled { AreSettled grouped.now.classes.now.lists round firsts.now settled.now }
    ensures { IfOk result (λ v. AreTurnNumbers (frame_of (rules_of grouped.now.signals.now)) grouped.now.classes.now.lists round v.items) }
{
    let Grouped { signals, classes } = *grouped;
    let aspect = aspect_at(signals, round);
    let at = AspectKeys::of(alloc, signals, classes, aspect, round)?;
    let nexts = next_members(alloc, classes, round)?;
    let mut numbers = vec![in alloc; 0; nexts.len()]?;
    for (before, is_settled) in settled.iter().enumerate() {
        if *is_settled {
            continue;
        }
        number_members(alloc, &at, firsts, &nexts, before as u32 + 1, &mut numbers)?;
    }
    Ok(numbers)
}

/// Returns a number for each signal of a round. Within a class, numbers are equal exactly where the signals have the same sums.
/// These are the sums of deals in the last round, and the counts of children by class before it.
/// Makes no sums if all classes are settled.
pub(crate) fn aspect_numbers(
    alloc: Global,
    grouped: &Grouped<'_>,
    round: u8,
) -> Result<Vec<u32>, AllocError>
    requires some { 0 < round }
    requires top { round ≤ last_round (frame_of (rules_of grouped.now.signals.now)) }
    ensures { IfOk result (λ v. AreTurnNumbers (frame_of (rules_of grouped.now.signals.now)) grouped.now.classes.now.lists round v.items) }
{
    let firsts = aspect_firsts(alloc, grouped, round)?;
    let settled = settled_classes(alloc, grouped.classes, round, &firsts)?;
    if are_all(&settled) {
        return vec![in alloc; 0; firsts.len()];
    }
    numbers_by_class(alloc, grouped, round, &firsts, &settled)
}
