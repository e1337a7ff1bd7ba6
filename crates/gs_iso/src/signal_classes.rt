//! The signal classes of a game, by ordered game isomorphism.

ghost use Rattle.std.specs.{Prelude.{◌≡◌, ◌<◌, IfOk, map}, List.{range_with_len}};
ghost use Rattle.gs_model.specs.{Rows.{rows}, Game.{round_count}, SignalClasses.{IsSignalClasses}, Signals.{parents}};
ghost use Rattle.gs_tree.specs.Trees.{rules_of};
ghost use Rattle.gs_iso.specs.Numbers.{AreNumberings, classes_above};

use crate::children::child_numbers;
use crate::classes::{RoundItems, round_classes};
use crate::leaves::leaf_numbers;
use gs_filter::Classes;
use gs_tree::Signals;
use std::alloc::{AllocError, Global};

/// Returns for each round, the last one first, a number for each signal. Numbers of a round are equal exactly where the signals are isomorphic.
pub(crate) fn node_numbers(alloc: Global, signals: &Signals) -> Result<Vec<Vec<u32>>, AllocError>
    ensures { IfOk result (λ v. AreNumberings (rules_of signals.now) (rows v.items)) }
{
    let rounds = signals.rounds();
    let last = leaf_numbers(alloc, signals)?;
    let mut numbers = vec![in alloc; last]?;
    for done in 1..rounds {
        let below = &numbers[usize::from(done) - 1];
        let here = child_numbers(alloc, signals, rounds - done, below)?;
        numbers.push(here)?;
    }
    Ok(numbers)
}

/// Returns the last of some class lists. If there is none, returns the list of the root alone, which has class 1.
pub fn last_classes<'a>(lists: &'a [Vec<u32>]) -> &'a [u32]
    ensures { result.now ≡ classes_above (rows lists.now) }
{
    match lists.last() {
        Some(list) => list,
        None => &[1],
    }
}

/// Returns for each round the class of each signal. `numbers` has the numbers of the signals, the last round first.
fn class_lists(
    alloc: Global,
    signals: &Signals,
    numbers: &[Vec<u32>],
) -> Result<Vec<Vec<u32>>, AllocError>
    requires { AreNumberings (rules_of signals.now) (rows numbers.now) }
    ensures { IfOk result (λ v. IsSignalClasses (rules_of signals.now) (rows v.items)) }
{
    let rounds = signals.rounds();
    let mut lists = Vec::with_capacity(alloc, usize::from(rounds))?;
    for done in 0..rounds {
        let items = RoundItems {
            above: last_classes(&lists),
            parents: signals.parents_in(done + 1),
            numbers: &numbers[usize::from(rounds - done) - 1],
        };
        let here = round_classes(alloc, items)?;
        lists.push(here)?;
    }
    Ok(lists)
}

/// Returns the classes of recursive ordered game isomorphism, which are the grouping of the algorithm GameShrink.
/// Two signals of a round are in one class if they are isomorphic and, from round 2 on, their parents are in one class.
/// Classes are numbered from 1 by first member.
///
/// Source: Gilpin and Sandholm, Lossless abstraction of imperfect information games, 2007.
pub fn shrink(alloc: Global, signals: &Signals) -> Result<Classes, AllocError>
    ensures classes { IfOk result (λ c. IsSignalClasses (rules_of signals.now) c.lists) }
    ensures parents { IfOk result (λ c. c.parents ≡ map (parents (rules_of signals.now)) (range_with_len 1 (round_count (rules_of signals.now)))) }
{
    let numbers = node_numbers(alloc, signals)?;
    let lists = class_lists(alloc, signals, &numbers)?;
    Classes::of_filter(alloc, signals.parents(), lists)
}
