//! Lists of lists, one for each round.

ghost use Rattle.std.specs.{Prelude.{◌≡◌, ◌<◌, ◌≤◌, length, IfOk, MatchOption, ◌+◌}, List.{range_with_len}};
ghost use Rattle.gs_model.specs.{Rows.{rows}, Classes.{list_of}};
ghost use Rattle.gs_filter.specs.{Faults.{Agree, IsFirstLength}, Filter.{AreParents, single_classes}};

use std::alloc::{AllocError, Global};

/// Returns the list of a round.
pub(crate) fn of_round(lists: &[Vec<u32>], round: u32) -> &[u32]
    requires some { 0 < round }
    requires top { round ≤ length lists.now }
    ensures { result.now ≡ list_of (rows lists.now) round }
{
    &lists[round as usize - 1]
}

/// Returns a copy of the lists.
pub(crate) fn copy_of(alloc: Global, lists: &[Vec<u32>]) -> Result<Vec<Vec<u32>>, AllocError>
    ensures { IfOk result (λ copy. rows copy.items ≡ rows lists.now) }
{
    let mut copy = Vec::new(alloc);
    for list in lists {
        copy.push(Vec::from_slice(alloc, list)?)?;
    }
    Ok(copy)
}

/// Returns for each list the numbers from 1 to its length.
pub(crate) fn counted(alloc: Global, lists: &[Vec<u32>]) -> Result<Vec<Vec<u32>>, AllocError>
    requires { AreParents (rows lists.now) }
    ensures { IfOk result (λ numbers. rows numbers.items ≡ single_classes (rows lists.now)) }
{
    let mut numbers = Vec::new(alloc);
    for list in lists {
        numbers.push(count_to(alloc, list.len() as u32)?)?;
    }
    Ok(numbers)
}

/// Returns the numbers from 1 to `last`.
fn count_to(alloc: Global, last: u32) -> Result<Vec<u32>, AllocError>
    ensures { IfOk result (λ numbers. numbers.items ≡ range_with_len 1 last) }
{
    let mut numbers = Vec::with_capacity(alloc, last as usize)?;
    for number in 0..last {
        numbers.push(number + 1)?;
    }
    Ok(numbers)
}

/// Returns the first round that one side lacks or whose two lists differ in length.
pub(crate) fn first_length(parents: &[Vec<u32>], lists: &[Vec<u32>]) -> Option<u32>
    requires { length parents.now ≤ 4 }
    ensures { MatchOption result (Agree (rows parents.now) (rows lists.now)) (IsFirstLength (rows parents.now) (rows lists.now)) }
{
    let rounds = parents.len().min(lists.len()) as u32;
    for round in 1..rounds + 1 {
        if of_round(parents, round).len() != of_round(lists, round).len() {
            return Some(round);
        }
    }
    if parents.len() == lists.len() {
        None
    } else {
        Some(rounds + 1)
    }
}
