//! Numbers of the signals before the last round, made from the numbers of their children.

ghost use Rattle.std.specs.{Cow.{cow_slice_items}, Prelude.{ℕ, ◌≡◌, ◌<◌, ◌≤◌, ◌+◌, IfOk, List, OnOk, length, map}, List.{range_with_len}};
ghost use Rattle.gs_model.specs.{Game.{round_count}, Signals.{child_count, first_child, signals as signals_in}};
ghost use Rattle.gs_model.specs.Signatures.{IsSignature};
ghost use Rattle.gs_tree.specs.Trees.{rules_of};
ghost use Rattle.gs_iso.specs.{Numbers.{AreMarks, IsNumbering, child_part, marks_under}, Orders.{mark_lt}};

use crate::nodes::Child;
use crate::numbers::{number_of, number_of_list};
use gs_tree::Signals;
use indexmap::IndexSet;
use std::alloc::{AllocError, Global};
use std::borrow::CowSlice;

/// Returns the children of a signal in the order of their places. `below` has the numbers of the next round's signals.
pub(crate) fn children_under(
    alloc: Global,
    signals: &Signals,
    round: u8,
    signal: u32,
    below: &[u32],
) -> Result<Vec<Child>, AllocError>
    requires some { 0 < round }
    requires before_last { round < round_count (rules_of signals.now) }
    requires in_range { signal < length (signals_in (rules_of signals.now) round) }
    requires numbers { IsNumbering (rules_of signals.now) (round + 1) below.now }
    ensures { IfOk result (λ v. v.items ≡ map (child_part (rules_of signals.now) (round + 1) below.now)
        (range_with_len (first_child (rules_of signals.now) round signal) (child_count (rules_of signals.now) round signal))) }
{
    let (first, end) = signals.children(round, signal);
    let mut children = Vec::with_capacity(alloc, (end - first) as usize)?;
    for child in first..end {
        children.push(Child {
            edge: signals.edge(round + 1, child),
            number: below[child as usize],
        })?;
    }
    Ok(children)
}

/// Returns a mark for each signal of a round: equal exactly where both the edges to the signals and the numbers are equal.
/// If each edge has weight 1, the numbers are the marks.
fn edge_marks<'a>(
    alloc: Global,
    signals: &Signals,
    round: u8,
    numbers: &'a [u32],
) -> Result<CowSlice<'a, u32>, AllocError>
    requires some { 0 < round }
    requires last { round ≤ round_count (rules_of signals.now) }
    requires numbers { IsNumbering (rules_of signals.now) round numbers.now }
    ensures { IfOk result (λ v. AreMarks (rules_of signals.now) round numbers.now (cow_slice_items v)) }
{
    if signals.are_light(round) {
        return Ok(CowSlice::Borrowed(numbers));
    }
    let count = signals.count(round);
    let mut marks = Vec::with_capacity(alloc, count as usize)?;
    let mut seen = IndexSet::new(alloc);
    for signal in 0..count {
        let child = Child {
            edge: signals.edge(round, signal),
            number: numbers[signal as usize],
        };
        let mark = number_of(&mut seen, child)?;
        marks.push(mark)?;
    }
    Ok(CowSlice::Owned(marks))
}

/// Replaces the content of `signature` by the marks of a signal's children in ascending order. `marks` has the marks of the next round's signals.
fn sign_children(
    signature: &mut Vec<u32>,
    signals: &Signals,
    round: u8,
    signal: u32,
    marks: &[u32],
) -> Result<(), AllocError>
    requires some { 0 < round }
    requires before_last { round < round_count (rules_of signals.now) }
    requires in_range { signal < length (signals_in (rules_of signals.now) round) }
    requires marks { length marks.now ≡ length (signals_in (rules_of signals.now) (round + 1)) }
    ensures { OnOk result (IsSignature mark_lt (marks_under (rules_of signals.now) round marks.now signal) signature.new.items) }
{
    let (first, end) = signals.children(round, signal);
    signature.clear();
    signature.extend_from_slice(&marks[first as usize..end as usize])?;
    signature.sort_unstable();
    Ok(())
}

/// Returns a number for each signal of a round before the last, from the marks of the next round's signals.
fn numbers_by_marks(
    alloc: Global,
    signals: &Signals,
    round: u8,
    marks: &[u32],
) -> Result<Vec<u32>, AllocError>
    requires some { 0 < round }
    requires before_last { round < round_count (rules_of signals.now) }
    requires marks { (below : List ℕ) × IsNumbering (rules_of signals.now) (round + 1) below × AreMarks (rules_of signals.now) (round + 1) below marks.now }
    ensures { IfOk result (λ v. IsNumbering (rules_of signals.now) round v.items) }
{
    let count = signals.count(round);
    let mut seen = IndexSet::new(alloc);
    let mut signature = Vec::new(alloc);
    let mut numbers = Vec::with_capacity(alloc, count as usize)?;
    for signal in 0..count {
        sign_children(&mut signature, signals, round, signal, marks)?;
        let number = number_of_list(alloc, &mut seen, &signature)?;
        numbers.push(number)?;
    }
    Ok(numbers)
}

/// Returns a number for each signal of a round before the last: equal exactly where the signals are isomorphic.
/// `below` has the numbers of the next round's signals.
pub(crate) fn child_numbers(
    alloc: Global,
    signals: &Signals,
    round: u8,
    below: &[u32],
) -> Result<Vec<u32>, AllocError>
    requires some { 0 < round }
    requires before_last { round < round_count (rules_of signals.now) }
    requires numbers { IsNumbering (rules_of signals.now) (round + 1) below.now }
    ensures { IfOk result (λ v. IsNumbering (rules_of signals.now) round v.items) }
{
    let kept = edge_marks(alloc, signals, round + 1, below)?;
    numbers_by_marks(alloc, signals, round, kept.as_slice())
}
