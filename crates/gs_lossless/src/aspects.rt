//! The two aspects on which signals are compared, and the parts of a signal on each: its deals, and its children.

ghost use Rattle.std.specs.{Prelude.{◌≡◌, ◌-◌, ◌++◌, ◌<◌, ◌≤◌, ◌^◌, All, IfOk, OnOk, length, map}, List.{range_with_len}};
ghost use Rattle.gs_model.specs.Deals.{Deal as Dealt, deals as all_deals};
ghost use Rattle.gs_tree.specs.{Trees.{rules_of}, Walk.{last_count}};
ghost use Rattle.gs_lossless.specs.Amounts.{counted_part, deal_part, deal_parts as parts_between};

use crate::parts::Part;
use crate::runs::Run;
use gs_tree::{Deal, Deals, Signals};
use std::alloc::{AllocError, Global};

/// The number of parts to reserve room for: most last-round signals have no more deals.
const FEW: usize = 64;

/// One of the two things in which the members of a lossless class agree.
#[derive(Clone, Copy)]
pub enum Aspect {
    /// The weight of a signal's deals against each class of the opponent, in the last round for each outcome too.
    Deals,
    /// The number of a signal's children in each class.
    Children,
}

/// Returns a deal as a part: its weight, at the key of player 2's signal and at its outcome, or at outcome 0 without `by_outcome`.
fn part_of(keys: &[u32], by_outcome: bool, deal: Deal) -> Part
    requires in_range { deal.two < length keys.now }
    requires few { deal.weight < 2 ^ 32 }
    ensures { result ≡ deal_part keys.now by_outcome deal }
{
    Part {
        class: keys[deal.two as usize],
        outcome: if by_outcome { deal.outcome } else { 0 },
        weight: deal.weight as u32,
    }
}

/// Adds the parts of some deals to `parts`.
fn push_parts(
    parts: &mut Vec<Part>,
    deals: Deals<'_>,
    keys: &[u32],
    by_outcome: bool,
) -> Result<(), AllocError>
    requires in_range { All (λ (d : Dealt). d.two < length keys.now) deals }
    requires few { All (λ (d : Dealt). d.weight < 2 ^ 32) deals }
    ensures { OnOk result (parts.new.items ≡ parts.old.items ++ map (deal_part keys.now by_outcome) deals.entry) }
{
    for deal in deals {
        parts.push(part_of(keys, by_outcome, deal))?;
    }
    Ok(())
}

/// Returns the parts of the deals of a run of last-round signals.
pub(crate) fn run_parts(
    alloc: Global,
    signals: &Signals,
    keys: &[u32],
    by_outcome: bool,
    run: Run,
) -> Result<Vec<Part>, AllocError>
    requires all { length keys.now ≡ last_count (rules_of signals.now) }
    requires ordered { run.first ≤ run.end }
    requires within { run.end ≤ last_count (rules_of signals.now) }
    ensures { IfOk result (λ v. v.items ≡ parts_between (all_deals (rules_of signals.now)) keys.now by_outcome run.first run.end) }
{
    let mut parts = Vec::with_capacity(alloc, FEW)?;
    for place in run.first..run.end {
        push_parts(&mut parts, signals.deals_of(place), keys, by_outcome)?;
    }
    Ok(parts)
}

/// Returns a run of children as parts: each counts once, at its class.
pub(crate) fn child_parts(alloc: Global, keys: &[u32], run: Run) -> Result<Vec<Part>, AllocError>
    requires ordered { run.first ≤ run.end }
    requires within { run.end ≤ length keys.now }
    ensures { IfOk result (λ v. v.items ≡ map (counted_part keys.now) (range_with_len run.first (run.end - run.first))) }
{
    let mut parts = Vec::with_capacity(alloc, (run.end - run.first) as usize)?;
    for child in run.first..run.end {
        parts.push(Part {
            class: keys[child as usize],
            outcome: 0,
            weight: 1,
        })?;
    }
    Ok(parts)
}
