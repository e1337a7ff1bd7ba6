//! A proposal for the exact turns: classes split by hashed sums, which never split what a lossless refinement keeps together.

ghost use Rattle.std.specs.Prelude.{◌≡◌, ◌+◌, ◌<◌, ℕ, [], All, IfOk, IfSome, get_or, length, map};
ghost use Rattle.gs_model.specs.{Rows.{rows}, Frame.{frame_of, last_round}};
ghost use Rattle.gs_tree.specs.{Plain.{IsPlain}, Trees.{rules_of}};
ghost use Rattle.gs_split.specs.Proposal.{AreFair, AreFairFrom, IsProposal, child_number, mixed as mixed_of};

use crate::parting::parted;
use gs_boards::deal_remainders;
use gs_filter::Classes;
use gs_lossless::Grouped;
use std::alloc::{AllocError, Global};

/// An odd factor with no pattern in its bits.
const SPREAD: u64 = 11_400_714_819_323_198_485;

/// 2^32: it parts 64 bits into two halves.
const HALF: u64 = 0x1_0000_0000;

/// Returns a hash of a number: the upper half of 64 bits that it is spread over.
#[tactic(auto, unfolding(crate::specs::Proposal::mixed))]
fn mixed(number: u64) -> u32
    ensures { result ≡ mixed_of number }
{
    let spread = number.wrapping_mul(SPREAD);
    ((spread ^ (spread / HALF)).wrapping_mul(SPREAD) / HALF) as u32
}

/// Returns the hashes of class numbers.
fn mixed_classes(alloc: Global, classes: &[u32]) -> Result<Vec<u32>, AllocError>
    ensures { IfOk result (λ v. v.items ≡ map mixed_of classes.now) }
{
    let mut numbers = Vec::with_capacity(alloc, classes.len())?;
    for class in classes {
        numbers.push(mixed(u64::from(*class)))?;
    }
    Ok(numbers)
}

/// Returns for each of `count` signals the sum of the terms of its children, modulo 2^32. The lists have the parent, class and number of each child.
#[tactic(auto, using(crate::proofs::Proposed::child_none))]
fn child_numbers(
    alloc: Global,
    count: u32,
    parents: &[u32],
    classes: &[u32],
    numbers: &[u32],
) -> Result<Vec<u32>, AllocError>
    requires classes { length classes.now ≡ length parents.now }
    requires numbers { length numbers.now ≡ length parents.now }
    requires in_range { All (λ p. p < count) parents.now }
    ensures long { IfOk result (λ v. length v.items ≡ count) }
    ensures each { IfOk result (λ v. (s : ℕ) → s < count → get_or v.items s 0 ≡ child_number parents.now classes.now numbers.now s) }
{
    let mut sums = vec![in alloc; 0u32; count as usize]?;
    for (child, parent) in parents.iter().enumerate() {
        let term = mixed(u64::from(classes[child]) + u64::from(numbers[child]) * HALF);
        let place = *parent as usize;
        sums[place] = sums[place].wrapping_add(term);
    }
    Ok(sums)
}

/// Returns fair numbers of the last round: what its signals are paid in their deals, where the other player's signals have the hashes of their classes.
fn plain_numbers(alloc: Global, grouped: &Grouped<'_>) -> Result<Vec<u32>, AllocError>
    requires { IsPlain (rules_of grouped.now.signals.now) }
    ensures { let f = frame_of (rules_of grouped.now.signals.now) in
        IfOk result (λ v. AreFair f grouped.now.classes.now.lists (last_round f) v.items) }
{
    let last = grouped.signals.rounds();
    let list = &grouped.classes.lists()[usize::from(last) - 1];
    let hashes = mixed_classes(alloc, list)?;
    deal_remainders(alloc, grouped.signals, &hashes)
}

/// Returns fair numbers of the last round. Returns `None` unless every kind of card has at most one copy and each player gets one private card.
fn last_numbers(alloc: Global, grouped: &Grouped<'_>) -> Result<Option<Vec<u32>>, AllocError>
    ensures { let f = frame_of (rules_of grouped.now.signals.now) in
        IfOk result (λ o. IfSome o (λ v. AreFair f grouped.now.classes.now.lists (last_round f) v.items)) }
{
    if !grouped.signals.is_plain() {
        return Ok(None);
    }
    let numbers = plain_numbers(alloc, grouped)?;
    Ok(Some(numbers))
}

/// Returns fair numbers of a round, from those of the next round.
fn fair_numbers(
    alloc: Global,
    grouped: &Grouped<'_>,
    round: u8,
    below: &[u32],
) -> Result<Vec<u32>, AllocError>
    requires some { 0 < round }
    requires before_last { round < last_round (frame_of (rules_of grouped.now.signals.now)) }
    requires fair { AreFair (frame_of (rules_of grouped.now.signals.now)) grouped.now.classes.now.lists (round + 1) below.now }
    ensures { IfOk result (λ v. AreFair (frame_of (rules_of grouped.now.signals.now)) grouped.now.classes.now.lists round v.items) }
{
    let list = &grouped.classes.lists()[usize::from(round)];
    let parents = grouped.signals.parents_in(round + 1);
    child_numbers(alloc, grouped.signals.count(round), parents, list, below)
}

/// Returns the first list.
fn first_list(lists: &[Vec<u32>]) -> &[u32]
    requires { 0 < length lists.now }
    ensures { result.now ≡ get_or (rows lists.entry.now) 0 [] }
{
    &lists[0]
}

/// Returns fair numbers of all rounds, made from the last round up.
fn all_numbers(
    alloc: Global,
    grouped: &Grouped<'_>,
    last: Vec<u32>,
) -> Result<Vec<Vec<u32>>, AllocError>
    requires { let f = frame_of (rules_of grouped.now.signals.now) in
        AreFair f grouped.now.classes.now.lists (last_round f) last.items }
    ensures { IfOk result (λ v. AreFairFrom (frame_of (rules_of grouped.now.signals.now)) grouped.now.classes.now.lists 1 (rows v.items)) }
{
    let mut numbers = Vec::with_capacity(alloc, usize::from(grouped.signals.rounds()))?;
    numbers.push(last)?;
    for round in (1..grouped.signals.rounds()).rev() {
        let below = first_list(&numbers);
        let here = fair_numbers(alloc, grouped, round, below)?;
        numbers.insert(0, here)?;
    }
    Ok(numbers)
}

/// Returns classes between the given ones and their coarsest lossless refinement, or `None` if the boards cannot be walked along.
/// The last round is split by hashed sums over its deals, and each earlier round by hashed sums over the children.
pub(crate) fn proposal(alloc: Global, from: &Grouped<'_>) -> Result<Option<Classes>, AllocError>
    ensures parents { IfOk result (λ o. IfSome o (λ c. c.parents ≡ (frame_of (rules_of from.now.signals.now)).parents)) }
    ensures proposal { IfOk result (λ o. IfSome o (λ c. IsProposal (frame_of (rules_of from.now.signals.now)) from.now.classes.now.lists c.lists)) }
{
    let Some(last) = last_numbers(alloc, from)? else {
        return Ok(None);
    };
    let numbers = all_numbers(alloc, from, last)?;
    let classes = parted(alloc, from, &numbers)?;
    Ok(Some(classes))
}
