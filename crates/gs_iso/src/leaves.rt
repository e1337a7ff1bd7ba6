//! Leaves, signatures and numbers of last-round signals.

ghost use Rattle.std.specs.Prelude.{◌≡◌, ◌+◌, ◌<◌, ◌≤◌, ◌^◌, All, IfOk, OnOk, map, nat_eq, unsigned_abs};
ghost use Rattle.indexmap.specs.IndexSet.{IsUnique, index_set_len};
ghost use Rattle.gs_model.specs.{Game.{round_count}, Signals.{signal_at}, ViewTree.{leaves}};
ghost use Rattle.gs_tree.specs.{Trees.{rules_of}, Walk.{last_count}};
ghost use Rattle.gs_iso.specs.{KeyNumbers.{IsNumberOf, StayIn, same_parts}, Orders.{leaf_mark, leaf_of}, Numbers.{IsLeafSignature, IsNumbering}};

use crate::hands::stand_ins_at;
use crate::nodes::Leaf;
use crate::numbers::number_of_list;
use gs_tree::{Deal, Deals, Signals};
use indexmap::IndexSet;
use std::alloc::{AllocError, Global};

/// What is added to the mark of a lost leaf: more than the size of any outcome.
const LOST: u64 = 256;

/// What one more way adds to the mark of a leaf.
const A_WAY: u64 = 512;

/// Returns the deals of one signal as leaves. The ways of a leaf are the deal's weight divided by `path`, the number of ways to the signal.
fn leaves_of(alloc: Global, deals: Deals<'_>, path: u64) -> Result<Vec<Leaf>, AllocError>
    requires { 0 < path }
    ensures { IfOk result (λ v. v.items ≡ map (leaf_of path) deals.entry) }
{
    deals
        .map(|deal| Leaf {
            ways: deal.weight / path,
            outcome: deal.outcome,
        })
        .collect(alloc)
}

/// Returns the leaves under a last-round signal, in the order of its deals.
pub(crate) fn leaves_under(
    alloc: Global,
    signals: &Signals,
    signal: u32,
) -> Result<Vec<Leaf>, AllocError>
    requires { signal < last_count (rules_of signals.now) }
    ensures { IfOk result (λ v. v.items ≡ leaves (rules_of signals.now) (signal_at (rules_of signals.now) (round_count (rules_of signals.now)) signal)) }
{
    leaves_of(alloc, signals.deals_of(signal), signals.path_weight(signal))
}

/// Returns the mark of a deal as a leaf: one number for its ways and its outcome. `path` is the number of ways to the deal's signal.
/// One number, since whole numbers are sorted and compared at half the cost of pairs.
fn mark_of(deal: Deal, path: u64) -> u64
    requires some { 0 < path }
    requires few { deal.weight < 2 ^ 32 }
    ensures mark { result ≡ leaf_mark (leaf_of path deal) }
    ensures small { unsigned_abs deal.outcome < 256 }
{
    let side = if deal.outcome < 0 { LOST } else { 0 };
    deal.weight / path * A_WAY + side + u64::from(deal.outcome.unsigned_abs())
}

/// Replaces the content of `marks` by the marks of the leaves under a last-round signal, in the order of its deals.
fn mark_leaves(marks: &mut Vec<u64>, signals: &Signals, signal: u32) -> Result<(), AllocError>
    requires { signal < last_count (rules_of signals.now) }
    ensures marks { OnOk result (marks.new.items ≡ map leaf_mark
        (leaves (rules_of signals.now) (signal_at (rules_of signals.now) (round_count (rules_of signals.now)) signal))) }
    ensures small { OnOk result (All (λ leaf. unsigned_abs leaf.1 < 256)
        (leaves (rules_of signals.now) (signal_at (rules_of signals.now) (round_count (rules_of signals.now)) signal))) }
{
    let path = signals.path_weight(signal);
    marks.clear();
    for deal in signals.deals_of(signal) {
        marks.push(mark_of(deal, path))?;
    }
    Ok(())
}

/// Returns the number of a last-round signal's signature, in order of first occurrence: the marks of the leaves under the signal in ascending order.
/// Replaces the content of `signature` by it.
fn signature_number(
    alloc: Global,
    seen: &mut IndexSet<Vec<u64>>,
    signature: &mut Vec<u64>,
    signals: &Signals,
    signal: u32,
) -> Result<u32, AllocError>
    requires in_range { signal < last_count (rules_of signals.now) }
    requires few { index_set_len seen.old + 1 < 2 ^ 32 }
    requires unique { IsUnique (same_parts nat_eq) seen.old }
    ensures signs { OnOk result (IsLeafSignature (rules_of signals.now) signal signature.new.items) }
    ensures kept { OnOk result (StayIn seen.old.keys seen.new.keys) }
    ensures number { IfOk result (IsNumberOf nat_eq seen.new.keys signature.new.items) }
    ensures few { OnOk result (index_set_len seen.new ≤ index_set_len seen.old + 1) }
    ensures unique { OnOk result (IsUnique (same_parts nat_eq) seen.new) }
{
    mark_leaves(signature, signals, signal)?;
    signature.sort_unstable();
    number_of_list(alloc, seen, signature)
}

/// Returns a number for each last-round signal: equal exactly where the signals are isomorphic.
/// Reads the leaves of a signal only if it has no earlier stand-in. The numbers overwrite the list of stand-ins, signal by signal.
pub(crate) fn leaf_numbers(alloc: Global, signals: &Signals) -> Result<Vec<u32>, AllocError>
    ensures { IfOk result (λ v. IsNumbering (rules_of signals.now) (round_count (rules_of signals.now)) v.items) }
{
    let count = signals.count(signals.rounds());
    let mut numbers = {
        let keys = vec![in alloc; 0; count as usize]?;
        stand_ins_at(alloc, signals, &keys)?
    };
    let mut seen = IndexSet::new(alloc);
    let mut signature = Vec::new(alloc);
    for signal in 0..count {
        let first = numbers[signal as usize];
        let number = if first < signal {
            numbers[first as usize]
        } else {
            signature_number(alloc, &mut seen, &mut signature, signals, signal)?
        };
        numbers[signal as usize] = number;
    }
    Ok(numbers)
}
