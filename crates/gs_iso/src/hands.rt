//! Stand-ins of last-round signals by their hands.

ghost use Rattle.std.specs.Prelude.{◌≡◌, IfOk, length};
ghost use Rattle.gs_lossless.specs.Alike.{AreStandIns};
ghost use Rattle.gs_tree.specs.{Masks.{AreMasks}, Trees.{rules_of}, Walk.{last_count}};

use gs_lossless::stand_ins;
use gs_tree::Signals;
use std::alloc::{AllocError, Global};
use std::collections::HashMap;

/// Returns for each last-round signal a stand-in: the last earlier one with the same key, public cards, own cards and strength, or itself if there is none.
/// `masks` has the own cards of each signal as bits.
fn stand_ins_by_hand(
    alloc: Global,
    signals: &Signals,
    keys: &[u32],
    masks: &[u64],
) -> Result<Vec<u32>, AllocError>
    requires keys { length keys.now ≡ last_count (rules_of signals.now) }
    requires masks { AreMasks (rules_of signals.now) masks.now }
    ensures { IfOk result (λ v. AreStandIns (rules_of signals.now) keys.now v.items) }
{
    let (boards, _) = signals.boards();
    let count = signals.count(signals.rounds());
    let mut firsts = Vec::with_capacity(alloc, count as usize)?;
    let mut seen = HashMap::new(alloc);
    for signal in 0..count {
        let place = signal as usize;
        let board = (boards[place], signals.strength(signal));
        let hand = (board, (masks[place], keys[place]));
        let earlier = seen.insert(hand, signal)?;
        firsts.push(earlier.unwrap_or(signal))?;
    }
    Ok(firsts)
}

/// Returns for each last-round signal a stand-in, at the same or an earlier place. `keys` has a key for each last-round signal.
pub(crate) fn stand_ins_at(
    alloc: Global,
    signals: &Signals,
    keys: &[u32],
) -> Result<Vec<u32>, AllocError>
    requires { length keys.now ≡ last_count (rules_of signals.now) }
    ensures { IfOk result (λ v. AreStandIns (rules_of signals.now) keys.now v.items) }
{
    match signals.masks() {
        Some(masks) => stand_ins_by_hand(alloc, signals, keys, masks),
        None => stand_ins(alloc, signals, keys),
    }
}
