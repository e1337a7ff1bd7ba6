//! Stand-ins of whole games, compared with their deals one by one. A separate program counted the boards' hands by rank and key, or by strength and key if
//! bonuses differ.

ghost use Rattle.std.specs.Prelude.{◌≡◌, IfOk, length};
ghost use Rattle.gs_tree.specs.{Trees.{rules_of}, Walk.{last_count}};

use crate::asked::{Question, asked};
use gs_lossless::stand_ins;
use gs_samples::decks::{
    KUHN, LEDUC, LEDUC_OF_COPIES, RHODE_OF_BONUSES, RHODE_TJQK, TWO_OWN_CARDS,
};
use gs_tree::Signals;
use std::alloc::{AllocError, Global};
use std::test::Fail;

/// Returns the same key for each signal of the last round.
fn one_key(alloc: Global, signals: &Signals) -> Result<Vec<u32>, AllocError>
    ensures { IfOk result (λ v. length v.items ≡ last_count (rules_of signals.now)) }
{
    let count = signals.count(signals.rounds());
    let keys = vec![in alloc; 1u32; count as usize]?;
    Ok(keys)
}

/// Returns two alternating keys.
fn two_keys(alloc: Global, signals: &Signals) -> Result<Vec<u32>, AllocError>
    ensures { IfOk result (λ v. length v.items ≡ last_count (rules_of signals.now)) }
{
    let mut keys = one_key(alloc, signals)?;
    for (place, key) in keys.iter_mut().enumerate() {
        *key = (place % 2) as u32;
    }
    Ok(keys)
}

/// Returns the deals of a signal as its player sees them, in ascending order.
fn sights(
    alloc: Global,
    signals: &Signals,
    keys: &[u32],
    signal: u32,
) -> Result<Vec<(u32, i8, u64)>, Fail> {
    let mut all = Vec::new(alloc);
    if signal < signals.count(signals.rounds()) {
        for deal in signals.deals_of(signal) {
            let key = keys.get(deal.two as usize).copied().unwrap_or(0);
            all.push((key, deal.outcome, deal.weight))?;
        }
    }
    all.sort_unstable();
    Ok(all)
}

/// Returns how many signals stand for themselves, or `None` if a signal sees other deals than the one that stands for it.
fn own_stand_ins(alloc: Global, signals: &Signals, keys: &[u32]) -> Result<Option<u32>, Fail>
    requires { length keys.now ≡ last_count (rules_of signals.now) }
{
    let firsts = stand_ins(alloc, signals, keys)?;
    let mut own = 0u32;
    for signal in 0..signals.count(signals.rounds()) {
        let first = firsts.get(signal as usize).copied().unwrap_or(0);
        let mine = sights(alloc, signals, keys, signal)?;
        let his = sights(alloc, signals, keys, first)?;
        if first > signal || mine.as_slice() != his.as_slice() {
            return Ok(None);
        }
        if first == signal {
            own = own.wrapping_add(1);
        }
    }
    Ok(Some(own))
}

/// Returns how many signals stand for themselves if all have one key.
fn own_with_one(alloc: Global, signals: &Signals) -> Result<Option<u32>, Fail> {
    let keys = one_key(alloc, signals)?;
    own_stand_ins(alloc, signals, &keys)
}

/// Returns how many signals stand for themselves with two alternating keys.
fn own_with_two(alloc: Global, signals: &Signals) -> Result<Option<u32>, Fail> {
    let keys = two_keys(alloc, signals)?;
    own_stand_ins(alloc, signals, &keys)
}

/// The question how many signals stand for themselves: with one key for all, and with two alternating keys.
struct StandIns;

impl Question for StandIns {
    type Answer = (Option<u32>, Option<u32>);

    fn answer(
        &self,
        alloc: Global,
        signals: &Signals<'_>,
    ) -> Result<(Option<u32>, Option<u32>), Fail> {
        let one = own_with_one(alloc, signals)?;
        let two = own_with_two(alloc, signals)?;
        Ok((one, two))
    }
}

/// Games, and how many of their signals stand for themselves: with one key for all, and with two alternating keys.
const CASES: &[(&str, u32, u32)] = &[
    (TWO_OWN_CARDS, 12, 12),
    (LEDUC_OF_COPIES, 9, 9),
    (LEDUC, 3, 10),
    (KUHN, 3, 3),
    (RHODE_TJQK, 28, 322),
    (RHODE_OF_BONUSES, 72, 222),
];

#[test]
fn stand_ins_see_the_same(rt: HostRuntime) -> Result<(), Fail> {
    for &(line, one, two) in CASES {
        assert_eq!(rt;
            asked(rt.alloc(), line, &StandIns)?,
            (Some(one), Some(two)),
            "{line}"
        );
    }
    Ok(())
}
