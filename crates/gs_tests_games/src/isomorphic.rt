//! Pairings in Leduc's game.

use crate::asked::{Question, asked};
use gs_iso::pairing;
use gs_samples::decks::LEDUC;
use gs_tree::Signals;
use std::alloc::Global;
use std::test::Fail;

/// Returns the place of the first child in a pairing, and `None` without a pairing.
fn first_place(
    alloc: Global,
    signals: &Signals<'_>,
    round: u8,
    a: u32,
    b: u32,
) -> Result<Option<u32>, Fail> {
    if round == 0 || signals.rounds() < round {
        return Ok(None);
    }
    let count = signals.count(round);
    if count <= a || count <= b {
        return Ok(None);
    }
    match pairing(alloc, signals, round, a, b)? {
        Some(found) => Ok(found.to.first().copied()),
        None => Ok(None),
    }
}

/// The question for the place of the first child in the pairing of two signals of a round.
#[derive(Clone, Copy)]
struct Paired {
    round: u8,
    a: u32,
    b: u32,
}

impl Question for Paired {
    type Answer = Option<u32>;

    fn answer(&self, alloc: Global, signals: &Signals<'_>) -> Result<Option<u32>, Fail> {
        first_place(alloc, signals, self.round, self.a, self.b)
    }
}

/// Returns the place of the first child in a pairing of Leduc hold'em.
fn place_in_leduc(alloc: Global, round: u8, a: u32, b: u32) -> Result<Option<u32>, Fail> {
    asked(alloc, LEDUC, &Paired { round, a, b })
}

#[test]
fn pairings_in_leduc(rt: HostRuntime) -> Result<(), Fail> {
    let alloc = rt.alloc();
    // Js/+Qs and Js/+Ks
    assert_eq!(rt; place_in_leduc(alloc, 2, 1, 3)?, Some(0));
    // Js/+Jh and Qs/+Qh
    assert!(rt; place_in_leduc(alloc, 2, 0, 12)?.is_some());
    // Js and Qs
    assert_eq!(rt; place_in_leduc(alloc, 1, 0, 2)?, None);
    Ok(())
}
