//! Numbers of ways, one for each signal of a round.

ghost use Rattle.std.specs.Prelude.{◌≡◌, ◌≤◌, ◌↔◌, EachIndex, IsTrue, length, slice_index};

use std::alloc::{AllocError, Global};
use std::marker::Model;

/// Returns whether each of some small numbers is 1.
fn are_ones(numbers: &[u32]) -> bool
    ensures { IsTrue result ↔ EachIndex numbers.now (λ i. slice_index numbers.now i ≡ 1) }
{
    numbers.iter().all(|number| *number == 1)
}

/// Returns whether each of some numbers is 1.
fn are_wide_ones(numbers: &[u64]) -> bool
    ensures { IsTrue result ↔ EachIndex numbers.now (λ i. slice_index numbers.now i ≡ 1) }
{
    numbers.iter().all(|number| *number == 1)
}

/// A list of numbers. As long as each is 1 they are counted and not stored, so a deck of single cards stores none. Those behind are stored in 32 bits, up to
/// the first that needs more.
#[derive(Drop)]
pub(crate) struct Ways {
    // how many come first that are 1
    ones: u32,
    // those behind them
    rest: Vec<u32>,
    // those behind these: from the first that needs more than 32 bits, or past the 2^32 - 1 that `rest` may have
    wide: Vec<u64>,
    ghost few: { length rest.items ≤ 4294967295 },
}

impl Model for Ways {
    ghost use Rattle.std.specs.Prelude.{List, ℕ, ◌++◌, replicate};

    ghost Value = { List ℕ };

    ghost view = { λ w. replicate w.ones 1 ++ w.rest.items ++ w.wide.items };
}

impl Ways {
    ghost use Rattle.std.specs.Prelude.{◌≡◌, ◌<◌, ◌++◌, ◌∷◌, ◌↔◌, [], EachIndex, IfSome, IsTrue, OnOk, length, replicate, slice_index};

    /// Returns the empty list.
    pub(crate) fn new(alloc: Global) -> Ways
        ensures { result ≡ [] }
    {
        Ways {
            ones: 0,
            rest: Vec::new(alloc),
            wide: Vec::new(alloc),
        }
    }

    /// Returns a list of ones, by their number.
    pub(crate) fn all_ones(alloc: Global, count: u32) -> Ways
        ensures { result ≡ replicate count 1 }
    {
        Ways {
            ones: count,
            rest: Vec::new(alloc),
            wide: Vec::new(alloc),
        }
    }

    /// Returns the length of the list where all its numbers are 1 and none is stored, else none.
    pub(crate) fn ones(&self) -> Option<u32>
        ensures { IfSome result (λ count. self.now ≡ replicate count 1) }
    {
        if self.rest.is_empty() && self.wide.is_empty() {
            Some(self.ones)
        } else {
            None
        }
    }

    /// Returns whether each number is 1.
    pub(crate) fn are_ones(&self) -> bool
        ensures { IsTrue result ↔ EachIndex self.now (λ i. slice_index self.now i ≡ 1) }
    {
        are_ones(&self.rest) && are_wide_ones(&self.wide)
    }

    /// Returns the length of the list.
    pub(crate) fn len(&self) -> usize
        ensures { result ≡ length self.now }
    {
        self.ones as usize + self.rest.len() + self.wide.len()
    }

    /// Returns the number of a signal.
    pub(crate) fn of(&self, signal: usize) -> u64
        requires { signal < length self.now }
        ensures { result ≡ slice_index self.now signal }
    {
        let ones = self.ones as usize;
        if signal < ones {
            return 1;
        }
        let behind = signal - ones;
        if behind < self.rest.len() {
            u64::from(self.rest[behind])
        } else {
            self.wide[behind - self.rest.len()]
        }
    }

    /// Adds the number of the next signal. Fails only if memory runs out.
    #[inline(always)]
    pub(crate) fn push(&mut self, ways: u64) -> Result<(), AllocError>
        ensures { OnOk result (self.new ≡ self.old ++ ways ∷ []) }
    {
        let most = u32::MAX as usize;
        if !self.wide.is_empty() || self.rest.len() == most || ways > u64::from(u32::MAX) {
            self.wide.push(ways)?;
        } else if ways == 1 && self.rest.is_empty() && self.ones < u32::MAX {
            self.ones += 1;
        } else {
            self.rest.push(ways as u32)?;
        }
        Ok(())
    }
}
