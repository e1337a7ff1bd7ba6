//! Counts of runs, and of those that differ.

use crate::report::Found;
use std::fmt;

/// The number of runs, and the number of those that differ.
#[derive(Clone, Copy, Default)]
pub struct Tally {
    runs: u64,
    differ: u64,
}

impl Tally {
    /// Counts what a line shows.
    pub fn count(&mut self, found: &Found) {
        let (runs, differ) = match found {
            Found::Nothing => (0, 0),
            Found::Same => (1, 0),
            Found::Differs(_) => (1, 1),
        };
        self.add(Tally { runs, differ });
    }

    /// Adds the counts of another tally.
    pub fn add(&mut self, other: Tally) {
        self.runs = self.runs.saturating_add(other.runs);
        self.differ = self.differ.saturating_add(other.differ);
    }

    /// Returns whether some run differs.
    pub fn has_differences(self) -> bool {
        self.differ > 0
    }
}

impl fmt::Display for Tally {
    fn fmt<W: fmt::Write>(&self, f: &mut fmt::Formatter<W>) -> fmt::Result {
        let Tally { runs, differ } = *self;
        write!(f, "{runs} runs, {differ} differ")
    }
}
