//! The number of pairs of raw signals over all ends of a game.

use crate::rows::{agree, over_game};
use gs_raw::raw_cells;
use gs_samples::KUHN;
use std::alloc::Global;
use std::test::Fail;

/// Returns how many raw cells Kuhn's game has.
fn cells_of_kuhn(alloc: Global) -> Result<u64, Fail> {
    over_game(alloc, KUHN, |signals| {
        Ok(raw_cells(alloc, signals.game(), signals)?)
    })
}

#[test]
fn raw_cells_of_kuhn(rt: HostRuntime) -> Result<(), Fail> {
    agree(rt.alloc(), cells_of_kuhn(rt.alloc())?, 30, KUHN)
}
