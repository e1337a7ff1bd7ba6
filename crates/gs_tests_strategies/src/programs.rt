//! What stops the path of the linear program of a game over classes.

use crate::leduc::stop_of_stated;
use crate::rows::not_lossless;
use gs_lossless::{Lossless, check};
use gs_samples::{classes_of, game_of};
use gs_seq::Abstract;
use gs_tree::Signals;
use std::alloc::Global;
use std::test::Fail;

/// Returns what stops the path for lossless classes.
fn stop_by(alloc: Global, lossless: &Lossless<'_>) -> Result<String, Fail> {
    let form = Abstract::of(alloc, lossless)?;
    stop_of_stated(alloc, &form)
}

/// Returns what stops the path for signals over classes.
fn stop_over(alloc: Global, signals: &Signals<'_>, classes: &str) -> Result<String, Fail> {
    let classes = classes_of(alloc, signals, classes)?;
    let lossless = check(alloc, signals, &classes).map_err(not_lossless)?;
    stop_by(alloc, &lossless)
}

/// Returns what stops the path for a game over classes.
pub(crate) fn stop_in(alloc: Global, game: &str, classes: &str) -> Result<String, Fail> {
    let game = game_of(alloc, game)?;
    let signals = Signals::of(alloc, &game)?;
    stop_over(alloc, &signals, classes)
}
