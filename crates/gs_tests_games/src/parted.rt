//! Splitting classes of whole games, compared with a separate program that works by the definitions.

ghost use Rattle.std.specs.Prelude.{◌≡◌};
ghost use Rattle.gs_model.specs.Frame.{frame_of};
ghost use Rattle.gs_tree.specs.Trees.{rules_of};

use crate::asked::{Question, asked};
use gs_filter::Classes;
use gs_lossless::check;
use gs_samples::classes_of;
use gs_samples::decks::{KUHN, LEDUC, LEDUC_OF_TWO_RANKS, RHODE_KA};
use gs_split::split;
use gs_tree::Signals;
use std::alloc::{AllocError, Global};
use std::test::Fail;

/// Returns whether classes are lossless and are not split further.
fn stays(alloc: Global, signals: &Signals<'_>, classes: &Classes) -> Result<bool, AllocError>
    requires { classes.now.parents ≡ (frame_of (rules_of signals.now)).parents }
{
    let again = split(alloc, signals, classes)?;
    Ok(again.lists() == classes.lists() && check(alloc, signals, classes).is_ok())
}

/// Returns whether classes are split into the expected ones, which are lossless and are not split further.
fn parts_as(
    alloc: Global,
    signals: &Signals<'_>,
    from: &Classes,
    wanted: &Classes,
) -> Result<bool, AllocError>
    requires { from.now.parents ≡ (frame_of (rules_of signals.now)).parents }
{
    let parted = split(alloc, signals, from)?;
    Ok(stays(alloc, signals, &parted)? && parted.lists() == wanted.lists())
}

/// The question whether the classes of one text are split into those of another, which are lossless and are not split further.
#[derive(Clone, Copy)]
struct Parted<'t> {
    from: &'t str,
    to: &'t str,
}

impl Question for Parted<'_> {
    type Answer = bool;

    fn answer(&self, alloc: Global, signals: &Signals<'_>) -> Result<bool, Fail> {
        let from = classes_of(alloc, signals, self.from)?;
        let wanted = classes_of(alloc, signals, self.to)?;
        Ok(parts_as(alloc, signals, &from, &wanted)?)
    }
}

/// A class for each signal of Leduc hold'em.
const SINGLES: &str =
    "1 2 3 4 5 6/1 2 3 4 5 6 7 8 9 10 11 12 13 14 15 16 17 18 19 20 21 22 23 24 25 26 27 28 29 30";

/// Games, classes of their signals, and the classes that they are split into.
const CASES: &[(&str, &str, &str)] = &[
    (KUHN, "1 1 1", "1 2 3"),
    (LEDUC, "isomorphic", "ranks"),
    (
        LEDUC,
        "1 1 1 1 1 1/1 1 1 1 1 1 1 1 1 1 1 1 1 1 1 1 1 1 1 1 1 1 1 1 1 1 1 1 1 1",
        "ranks",
    ),
    (LEDUC, SINGLES, SINGLES),
    (RHODE_KA, "hands", "hands"),
    (
        RHODE_KA,
        "1 1 1 1/1 1 1 1 1 1 1 1 1 1 1 1/1 1 1 1 1 1 1 1 1 1 1 1 1 1 1 1 1 1 1 1 1 1 1 1",
        "hands",
    ),
    (LEDUC_OF_TWO_RANKS, "1 1/1 1 1 1", "1 2/1 2 3 4"),
];

#[test]
fn classes_of_whole_games(rt: HostRuntime) -> Result<(), Fail> {
    for &(line, from, to) in CASES {
        assert!(rt;
            asked(rt.alloc(), line, &Parted { from, to })?,
            "{line} {from}"
        );
    }
    Ok(())
}
