//! Games in sequence form, compared with sums taken by hand. A hand above the lowest category wins double.

ghost use Rattle.std.specs.Prelude.{◌<◌};

use crate::rows::{agree, not_lossless, over_game};
use gs_lossless::{Lossless, check};
use gs_samples::classes_of;
use gs_seq::{Abstract, Pair};
use gs_tree::Signals;
use std::alloc::Global;
use std::test::Fail;

/// A row of the table: a round, a class of player 1, the class of player 2 after which to look, and the pair there.
type Query = (u8, u32, u32, Option<(u32, u32, i64)>);

/// Returns the pair of a class after another one, or `None` if the round has no such class.
fn pair_at(form: &Abstract<'_>, round: u8, one: u32, after: u32) -> Option<Pair> {
    let classes = form.lossless().classes();
    if 0 < round && round <= classes.rounds() && 0 < one && one <= classes.classes(round) {
        return form.pair_after(round, one, after);
    }
    None
}

/// Returns whether each query has its answer.
fn answers(form: &Abstract<'_>, queries: &[Query]) -> bool {
    for query in queries {
        let (round, one, after, want) = *query;
        let found = pair_at(form, round, one, after).map(|pair| (
            pair.two,
            pair.weight,
            pair.signed,
        ));
        if found != want {
            return false;
        }
    }
    true
}

/// The expected numbers of sequences of both players, and the queries with their answers.
type Want<'a> = ((u32, u32), &'a [Query]);

/// Returns whether the sequence form has the expected numbers of sequences and answers.
fn formed(alloc: Global, lossless: &Lossless<'_>, want: Want<'_>) -> Result<bool, Fail> {
    let form = Abstract::of(alloc, lossless)?;
    let counts = (form.sequences(1), form.sequences(2));
    Ok(counts == want.0 && answers(&form, want.1))
}

/// Returns what `formed` returns for the sequence form over classes of these signals.
fn over_signals(
    alloc: Global,
    signals: &Signals<'_>,
    classes: &str,
    want: Want<'_>,
) -> Result<bool, Fail> {
    let classes = classes_of(alloc, signals, classes)?;
    let lossless = check(alloc, signals, &classes).map_err(not_lossless)?;
    formed(alloc, &lossless, want)
}

/// Returns what `formed` returns for the sequence form of a game over classes.
fn outcome(alloc: Global, game: &str, classes: &str, want: Want<'_>) -> Result<bool, Fail> {
    over_game(alloc, game, |signals| {
        over_signals(alloc, signals, classes, want)
    })
}

const OF_KUHN: &[Query] = &[
    (1, 1, 0, Some((2, 1, -1))),
    (1, 1, 2, Some((3, 1, -1))),
    (1, 1, 3, None),
    (1, 2, 0, Some((1, 1, 1))),
    (1, 2, 1, Some((3, 1, -1))),
    (1, 3, 1, Some((2, 1, 1))),
    (1, 3, 2, None),
];

const OF_LEDUC: &[Query] = &[
    (1, 1, 0, Some((1, 8, 0))),
    (1, 1, 1, Some((2, 16, 0))),
    (1, 3, 3, None),
    (2, 1, 0, Some((4, 4, 8))),
    (2, 1, 4, Some((7, 4, 8))),
    (2, 1, 7, None),
    (2, 2, 0, Some((2, 4, 0))),
    (2, 2, 2, Some((5, 4, -8))),
    (2, 2, 5, Some((8, 8, -8))),
    (2, 2, 8, None),
];

/// Games and classes, the numbers of sequences of both players, and pairs of classes.
const CASES: &[(&str, &str, Want<'static>)] = &[
    ("JQK, s, high 1 2 1, 1 0 kuhn", "", ((13, 13), OF_KUHN)),
    (
        "JQK, sh, pair 1 2 1, 1 0 1[k:2[k:=]], 0 1 kuhn",
        "ranks",
        ((40, 40), OF_LEDUC),
    ),
];

#[test]
fn forms_of_whole_games(rt: HostRuntime) -> Result<(), Fail> {
    let alloc = rt.alloc();
    for &(game, classes, want) in CASES {
        agree(alloc, outcome(alloc, game, classes, want)?, true, game)?;
    }
    Ok(())
}
