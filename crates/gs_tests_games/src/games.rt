//! The sizes of games, and the names of their lines.

use gs_game::{Target, ValidGame};
use gs_samples::{KUHN, check_rows, game_of};
use std::alloc::{AllocError, Global};
use std::test::Fail;

/// Returns the sizes of a game.
fn told(alloc: Global, line: &str) -> Result<String, Fail> {
    let valid = game_of(alloc, line)?;
    let points = valid.points().len();
    let ends = valid.ends().len();
    let weight = valid.weight();
    Ok(format!(in alloc; "{points} points {ends} ends weight {weight}")?)
}

/// Games and their sizes, worked by hand from the rules of games.
const CASES: &[(&str, &str)] = &[
    ("JQK, s, high, 1 0 1[k4095:!]", "1 points 1 ends weight 6"),
    (
        "JQK, s, high, 1 0 eight, 0 0 eight, 0 0 eight, 0 0 sixteen",
        "585 points 8192 ends weight 6",
    ),
    (
        "JQK, sh, pair 3 3 1, 1 0 kuhn, 0 1 kuhn",
        "16 points 17 ends weight 120",
    ),
];

#[test]
fn sizes(rt: HostRuntime) -> Result<(), Fail> {
    check_rows(rt.alloc(), CASES, told)
}

/// Returns whether a position is one of the game's and has this text.
fn has_text(alloc: Global, game: &ValidGame, at: Target, text: &str) -> Result<bool, AllocError> {
    let points = game.points().len();
    let ends = game.ends().len();
    let within = match at {
        Target::Point(number) => (number as usize) < points,
        Target::End(number) => (number as usize) < ends,
    };
    if !within {
        return Ok(false);
    }
    let line = game.line_text(alloc, at)?;
    Ok(line.as_str() == text)
}

const TWO: &str = "JQK, s, high, 1 0 kuhn, 0 0 kuhn";

const LATE: &str = "JQK, s, high, 1 0 =, 0 0 kuhn";

/// Games, the text of a line, and the position that it names, worked by hand from the rules of such texts.
const LINES: &[(&str, &str, Option<Target>)] = &[
    (KUHN, "/", Some(Target::Point(0))),
    (KUHN, "/k", Some(Target::Point(1))),
    (KUHN, "/kk", Some(Target::End(0))),
    (KUHN, "/kb", Some(Target::Point(2))),
    (KUHN, "/kbf", Some(Target::End(1))),
    (KUHN, "/kbc", Some(Target::End(2))),
    (KUHN, "/b", Some(Target::Point(3))),
    (KUHN, "/bc", Some(Target::End(4))),
    (KUHN, "", None),
    (KUHN, "k", None),
    (KUHN, "/x", None),
    (KUHN, "/kkk", None),
    (KUHN, "/kk/", None),
    (TWO, "/kk", None),
    (TWO, "/kk/", Some(Target::Point(2))),
    (TWO, "/kk/kb", Some(Target::Point(4))),
    (TWO, "/bc/bc", Some(Target::End(16))),
    (LATE, "//k", Some(Target::Point(1))),
    (LATE, "/", None),
];

/// Returns the position that a text names in a game, and whether there is one with this text.
fn named(alloc: Global, line: &str, text: &str) -> Result<(Option<Target>, bool), Fail> {
    let game = game_of(alloc, line)?;
    match game.line_of(text) {
        Some(at) => Ok((Some(at), has_text(alloc, &game, at, text)?)),
        None => Ok((None, false)),
    }
}

#[test]
fn line_names(rt: HostRuntime) -> Result<(), Fail> {
    for &(line, text, want) in LINES {
        let found = named(rt.alloc(), line, text)?;
        assert_eq!(rt; found, (want, want.is_some()), "{line} {text}");
    }
    Ok(())
}
