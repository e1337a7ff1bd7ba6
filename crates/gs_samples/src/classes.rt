//! Classes of a game's signals.

ghost use Rattle.std.specs.Prelude.{◌≡◌, IfOk};
ghost use Rattle.gs_model.specs.Frame.{frame_of};
ghost use Rattle.gs_tree.specs.Trees.{rules_of};

use crate::numbers::numbers_in;
use gs_filter::{ClassError, Classes};
use gs_tree::Signals;
use std::alloc::{AllocError, Global};

/// Returns the text of the classes that a word names, and any other text as it is. `ranks` are the classes of Leduc hold'em by rank, which are lossless;
/// `isomorphic` are its signal classes, which are not. `hands` are classes of Rhode Island hold'em with kings and aces, made by hand, which are lossless.
fn numbers_of(text: &str) -> &str {
    match text {
        "ranks" => "1 1 2 2 3 3/1 2 2 3 3 1 2 2 3 3 4 4 5 6 6 4 4 5 6 6 7 7 8 8 9 7 7 8 8 9",
        "isomorphic" => "1 1 2 2 3 3/1 2 2 2 2 1 2 2 2 2 3 3 4 5 5 3 3 4 5 5 6 6 6 6 7 6 6 6 6 7",
        "hands" =>
            "1 1 2 2/1 2 2 1 2 2 3 3 4 3 3 4/1 1 2 3 2 3 1 1 2 3 2 3 4 5 4 5 6 6 4 5 4 5 6 6",
        _ => text,
    }
}

/// Returns classes of a game's signals from a text: for each round the number of each signal's class, with a slash between two rounds. For an empty text
/// each signal is a class of its own.
pub fn classes_of(alloc: Global, signals: &Signals<'_>, text: &str) -> Result<Classes, ClassError>
    ensures { IfOk result (λ c. c.parents ≡ (frame_of (rules_of signals.now)).parents) }
{
    if text.is_empty() {
        return Ok(Classes::identity(alloc, signals.parents())?);
    }
    let mut lists = Vec::new(alloc);
    for list in numbers_of(text).split('/') {
        lists.push(numbers_in::<u32>(alloc, list)?)?;
    }
    Classes::new(alloc, signals.parents(), lists)
}

/// Returns the text of a signal, or the empty text if the round has no such signal.
pub fn signal_text(
    alloc: Global,
    signals: &Signals<'_>,
    round: u8,
    signal: u32,
) -> Result<String, AllocError> {
    if 0 < round && round <= signals.rounds() && signal < signals.count(round) {
        return signals.text(alloc, round, signal);
    }
    Ok(String::new(alloc))
}
