//! Bijections between the children of two signals.

ghost use Rattle.std.specs.Prelude.{◌<◌, ◌≤◌, ◌+◌, IfOk, length};
ghost use Rattle.gs_model.specs.{Game.{round_count}, Signals.{signal_at, signals as signals_in}};
ghost use Rattle.gs_tree.specs.{Trees.{rules_of}, Walk.{last_count}};
ghost use Rattle.gs_iso.specs.{Numbers.{IsNumbering}, Pairings.{IsPaired}};

use crate::children::children_under;
use crate::equals::match_equals;
use crate::leaves::leaves_under;
use crate::signal_classes::node_numbers;
use gs_match::Match;
use gs_tree::Signals;
use std::alloc::{AllocError, Global};

/// Returns the pairing of two last-round signals, by their leaves; `None` if they are not isomorphic.
fn leaf_pairing(
    alloc: Global,
    signals: &Signals,
    a: u32,
    b: u32,
) -> Result<Option<Match>, AllocError>
    requires a_in { a < last_count (rules_of signals.now) }
    requires b_in { b < last_count (rules_of signals.now) }
    ensures { IfOk result (IsPaired (rules_of signals.now) (round_count (rules_of signals.now))
        (signal_at (rules_of signals.now) (round_count (rules_of signals.now)) a) (signal_at (rules_of signals.now) (round_count (rules_of signals.now)) b)) }
{
    let ones = leaves_under(alloc, signals, a)?;
    let twos = leaves_under(alloc, signals, b)?;
    match_equals(alloc, &ones, &twos)
}

/// Returns the pairing of two signals of a round before the last, by their children; `None` if they are not isomorphic.
/// `below` has the numbers of the next round's signals.
fn child_pairing(
    alloc: Global,
    signals: &Signals,
    round: u8,
    below: &[u32],
    a: u32,
    b: u32,
) -> Result<Option<Match>, AllocError>
    requires some { 0 < round }
    requires before_last { round < round_count (rules_of signals.now) }
    requires a_in { a < length (signals_in (rules_of signals.now) round) }
    requires b_in { b < length (signals_in (rules_of signals.now) round) }
    requires numbers { IsNumbering (rules_of signals.now) (round + 1) below.now }
    ensures { IfOk result (IsPaired (rules_of signals.now) round (signal_at (rules_of signals.now) round a) (signal_at (rules_of signals.now) round b)) }
{
    let ones = children_under(alloc, signals, round, a, below)?;
    let twos = children_under(alloc, signals, round, b, below)?;
    match_equals(alloc, &ones, &twos)
}

/// Returns a pairing that shows that two signals of a round are isomorphic, or `None` if they are not.
/// For each child of `a`, in order, the pairing names a different child of `b`, by its place among the children of `b`.
/// Paired children have equal edge weights and are isomorphic. In the last round the children are the leaves, in the order of the signal's deals.
///
/// Source: Gilpin and Sandholm, Lossless abstraction of imperfect information games, 2007.
pub fn pairing(
    alloc: Global,
    signals: &Signals,
    round: u8,
    a: u32,
    b: u32,
) -> Result<Option<Match>, AllocError>
    requires some { 0 < round }
    requires last { round ≤ round_count (rules_of signals.now) }
    requires a_in { a < length (signals_in (rules_of signals.now) round) }
    requires b_in { b < length (signals_in (rules_of signals.now) round) }
    ensures { IfOk result (IsPaired (rules_of signals.now) round (signal_at (rules_of signals.now) round a) (signal_at (rules_of signals.now) round b)) }
{
    if round == signals.rounds() {
        return leaf_pairing(alloc, signals, a, b);
    }
    let numbers = node_numbers(alloc, signals)?;
    let below = &numbers[usize::from(signals.rounds() - round) - 1];
    child_pairing(alloc, signals, round, below, a, b)
}
