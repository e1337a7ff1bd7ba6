//! The spot that a line and a signal's text name.

ghost use Rattle.std.specs.Prelude.{◌<◌, ◌≤◌, ◌↔◌, ℕ, IsTrue, MatchOption, MatchResult};
ghost use Rattle.gs_lift.specs.Queries.{IsFaultOf, IsPointFault, IsQuerySpot, IsLineOfOwnPoint, IsLineOfPoint, IsTextOfSomeSignal, signals_of};

use crate::fault::QueryFault;
use crate::spot::Spot;
use gs_game::{Target, ValidGame};
use gs_seq::Abstract;
use gs_tree::Signals;

/// Returns the spot of a player that the line of a point and the text of a raw signal name.
/// Errors: the first rule that the texts break, in the order of `QueryFault`.
pub fn locate(a: &Abstract, player: u8, line: &str, signal: &str) -> Result<Spot, QueryFault>
    requires some { 0 < player }
    requires two { player ≤ 2 }
    ensures { MatchResult result (IsQuerySpot (signals_of a.now) player line.now signal.now) (IsFaultOf (signals_of a.now) player line.now signal.now) }
{
    let signals = a.lossless().signals();
    let game = signals.game();
    let point = own_point(game, player, line)?;
    let round = game.points()[point as usize].round;
    if let Some(signal) = signals.index_of(round, signal) {
        return Ok(Spot { point, signal });
    }
    if is_signal(signals, signal) {
        Err(QueryFault::Round)
    } else {
        Err(QueryFault::Signal)
    }
}

/// Returns the point of a player that a line names. Errors: `Line` if no point has the line, `Player` if the point is the other player's.
fn own_point(game: &ValidGame, player: u8, line: &str) -> Result<u32, QueryFault>
    ensures { MatchResult result (IsLineOfOwnPoint game.now player line.now) (IsPointFault game.now player line.now) }
{
    let Some(point) = point_named(game, line) else {
        return Err(QueryFault::Line);
    };
    if game.points()[point as usize].player == player {
        Ok(point)
    } else {
        Err(QueryFault::Player)
    }
}

/// Returns the point that a line names.
fn point_named(game: &ValidGame, line: &str) -> Option<u32>
    ensures { MatchOption result ((q : ℕ) → IsLineOfPoint game.now line.now q → ⊥) (IsLineOfPoint game.now line.now) }
{
    match game.line_of(line)? {
        Target::Point(point) => Some(point),
        Target::End(_) => None,
    }
}

/// Returns whether a text is the text of a raw signal of some round.
fn is_signal(signals: &Signals, text: &str) -> bool
    ensures { IsTrue result ↔ IsTextOfSomeSignal signals.now text.now }
{
    for before in 0..signals.rounds() {
        if signals.index_of(before + 1, text).is_some() {
            return true;
        }
    }
    false
}
