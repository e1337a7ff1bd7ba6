//! Fictitious play of a game converges: the sum of both gaps gets below each fraction and stays there. No speed is claimed.
//!
//! The crate runs nothing: each function here is a law, and its contract names it.
#![tactic(auto)]

ghost use Rattle.gs_converge.specs.Laws.{BestTurnsConverge, GapsConverge, PlayConverges};

/// In every game, for each fraction there is a number of turns from which on both gaps together are at most that fraction, whichever best answers are taken.
pub fn best_turns_converge()
    ensures { BestTurnsConverge }
{}

/// The same for turns of fictitious play over lossless classes, which take the first best answers.
pub fn play_converges()
    ensures { PlayConverges }
{}

/// So in every playable game that has a deal, with lossless classes, both gaps of the plans of fictitious play go to 0.
pub fn gaps_converge()
    ensures { GapsConverge }
{}
