//! Robinson's theorem: fictitious play of a matrix game converges to the game's value, whichever best rows and columns are taken.
//!
//! The crate runs nothing: each function here is a law, and its contract names it.
#![tactic(auto)]

ghost use Rattle.gs_robinson.specs.Laws.{TurnsExist, TurnsConverge, TurnsConvergeFrom};

/// States that the greatest row total less the least column total, divided by the number of turns, gets below each fraction and stays there.
pub fn turns_converge()
    ensures { TurnsConverge }
{}

/// States from which turn on that holds: a number that the sizes of the matrix and the bounds of its entries and of the first totals determine.
pub fn turns_converge_from()
    ensures { TurnsConvergeFrom }
{}

/// States that turns of any number exist, from any totals, so that the laws speak of something.
pub fn turns_exist()
    ensures { TurnsExist }
{}
