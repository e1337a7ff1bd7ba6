//! Laws that nothing stands on. Worked values of the definitions: two decks whose classes are known by hand, Kuhn's game after one turn of play, the chips
//! put in at ends, and the path of a linear program. More values of cards and of Kuhn's game stand in `proofs/`. And made game files are read back.
//!
//! The crate runs nothing: a function here is a law, and its contract names the values.
#![tactic(auto)]

mod readback;

ghost use Rattle.gs_worked.specs.{Decks.{OneRank, TwoSuits}, Kuhn.{KuhnConverges, KuhnPlay, KuhnVerdict}, Pivots.{TiedPath, TiedPivot}, Puts.{PutsAreChips}};

pub use readback::made_files_are_read_back;

/// Kuhn poker with two suits: hands of one rank are in one class, and hands of different ranks are not.
pub fn two_suits()
    ensures { TwoSuits }
{}

/// One rank in four suits: all hands are in one class.
pub fn one_rank()
    ensures { OneRank }
{}

/// The put of each end is the ante and the chips of the moves on the way to it.
pub fn puts_are_chips()
    ensures { PutsAreChips }
{}

/// Kuhn poker's plans after one turn of fictitious play.
pub fn kuhn_play()
    ensures { KuhnPlay }
{}

/// Kuhn poker after one turn of play: the value is 1/12, and the players could still gain 13/12 and 7/6.
pub fn kuhn_verdict()
    ensures { KuhnVerdict }
{}

/// Kuhn poker meets the premises of the law on the gaps of fictitious play: they go to 0.
pub fn kuhn_converges()
    ensures { KuhnConverges }
{}

/// A linear program in three rows: Bland's rule makes one pivot, and the path ends.
pub fn tied_path()
    ensures { TiedPath }
{}

/// No other column can enter or leave in the first pivot of that program.
pub fn tied_pivot()
    ensures { TiedPivot }
{}
