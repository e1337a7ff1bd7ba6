//! The last-round signals of a game in the order of boards and strengths.

ghost use Rattle.std.specs.Prelude.{◌≡◌, ◌<◌, IfOk, length};
ghost use Rattle.gs_tree.specs.{Plain.{IsPlain}, Trees.{rules_of}, Walk.{last_count}};
ghost use Rattle.gs_boards.specs.Boards.{ArePlaces};

use crate::pays::Pays;
use crate::place::{Place, places_of};
use crate::walks::{climb, descend};
use gs_tree::Signals;
use std::alloc::{AllocError, Global};

/// The last-round signals of a game in which any two different signals with the same public cards are equally likely. They are in the order of boards (the
/// public cards), and on each board in the order of strength. What a signal is paid in its deals is then a running sum along its board, and no deal is
/// looked at.
#[derive(Drop)]
pub struct BoardOrder<'s> {
    pub signals: &'s Signals<'s>,
    places: Vec<Place>,
    ghost plain: { IsPlain (rules_of signals.now) },
    ghost placed: { ArePlaces (rules_of signals.now) places.items },
}

impl<'s> BoardOrder<'s> {
    ghost use Rattle.std.specs.Prelude.{◌≤◌, ℕ, MatchOption, get_or, pos};
    ghost use Rattle.gs_boards.specs.Boards.{deal_sum, paid};

    /// Returns the order of the signals, none unless every card is single and each player is dealt one private card. Fails only if memory runs out.
    pub fn of(alloc: Global, signals: &'s Signals<'s>) -> Result<Option<BoardOrder<'s>>, AllocError>
        ensures { IfOk result (λ o. MatchOption o (IsPlain (rules_of signals.entry.now)
            → last_count (rules_of signals.entry.now) ≡ 0) (λ b. b.signals.now ≡ signals.entry.now)) }
    {
        if !signals.is_plain() {
            return Ok(None);
        }
        let places = places_of(alloc, signals)?;
        Ok(Some(BoardOrder { signals, places }))
    }

    /// Writes to `sums` what each last-round signal is paid in its deals. A deal counts the other player's number at their signal, times its weight, times
    /// what it pays. The call takes no memory, and looks twice at each signal.
    pub fn deal_sums(&self, pays: Pays, numbers: &[u64], sums: &mut [i128])
        requires numbers { last_count (rules_of self.now.signals.now) ≤ length numbers.now }
        requires sums { length sums.old ≡ last_count (rules_of self.now.signals.now) }
        ensures { (signal : ℕ) → signal < last_count (rules_of self.now.signals.now)
            → get_or sums.new signal (pos 0) ≡ deal_sum (rules_of self.now.signals.now) numbers.now (paid pays) signal }
    {
        climb(&self.places, pays, numbers, sums);
        descend(&self.places, pays, numbers, sums);
    }
}
