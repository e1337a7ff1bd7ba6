//! Mixtures: behaviour strategies at one information set.

ghost use Rattle.std.specs.Prelude.{◌≡◌, ◌<◌, ◌≤◌, length, vec_capacity};
ghost use Rattle.gs_model.specs.{Frame.{player_at, point_count, round_of, signal_count}, Positions.{at_point}};
ghost use Rattle.gs_lift.specs.Mixtures.{IsMixture};
ghost use Rattle.gs_seq.specs.{Abstracts.{abstract_frame, lists_of}, Plans.{IsPlanOf, lifted}};

use crate::shares::{share, total_weight};
use crate::spot::Spot;
use gs_frac::Fraction;
use gs_seq::{Abstract, Plan};
use std::alloc::{AllocError, Global};
use std::marker::Model;

/// The most moves that a point can have: one for each letter.
const MOST_MOVES: usize = 26;

/// Moves by their letters, each with its share: a behaviour strategy at one information set. A mixture has room for 26 moves, the most of any point.
/// So no push needs memory, and who prints one needs no condition.
#[derive(Drop)]
pub struct Mixture {
    pairs: Vec<(u8, Fraction)>,
}

impl Model for Mixture {
    ghost use Rattle.std.specs.Prelude.{◌≤◌, ℕ, List, vec_capacity};
    ghost use Rattle.gs_frac.specs.declared.value.Fraction.{Fraction};
    ghost use Rattle.gs_lift.specs.Letters.{AreAsciiLetters};

    ghost Value = { List (ℕ × Fraction) };

    ghost view = { λ m. m.pairs.items };

    ghost invariant = { λ m. record { room : 26 ≤ vec_capacity m.pairs; letters : AreAsciiLetters m.pairs.items } };
}

impl Mixture {
    ghost use Rattle.gs_lift.specs.Letters.{AreAsciiLetters};
    ghost use Rattle.std.specs.Prelude.{◌≡◌, ◌<◌, [], ◌∷◌, ◌++◌, length, IfOk};

    /// Returns a mixture without moves, with room for 26.
    pub fn new(alloc: Global) -> Result<Mixture, AllocError>
        ensures { IfOk result (λ m. m ≡ []) }
    {
        Ok(Mixture {
            pairs: Vec::with_capacity(alloc, MOST_MOVES)?,
        })
    }

    /// Returns the moves in order, each with its share.
    pub fn pairs(&self) -> &[(u8, Fraction)]
        ensures value { result.now ≡ self.now }
        ensures letters { AreAsciiLetters self.now }
    {
        &self.pairs
    }

    /// Removes all moves.
    fn clear(&mut self)
        ensures { self.new ≡ [] }
    {
        self.pairs.clear();
    }

    /// Adds a move. There must be room for it.
    fn push(&mut self, letter: u8, share: Fraction)
        requires room { length self.old < 26 }
        requires letter { letter < 128 }
        ensures { self.new ≡ self.old ++ (letter, share) ∷ [] }
    {
        match self.pairs.push((letter, share)) {
            Ok(()) => {}
            Err(_) => unreachable!(),
        }
    }
}

/// Sets `out` to the mixture of a plan at a spot of its player: the moves of the point in order, each with its share.
/// The share is the move's weight at the signal's class over the sum of the weights of all moves there.
/// If all these weights are 0, the first move has share 1 and the others 0.
pub fn mix(a: &Abstract, plan: &Plan, spot: Spot, out: &mut Mixture)
    requires plan { IsPlanOf (abstract_frame a.now) (lists_of a.now) plan.now.player plan.now }
    requires point { spot.point < point_count (abstract_frame a.now) }
    requires own { player_at (abstract_frame a.now) spot.point ≡ plan.now.player }
    requires signal { spot.signal < signal_count (abstract_frame a.now) (round_of (abstract_frame a.now) (at_point spot.point)) }
    ensures { IsMixture (abstract_frame a.now) (lifted (abstract_frame a.now) (lists_of a.now) plan.now) spot.point spot.signal out.new }
{
    let total = total_weight(a, plan, spot);
    let point = &a.game().points()[spot.point as usize];
    out.clear();
    for (choice, arrow) in point.moves.iter().enumerate() {
        out.push(arrow.letter, share(a, plan, spot, choice as u8, total));
    }
}
