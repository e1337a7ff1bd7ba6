//! Checks that a game keeps every rule.

ghost use Rattle.std.specs.Prelude.{◌≡◌, ◌≤◌, All, None, IfOk, IfErr, MatchResult, length};
ghost use Rattle.gs_card.specs.{Decks.{IsDeck}, Rankings.{ranking_of}};
ghost use Rattle.gs_model.specs.{Deals.{deals}, Frame.{frame_of, total_weight}, Outcome.{IsBonus}};
ghost use Rattle.gs_game.specs.{FaultOf.{IsErrorOf}, Games.{HasFewCards, game_of}};
ghost use Rattle.gs_game.specs.Refusals.{betting_refusal, card_refusal, deal_refusal, first_refusal};

use crate::betting::check_betting;
use crate::cards::check_cards;
use crate::deals::{DealTotals, check_deals};
use crate::faults::GameError;
use crate::game::Game;
use crate::place::Place;
use crate::valid::ValidGame;
use crate::walk::{Walk, walk_from};
use std::alloc::Global;

/// Checks the rules of a game in their order, and returns the number and the weight of its deals. Fails with the first refusal that applies, or if memory
/// runs out.
fn check_rules(alloc: Global, game: &Game) -> Result<DealTotals, GameError>
    requires ante { game.now.ante ≤ 4096 }
    requires cards { All HasFewCards game.now.rounds.items }
    requires bonus { IsBonus (ranking_of game.now.ranking) game.now.bonus.items }
    ensures { MatchResult result (λ totals. (card_refusal (game_of game.now) ≡ None) × (betting_refusal (game_of game.now) ≡ None)
        × (deal_refusal (game_of game.now) ≡ None) × (totals.weight ≡ total_weight (frame_of (game_of game.now)))
        × (totals.count ≡ length (deals (game_of game.now))) × IsDeck game.now.deck) (IsErrorOf (first_refusal (game_of game.now))) }
{
    check_cards(game)?;
    check_betting(alloc, game)?;
    check_deals(alloc, game)
}

impl Game {
    /// Returns the game as a valid game if it keeps every rule. Fails with the first refusal that applies, or if memory runs out.
    pub fn check(self, alloc: Global) -> Result<ValidGame, GameError>
        requires some_ante { 1 ≤ self.ante }
        requires ante { self.ante ≤ 4096 }
        requires cards { All HasFewCards self.rounds.items }
        requires bonus { IsBonus (ranking_of self.ranking) self.bonus.items }
        // A game is accepted only where no refusal applies, and stays as it is.
        ensures accepted { IfOk result (λ valid. (first_refusal (game_of self) ≡ None) × (valid.game ≡ self)) }
        // A fault, unless memory ran out, is the first refusal that applies.
        ensures refused { IfErr result (IsErrorOf (first_refusal (game_of self))) }
    {
        let totals = check_rules(alloc, &self)?;
        let mut walk = Walk {
            points: Vec::new(alloc),
            ends: Vec::new(alloc),
        };
        let start = walk_from(alloc, &mut walk, &self.rounds, Place::start(self.ante))?;
        let Walk { points, ends } = walk;
        Ok(ValidGame {
            game: self,
            points,
            ends,
            start,
            deals: totals.count,
            weight: totals.weight,
        })
    }
}
