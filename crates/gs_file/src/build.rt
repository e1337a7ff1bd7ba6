//! Building the parts of a game from what a file states.

ghost use Rattle.std.specs.Prelude.{◌≤◌, All, IfOk, length, map};
ghost use Rattle.gs_bet.specs.TreeView.{plain};
ghost use Rattle.gs_card.specs.Rankings.{ranking_of};
ghost use Rattle.gs_game.specs.Games.{HasFewCards, round_rules as rules_of_round};
ghost use Rattle.gs_model.specs.Outcome.{IsBonus};
ghost use Rattle.gs_file.specs.{Answers.{MayGive}, Reading.{deck_at, tree_at, play_tree, round_built, lawful}, Tables.{each}};
ghost use Rattle.gs_file.specs.Views.{sizes_view, ranged_view, game_view, valid_view};

use crate::fault::{FileError, FileFault};
use crate::values::{RoundSizes, Sizes};
use gs_bet::{BetTree, TreeError, limit_tree, parse_tree};
use gs_card::{Deck, DeckError};
use gs_game::{Game, GameError, Round, ValidGame};
use std::alloc::Global;

/// Returns the deck of the three texts, or their first fault.
pub fn deck_of(alloc: Global, ranks: &str, suits: &str, copies: &str) -> Result<Deck, FileError>
    ensures { MayGive (λ d. d) result (deck_at ranks.now suits.now copies.now) }
{
    match Deck::new(alloc, ranks, suits, copies) {
        Ok(deck) => Ok(deck),
        Err(DeckError::Memory) => Err(FileError::Memory),
        Err(DeckError::Fault(fault)) => Err(FileError::Fault(FileFault::Deck(fault))),
    }
}

/// Returns the tree that a round's text writes, or the fault of the text.
fn tree_of_text(alloc: Global, text: &str, round: u8) -> Result<BetTree, FileError>
    ensures { MayGive (λ t. plain t.tree) result (tree_at round text.now) }
{
    match parse_tree(alloc, text) {
        Ok(tree) => Ok(tree),
        Err(TreeError::Memory) => Err(FileError::Memory),
        Err(TreeError::Fault(fault)) => {
            Err(FileError::Fault(FileFault::TreeText { round, fault }))
        }
    }
}

/// Returns the tree of a round.
fn tree_of(alloc: Global, betting: Sizes<'_>, round: u8) -> Result<BetTree, FileError>
    ensures { MayGive (λ t. plain t.tree) result (play_tree round (sizes_view betting.entry)) }
{
    match betting {
        Sizes::Tree(text) => tree_of_text(alloc, text, round),
        Sizes::Limit(limits) => {
            let tree = limit_tree(alloc, limits.bet, limits.cap)?;
            Ok(tree)
        }
    }
}

#[tactic(auto, unfolding(crate::specs::Reading::round_built))]
fn round_of(alloc: Global, sizes: &RoundSizes<'_>, round: u8) -> Result<Round, FileError>
    ensures gives { MayGive rules_of_round result (round_built round (ranged_view sizes.now)) }
    ensures few { IfOk result HasFewCards }
{
    let tree = tree_of(alloc, sizes.betting, round)?;
    Ok(Round {
        private: sizes.private,
        public: sizes.public,
        tree,
    })
}

/// Returns the rounds with their trees, or the first fault.
pub fn rounds_built(alloc: Global, sizes: &[RoundSizes<'_>]) -> Result<Vec<Round>, FileError>
    requires { length sizes.now ≤ 4 }
    ensures gives { MayGive (λ v. map rules_of_round v.items) result (each round_built 1 (map ranged_view sizes.now)) }
    ensures few { IfOk result (λ v. All HasFewCards v.items) }
{
    let mut rounds = Vec::new(alloc);
    for (index, size) in sizes.iter().enumerate() {
        let round = round_of(alloc, size, index as u8 + 1)?;
        rounds.push(round)?;
    }
    Ok(rounds)
}

/// Returns the game as a valid one if it keeps the rules, or the first rule that it breaks.
pub fn checked(alloc: Global, game: Game) -> Result<ValidGame, FileError>
    requires some_ante { 1 ≤ game.ante }
    requires ante { game.ante ≤ 4096 }
    requires cards { All HasFewCards game.rounds.items }
    requires bonus { IsBonus (ranking_of game.ranking) game.bonus.items }
    ensures { MayGive valid_view result (lawful (game_view game)) }
{
    match game.check(alloc) {
        Ok(valid) => Ok(valid),
        Err(GameError::Memory) => Err(FileError::Memory),
        Err(GameError::Fault(fault)) => Err(FileError::Fault(FileFault::Game(fault))),
    }
}
