//! Comparing two games.

ghost use Rattle.std.specs.Prelude.{◌≡◌, ◌↔◌, IfOk, IsTrue, map};
ghost use Rattle.gs_bet.specs.TreeView.{plain};
ghost use Rattle.gs_card.specs.Rankings.{ranking_of};
ghost use Rattle.gs_file.specs.Views.{valid_view};
ghost use Rattle.gs_game.specs.Games.{round_rules};

use gs_bet::{BetTree, tree_text};
use gs_card::{Deck, Ranking};
use gs_game::{Game, Round, ValidGame};
use std::alloc::{AllocError, Global};

// Returns whether two trees are equal.
fn same_tree(alloc: Global, one: &BetTree, two: &BetTree) -> Result<bool, AllocError>
    ensures { IfOk result (λ b. IsTrue b ↔ (plain one.now.tree ≡ plain two.now.tree)) }
{
    let first = tree_text(alloc, one)?;
    let second = tree_text(alloc, two)?;
    Ok(first.as_bytes() == second.as_bytes())
}

// Returns whether two rounds are equal.
fn same_round(alloc: Global, one: &Round, two: &Round) -> Result<bool, AllocError>
    ensures { IfOk result (λ b. IsTrue b ↔ (round_rules one.now ≡ round_rules two.now)) }
{
    if one.private != two.private || one.public != two.public {
        return Ok(false);
    }
    same_tree(alloc, &one.tree, &two.tree)
}

// Returns whether two lists of rounds are equal.
fn same_rounds(alloc: Global, one: &[Round], two: &[Round]) -> Result<bool, AllocError>
    ensures { IfOk result (λ b. IsTrue b ↔ (map round_rules one.now ≡ map round_rules two.now)) }
{
    if one.len() != two.len() {
        return Ok(false);
    }
    for place in 0..one.len() {
        if !same_round(alloc, &one[place], &two[place])? {
            return Ok(false);
        }
    }
    Ok(true)
}

// Returns whether two decks are equal.
fn same_deck(one: &Deck, two: &Deck) -> bool
    ensures { IsTrue result ↔ (one.now ≡ two.now) }
{
    one.ranks() == two.ranks() && one.suits() == two.suits() && one.counts() == two.counts()
}

// Returns whether two rankings are equal.
fn same_ranking(one: Ranking, two: Ranking) -> bool
    ensures { IsTrue result ↔ (ranking_of one ≡ ranking_of two) }
{
    one == two
}

// Returns whether two games are equal but for their rounds.
fn same_terms(one: &Game, two: &Game) -> bool
    ensures { IsTrue result ↔ ((one.now.deck ≡ two.now.deck) × (ranking_of one.now.ranking ≡ ranking_of two.now.ranking)
        × (one.now.bonus.items ≡ two.now.bonus.items) × (one.now.ante ≡ two.now.ante)) }
{
    same_deck(&one.deck, &two.deck)
        && same_ranking(one.ranking, two.ranking)
        && one.bonus.as_slice() == two.bonus.as_slice()
        && one.ante == two.ante
}

/// Returns whether two games are equal.
pub(crate) fn same_game(alloc: Global, one: &ValidGame, two: &ValidGame) -> Result<bool, AllocError>
    ensures { IfOk result (λ b. IsTrue b ↔ (valid_view one.now ≡ valid_view two.now)) }
{
    let first = one.game();
    let second = two.game();
    if !same_terms(first, second) {
        return Ok(false);
    }
    same_rounds(alloc, &first.rounds, &second.rounds)
}
