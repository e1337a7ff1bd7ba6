//! Checks a game's betting.

ghost use Rattle.std.specs.Prelude.{◌≡◌, ◌≤◌, ◌<◌, ◌+◌, ◌-◌, ◌*◌, ◌^◌, ℕ, None, MatchResult, length, min};
ghost use Rattle.gs_bet.specs.TreeView.{plain};
ghost use Rattle.gs_model.specs.Numbering.{greatest};
ghost use Rattle.gs_game.specs.{FaultOf.{IsErrorOf, IsFaultOf}, Counts.{ends_in, ends_of}, Games.{game_of, plain_trees}, Money.{most_in}};
ghost use Rattle.gs_game.specs.Refusals.{betting_refusal, lines_refusal, no_even_from, put_refusal, uneven_from};

use crate::faults::{GameError, GameFault};
use crate::game::{Game, Round};
use crate::money::{Put, find_uneven, has_even, most_above};
use gs_bet::Tree;
use std::alloc::Global;

/// Checks that each of these trees but the last has an even leaf. Fails with the first round that has none. The first tree is that of round `number`.
fn check_evens(rounds: &[Round], number: u8) -> Result<(), GameFault>
    requires { number + length rounds.now ≤ 5 }
    ensures { MatchResult result (λ _. no_even_from number (plain_trees rounds.now) ≡ None) (IsFaultOf (no_even_from number (plain_trees rounds.now))) }
{
    match rounds {
        [first, rest @ ..] if !rest.is_empty() => {
            if !has_even(&first.tree.tree) {
                return Err(GameFault::NoEven { round: number });
            }
            check_evens(rest, number + 1)
        }
        _ => Ok(()),
    }
}

/// Checks that the players have put the same at each even leaf of these trees. Fails with the first uneven leaf. The first tree is that of round `number`.
fn check_uneven(alloc: Global, rounds: &[Round], number: u8) -> Result<(), GameError>
    requires { number + length rounds.now ≤ 5 }
    ensures { MatchResult result (λ _. uneven_from number (plain_trees rounds.now) ≡ None) (IsErrorOf (uneven_from number (plain_trees rounds.now))) }
{
    match rounds {
        [first, rest @ ..] => {
            let mut path = Vec::new(alloc);
            if find_uneven(&first.tree.tree, Put { one: 0, two: 0 }, &mut path)? {
                return Err(GameError::Fault(GameFault::Uneven {
                    round: number,
                    path,
                }));
            }
            check_uneven(alloc, rest, number + 1)
        }
        [] => Ok(()),
    }
}

/// Returns the most that one player puts in these rounds, in chips.
fn most_put(rounds: &[Round]) -> u32
    requires few { length rounds.now ≤ 4 }
    requires even { uneven_from 1 (plain_trees rounds.now) ≡ None }
    ensures most { (before : ℕ) → most_in (plain_trees rounds.now) before before ≡ before + result }
    ensures small { result ≤ length rounds.now * 2 ^ 24 }
{
    match rounds {
        [first, rest @ ..] => most_above(&first.tree.tree, Put { one: 0, two: 0 }, most_put(rest)),
        [] => 0,
    }
}

/// Returns the number of ends below a tree, 2^128 - 1 if there are more. Behind each even leaf there are `more`.
fn count_ends(tree: &Tree, more: u128) -> u128
    ensures { result ≡ min (ends_of more (plain tree.now)) (2 ^ 128 - 1) }
{
    match tree {
        Tree::Act(act) => {
            let mut ends: u128 = 0;
            for next in &act.moves {
                ends = ends.saturating_add(count_ends(&next.next, more));
            }
            ends
        }
        Tree::Fold => 1,
        Tree::Even => more,
    }
}

/// Returns the number of ends of these rounds, 2^128 - 1 if there are more.
fn count_lines(rounds: &[Round]) -> u128
    ensures { result ≡ min (ends_in (plain_trees rounds.now)) (2 ^ 128 - 1) }
{
    match rounds {
        [first, rest @ ..] => count_ends(&first.tree.tree, count_lines(rest)),
        [] => 1,
    }
}

/// Returns the greatest bonus, 0 if there is none.
fn greatest_bonus(bonus: &[u8]) -> u8
    ensures { result ≡ greatest bonus.now }
{
    let mut most = 0;
    for one in bonus {
        most = most.max(*one);
    }
    most
}

/// Checks that the most that one player puts, ante included, times the greatest bonus, is at most 4,096 chips.
#[tactic(auto, unfolding(crate::specs::Refusals::put_refusal))]
fn check_put(game: &Game) -> Result<(), GameFault>
    requires few { length game.now.rounds.items ≤ 4 }
    requires ante { game.now.ante ≤ 4096 }
    requires bonus { greatest game.now.bonus.items ≤ 9 }
    requires even { uneven_from 1 (plain_trees game.now.rounds.items) ≡ None }
    ensures { MatchResult result (λ _. put_refusal (game_of game.now) ≡ None) (IsFaultOf (put_refusal (game_of game.now))) }
{
    let most = u32::from(game.ante) + most_put(&game.rounds);
    let chips = most * u32::from(greatest_bonus(&game.bonus));
    if chips > 4096 {
        return Err(GameFault::PutTooLarge { chips });
    }
    Ok(())
}

/// Checks that there are at most 8,192 ends.
#[tactic(auto, unfolding(crate::specs::Refusals::lines_refusal))]
fn check_lines(game: &Game) -> Result<(), GameFault>
    ensures { MatchResult result (λ _. lines_refusal (game_of game.now) ≡ None) (IsFaultOf (lines_refusal (game_of game.now))) }
{
    let count = count_lines(&game.rounds);
    if count > 8192 {
        return Err(GameFault::TooManyLines { count });
    }
    Ok(())
}

/// Checks a game's betting. Fails with the first refusal that applies to it: even leaves, equal money, the most put, the number of ends.
#[tactic(auto, unfolding(crate::specs::Refusals::betting_refusal, crate::specs::Refusals::even_refusal, crate::specs::Refusals::uneven_refusal))]
pub fn check_betting(alloc: Global, game: &Game) -> Result<(), GameError>
    requires few { length game.now.rounds.items ≤ 4 }
    requires ante { game.now.ante ≤ 4096 }
    requires bonus { greatest game.now.bonus.items ≤ 9 }
    ensures { MatchResult result (λ _. betting_refusal (game_of game.now) ≡ None) (IsErrorOf (betting_refusal (game_of game.now))) }
{
    check_evens(&game.rounds, 1)?;
    check_uneven(alloc, &game.rounds, 1)?;
    check_put(game)?;
    check_lines(game)?;
    Ok(())
}
