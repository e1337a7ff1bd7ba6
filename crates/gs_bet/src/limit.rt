//! Betting trees of limit betting.

ghost use Rattle.std.specs.Prelude.{◌≡◌, ◌≤◌, IfOk, OnOk};
ghost use Rattle.gs_model.specs.Betting.{act};
ghost use Rattle.gs_bet.specs.{MoveLists.{push_move}, TreeView.{plain, plain_moves}, Limit.{facing_bet, behind_check, limit_bet}};

use crate::shape::{Act, BetTree, Move, Tree};
use std::alloc::{AllocError, Global};

/// Returns a player's choice among these moves.
fn choice(player: u8, moves: Vec<Move>) -> Tree
    ensures { plain result ≡ act player (plain_moves moves.items) }
{
    Tree::Act(Act { player, moves })
}

/// Adds a move at the end of the moves. Fails only if memory runs out.
fn add(moves: &mut Vec<Move>, letter: u8, chips: u16, next: Tree) -> Result<(), AllocError>
    ensures { OnOk result (plain_moves moves.new.items ≡ push_move (plain_moves moves.old.items) letter chips (plain next)) }
{
    moves.push(Move {
        letter,
        chips,
        next,
    })?;
    Ok(())
}

/// Returns the choice of a player who faces a bet of `bet` chips, with `left` raises left.
fn against_bet(alloc: Global, bet: u16, left: u8, player: u8) -> Result<Tree, AllocError>
    requires bet { bet ≤ 2048 }
    requires player { player ≤ 3 }
    ensures { IfOk result (λ t. plain t ≡ facing_bet bet left player) }
{
    let mut moves = Vec::new(alloc);
    add(&mut moves, b'f', 0, Tree::Fold)?;
    add(&mut moves, b'c', bet, Tree::Even)?;
    if left > 0 {
        let raised = against_bet(alloc, bet, left - 1, 3 - player)?;
        add(&mut moves, b'r', 2 * bet, raised)?;
    }
    Ok(choice(player, moves))
}

/// Returns the choice of player 2 after a check.
fn after_check(alloc: Global, bet: u16, cap: u8) -> Result<Tree, AllocError>
    requires bet { bet ≤ 2048 }
    ensures { IfOk result (λ t. plain t ≡ behind_check bet cap) }
{
    let mut moves = Vec::new(alloc);
    add(&mut moves, b'k', 0, Tree::Even)?;
    if cap > 0 {
        let against = against_bet(alloc, bet, cap - 1, 1)?;
        add(&mut moves, b'b', bet, against)?;
    }
    Ok(choice(2, moves))
}

fn first_choice(alloc: Global, bet: u16, cap: u8) -> Result<Tree, AllocError>
    requires bet { bet ≤ 2048 }
    ensures { IfOk result (λ t. plain t ≡ limit_bet bet cap) }
{
    let mut moves = Vec::new(alloc);
    let checked = after_check(alloc, bet, cap)?;
    add(&mut moves, b'k', 0, checked)?;
    if cap > 0 {
        let against = against_bet(alloc, bet, cap - 1, 2)?;
        add(&mut moves, b'b', bet, against)?;
    }
    Ok(choice(1, moves))
}

/// Returns the betting tree of a round of limit betting. A bet puts `bet` chips, a raise twice as many, and a round has at most `cap` bets and raises. Fails
/// only if memory runs out.
pub fn limit_tree(alloc: Global, bet: u16, cap: u8) -> Result<BetTree, AllocError>
    requires some { 1 ≤ bet }
    requires bet { bet ≤ 2048 }
    requires cap { cap ≤ 8 }
    ensures { IfOk result (λ t. plain t.tree ≡ limit_bet bet cap) }
{
    let tree = first_choice(alloc, bet, cap)?;
    Ok(BetTree { tree })
}
