//! Writes the text of a line.

ghost use Rattle.std.specs.{Prelude.{◌≡◌, ℕ, Some, MatchOption, OnOk, true}, String.{string_bytes}};
ghost use Rattle.gs_bet.specs.{Grammar.{are_sound, is_sound}, TreeView.{plain, plain_moves}, declared.shape.Act.{out-Act}};
ghost use Rattle.gs_game.specs.{Counts.{ends_in, ends_of, move_ends, move_points, points_in, points_of}, Games.{plain_trees}};
ghost use Rattle.gs_game.specs.Lines.{IsAmong, IsPast, MovesFollow, RoundsFollow, TreeFollows, lines_from, move_lines, text_at, tree_lines};
ghost use Rattle.gs_game.specs.Seen.{target_of};

use crate::game::Round;
use crate::lines::{Numbers, numbers_below, numbers_in};
use crate::positions::Target;
use crate::valid::ValidGame;
use gs_bet::{Act, Tree};
use std::alloc::{AllocError, Global};

/// Returns a position by its number behind the first `others`; none if it is among these.
fn past(at: Target, others: Numbers) -> Option<Target>
    ensures { MatchOption result (IsAmong others.points others.ends (target_of at))
        (λ further. IsPast others.points others.ends (target_of at) (target_of further)) }
{
    match at {
        Target::Point(number) => {
            if number < others.points {
                return None;
            }
            Some(Target::Point(number - others.points))
        }
        Target::End(number) => {
            if number < others.ends {
                return None;
            }
            Some(Target::End(number - others.ends))
        }
    }
}

/// Writes the text that leads to a position of some rounds.
#[cycle(writer)]
fn push_from(out: &mut String, rounds: &[Round], at: Target) -> Result<(), AllocError>
    requires room { RoundsFollow (plain_trees rounds.now) 0 0 }
    requires within { IsAmong (points_in (plain_trees rounds.now)) (ends_in (plain_trees rounds.now)) (target_of at) }
    ensures { OnOk result (text_at (lines_from (plain_trees rounds.now) (string_bytes out.old)) (target_of at) ≡ Some (string_bytes out.new)) }
{
    match rounds {
        [first, rest @ ..] => {
            out.push('/')?;
            push_below(out, &first.tree.tree, rest, numbers_in(rest), at)
        }
        [] => Ok(()),
    }
}

/// Writes the text that leads to a position of a tree or behind it.
#[cycle(writer)]
fn push_below(
    out: &mut String,
    tree: &Tree,
    rest: &[Round],
    more: Numbers,
    at: Target,
) -> Result<(), AllocError>
    requires points { more.points ≡ points_in (plain_trees rest.now) }
    requires ends { more.ends ≡ ends_in (plain_trees rest.now) }
    requires room { TreeFollows (plain_trees rest.now) (plain tree.now) 0 0 }
    requires sound { (left : ℕ) × (is_sound left (plain tree.now) ≡ true) }
    requires within { IsAmong (points_of more.points (plain tree.now)) (ends_of more.ends (plain tree.now)) (target_of at) }
    ensures { OnOk result (text_at (tree_lines (lines_from (plain_trees rest.now)) (string_bytes out.old) (plain tree.now)) (target_of at)
        ≡ Some (string_bytes out.new)) }
{
    match tree {
        Tree::Act(act) => match past(at, Numbers { points: 1, ends: 0 }) {
            Some(behind) => push_act(out, act, rest, more, behind),
            None => Ok(()),
        },
        Tree::Fold => Ok(()),
        Tree::Even => push_from(out, rest, at),
    }
}

/// Writes the text that leads from a choice to a position behind it.
#[cycle(writer)]
fn push_act(
    out: &mut String,
    act: &Act,
    rest: &[Round],
    more: Numbers,
    at: Target,
) -> Result<(), AllocError>
    requires points { more.points ≡ points_in (plain_trees rest.now) }
    requires ends { more.ends ≡ ends_in (plain_trees rest.now) }
    requires room { MovesFollow (plain_trees rest.now) (plain_moves (out-Act act.now).moves.items) 0 0 }
    requires sound { (left : ℕ) × (are_sound left (plain_moves (out-Act act.now).moves.items) ≡ true) }
    requires within { IsAmong (move_points more.points (plain_moves (out-Act act.now).moves.items))
        (move_ends more.ends (plain_moves (out-Act act.now).moves.items)) (target_of at) }
    ensures { OnOk result (text_at (move_lines (lines_from (plain_trees rest.now)) (string_bytes out.old) (plain_moves (out-Act act.now).moves.items))
        (target_of at) ≡ Some (string_bytes out.new)) }
{
    let mut at = at;
    for next in &act.moves {
        let Some(further) = past(at, numbers_below(&next.next, more)) else {
            out.push(char::from(next.letter))?;
            return push_below(out, &next.next, rest, more, at);
        };
        at = further;
    }
    Ok(())
}

impl ValidGame {
    ghost use Rattle.std.specs.Prelude.{IfOk, length};
    ghost use Rattle.gs_model.specs.Frame.{trees_of};
    ghost use Rattle.gs_game.specs.{Games.{game_of}, Lines.{lines}, Valid.{walk_of}};

    /// Returns the text of the line to a point or end. Fails only if memory runs out.
    pub fn line_text(&self, alloc: Global, at: Target) -> Result<String, AllocError>
        requires { IsAmong (length (walk_of (game_of self.now.game)).points) (length (walk_of (game_of self.now.game)).ends) (target_of at) }
        ensures { IfOk result (λ text. text_at (lines (trees_of (game_of self.now.game))) (target_of at) ≡ Some (string_bytes text)) }
    {
        let mut out = String::new(alloc);
        push_from(&mut out, &self.game.rounds, at)?;
        Ok(out)
    }
}
