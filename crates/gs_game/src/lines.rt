//! Finds the position that the text of a line names.

ghost use Rattle.std.specs.Prelude.{◌≡◌, ◌<◌, ◌+◌, ◌^◌, [], None, option_map};
ghost use Rattle.gs_bet.specs.{TreeView.{plain, plain_moves}, declared.shape.Act.{out-Act}};
ghost use Rattle.gs_game.specs.{Counts.{ends_in, ends_of, points_in, points_of}, Games.{plain_trees}};
ghost use Rattle.gs_game.specs.{Lines.{MovesFollow, RoundsFollow, TreeFollows, follow, follow_from, follow_moves}, Refusals.{no_even_from}};
ghost use Rattle.gs_game.specs.Seen.{target_of};

use crate::game::Round;
use crate::positions::Target;
use crate::valid::ValidGame;
use gs_bet::{Act, Tree};

/// A number of points and a number of ends.
#[derive(Clone, Copy)]
pub struct Numbers {
    pub points: u32,
    pub ends: u32,
}

/// Returns the number of points of a tree and below it, and the number of its ends. Behind each even leaf there are `more`.
pub fn numbers_below(tree: &Tree, more: Numbers) -> Numbers
    requires points { points_of more.points (plain tree.now) < 2 ^ 32 }
    requires ends { ends_of more.ends (plain tree.now) < 2 ^ 32 }
    ensures points { result.points ≡ points_of more.points (plain tree.now) }
    ensures ends { result.ends ≡ ends_of more.ends (plain tree.now) }
{
    match tree {
        Tree::Act(act) => {
            let mut numbers = Numbers { points: 1, ends: 0 };
            for next in &act.moves {
                let below = numbers_below(&next.next, more);
                numbers.points += below.points;
                numbers.ends += below.ends;
            }
            numbers
        }
        Tree::Fold => Numbers { points: 0, ends: 1 },
        Tree::Even => more,
    }
}

/// Returns the number of points and the number of ends of the rounds that are left.
pub fn numbers_in(rounds: &[Round]) -> Numbers
    requires evens { no_even_from 1 (plain_trees rounds.now) ≡ None }
    requires points { points_in (plain_trees rounds.now) < 2 ^ 32 }
    requires ends { ends_in (plain_trees rounds.now) < 2 ^ 32 }
    ensures points { result.points ≡ points_in (plain_trees rounds.now) }
    ensures ends { result.ends ≡ ends_in (plain_trees rounds.now) }
{
    match rounds {
        [first, rest @ ..] => numbers_below(&first.tree.tree, numbers_in(rest)),
        [] => Numbers { points: 0, ends: 1 },
    }
}

/// Returns the position that a text names in some rounds. Their points and ends are numbered from `before` on.
#[cycle(follower)]
fn follow_from(rounds: &[Round], before: Numbers, text: &[u8]) -> Option<Target>
    requires { RoundsFollow (plain_trees rounds.now) before.points before.ends }
    ensures { option_map target_of result ≡ follow_from (plain_trees rounds.now) before.points before.ends text.now }
{
    match rounds {
        [first, rest @ ..] => match text {
            [b'/', text @ ..] => {
                follow_below(&first.tree.tree, rest, numbers_in(rest), before, text)
            }
            _ => None,
        },
        [] => end_here(before, text),
    }
}

/// Returns the end at this place if the text is over, else none.
fn end_here(before: Numbers, text: &[u8]) -> Option<Target>
    ensures { option_map target_of result ≡ follow_from [] before.points before.ends text.now }
{
    match text {
        [] => Some(Target::End(before.ends)),
        _ => None,
    }
}

/// Returns the position that a text names in a tree. Behind its even leaves come the rounds `rest`, with `more` points and ends.
#[cycle(follower)]
fn follow_below(
    tree: &Tree,
    rest: &[Round],
    more: Numbers,
    before: Numbers,
    text: &[u8],
) -> Option<Target>
    requires points { more.points ≡ points_in (plain_trees rest.now) }
    requires ends { more.ends ≡ ends_in (plain_trees rest.now) }
    requires room { TreeFollows (plain_trees rest.now) (plain tree.now) before.points before.ends }
    ensures { option_map target_of result ≡ follow (follow_from (plain_trees rest.now)) more.points more.ends before.points before.ends
        (plain tree.now) text.now }
{
    match tree {
        Tree::Act(act) => match text {
            [letter, text @ ..] => {
                let behind = Numbers {
                    points: before.points + 1,
                    ends: before.ends,
                };
                follow_act(act, rest, more, behind, *letter, text)
            }
            [] => Some(Target::Point(before.points)),
        },
        Tree::Fold => end_here(before, text),
        Tree::Even => follow_from(rest, before, text),
    }
}

/// Returns the position that a text names behind a choice, by the move with this letter.
#[cycle(follower)]
fn follow_act(
    act: &Act,
    rest: &[Round],
    more: Numbers,
    before: Numbers,
    letter: u8,
    text: &[u8],
) -> Option<Target>
    requires points { more.points ≡ points_in (plain_trees rest.now) }
    requires ends { more.ends ≡ ends_in (plain_trees rest.now) }
    requires room { MovesFollow (plain_trees rest.now) (plain_moves (out-Act act.now).moves.items) before.points before.ends }
    ensures { option_map target_of result ≡ follow_moves (follow_from (plain_trees rest.now)) more.points more.ends before.points before.ends
        (plain_moves (out-Act act.now).moves.items) letter text.now }
{
    let mut before = before;
    for next in &act.moves {
        if next.letter == letter {
            return follow_below(&next.next, rest, more, before, text);
        }
        let below = numbers_below(&next.next, more);
        before.points += below.points;
        before.ends += below.ends;
    }
    None
}

impl ValidGame {
    ghost use Rattle.std.specs.Prelude.{IfSome, Some};
    ghost use Rattle.gs_model.specs.{Frame.{trees_of}, Positions.{Target as Position}};
    ghost use Rattle.gs_game.specs.{Games.{game_of}, Lines.{lines, text_at}};

    /// Returns the point or end whose line has this text, none where no line has it.
    pub fn line_of(&self, text: &str) -> Option<Target>
        ensures found { IfSome result (λ at. text_at (lines (trees_of (game_of self.now.game))) (target_of at) ≡ Some text.now) }
        ensures only { (at : Position) → text_at (lines (trees_of (game_of self.now.game))) at ≡ Some text.now → option_map target_of result ≡ Some at }
    {
        let before = Numbers { points: 0, ends: 0 };
        follow_from(&self.game.rounds, before, text.as_bytes())
    }
}
