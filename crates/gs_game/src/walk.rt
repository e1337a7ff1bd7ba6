//! The walk of the betting trees, which numbers points and ends.

ghost use Rattle.std.specs.Prelude.{◌≡◌, ◌<◌, ◌^◌, ◌++◌, ◌∷◌, [], IfOk, length};
ghost use Rattle.gs_model.specs.{Walk.{walk_rounds, walk_tree}, Positions.{at_end}};
ghost use Rattle.gs_bet.specs.TreeView.{plain, plain_act};
ghost use Rattle.gs_game.specs.{Games.{plain_trees}, Seen.{target_of}, Walks.{Grows, IsWalkable, RoundsWalkable, place_of}};

use crate::game::Round;
use crate::place::Place;
use crate::positions::{Arrow, End, Point, Step, Target};
use gs_bet::{Act, Tree};
use std::alloc::{AllocError, Global};

/// The points and ends that a walk has met so far.
#[derive(Drop)]
pub struct Walk {
    pub points: Vec<Point>,
    pub ends: Vec<End>,
}

/// Adds an end, and returns its position.
fn push_end(walk: &mut Walk, end: End) -> Result<Target, AllocError>
    requires { length walk.old.ends.items < 2 ^ 32 }
    ensures points { walk.new.points ≡ walk.old.points }
    ensures ends { IfOk result (λ to. (walk.new.ends.items ≡ walk.old.ends.items ++ end ∷ []) × (target_of to ≡ at_end (length walk.old.ends.items))) }
{
    let number = walk.ends.len() as u32;
    walk.ends.push(end)?;
    Ok(Target::End(number))
}

/// Walks the rounds that are left, and returns the position where they begin.
#[cycle(walker)]
pub fn walk_from(
    alloc: Global,
    walk: &mut Walk,
    rounds: &[Round],
    place: Place,
) -> Result<Target, AllocError>
    requires { RoundsWalkable (plain_trees rounds.now) (place_of place (length walk.old.points.items) (length walk.old.ends.items)) }
    ensures { let start = place_of place (length walk.old.points.items) (length walk.old.ends.items) in
        IfOk result (λ to. Grows walk.old.points.items walk.new.points.items walk.old.ends.items walk.new.ends.items to start
        (walk_rounds (plain_trees rounds.now) start)) }
{
    match rounds {
        [first, rest @ ..] => walk_below(alloc, walk, rest, &first.tree.tree, place.next_round()),
        [] => push_end(walk, place.shown()),
    }
}

/// Walks a tree, and behind its even leaves the rounds that are left. Returns the position where the tree begins.
#[cycle(walker)]
fn walk_below(
    alloc: Global,
    walk: &mut Walk,
    rest: &[Round],
    tree: &Tree,
    place: Place,
) -> Result<Target, AllocError>
    requires { IsWalkable (plain_trees rest.now) (plain tree.now) (place_of place (length walk.old.points.items) (length walk.old.ends.items)) }
    ensures { let start = place_of place (length walk.old.points.items) (length walk.old.ends.items) in
        IfOk result (λ to. Grows walk.old.points.items walk.new.points.items walk.old.ends.items walk.new.ends.items to start
        (walk_tree (walk_rounds (plain_trees rest.now)) (plain tree.now) start)) }
{
    match tree {
        Tree::Act(act) => walk_act(alloc, walk, rest, act, place),
        Tree::Fold => push_end(walk, place.folded()),
        Tree::Even => walk_from(alloc, walk, rest, place),
    }
}

/// Walks a choice: its point, and what its moves lead to. Returns the point.
#[cycle(walker)]
fn walk_act(
    alloc: Global,
    walk: &mut Walk,
    rest: &[Round],
    act: &Act,
    place: Place,
) -> Result<Target, AllocError>
    requires { IsWalkable (plain_trees rest.now) (plain_act act.now) (place_of place (length walk.old.points.items) (length walk.old.ends.items)) }
    ensures { let start = place_of place (length walk.old.points.items) (length walk.old.ends.items) in
        IfOk result (λ to. Grows walk.old.points.items walk.new.points.items walk.old.ends.items walk.new.ends.items to start
        (walk_tree (walk_rounds (plain_trees rest.now)) (plain_act act.now) start)) }
{
    let point = walk.points.len() as u32;
    walk.points.push(Point {
        player: act.player,
        round: place.round,
        own: place.own(act.player),
        moves: Vec::new(alloc),
    })?;
    let mut arrows = Vec::new(alloc);
    for next in &act.moves {
        let choice = arrows.len() as u8;
        let here = place.after(act.player, Step { point, choice }, next.chips);
        let to = walk_below(alloc, walk, rest, &next.next, here)?;
        arrows.push(Arrow {
            letter: next.letter,
            to,
        })?;
    }
    walk.points[point as usize].moves = arrows;
    Ok(Target::Point(point))
}
