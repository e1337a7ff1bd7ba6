//! The slots of a player: one for each own point, class of the point's round, and move.

ghost use Rattle.std.specs.Prelude.{◌≡◌, ◌+◌, ◌<◌, ◌≤◌, ◌^◌, IfOk, OnOk, IfErr};
ghost use Rattle.gs_model.specs.Frame.{point_count};
ghost use Rattle.gs_seq.specs.{Games.{frame_in}, Slots.{AreOffsets, sequence_count, slot_count as slots_in, slots_at as slots_here, slots_before}};
ghost use Rattle.gs_seq.specs.Stops.{HasOver, HasSequencesWithin, IsTooLong};

use crate::stop::SeqFault;
use gs_filter::Classes;
use gs_game::ValidGame;
use std::alloc::{AllocError, Global};

/// Returns the number of points of a game.
pub(crate) fn point_total(game: &ValidGame) -> u32
    ensures { result ≡ point_count (frame_in game.now) }
{
    game.points().len() as u32
}

/// Returns the number of slots of a player at a point: one for each class of its round and each move, or 0 if the other player chooses there.
pub(crate) fn slots_at(game: &ValidGame, classes: &Classes, player: u8, point: u32) -> u64
    requires parents { classes.now.parents ≡ (frame_in game.now).parents }
    requires in_range { point < point_count (frame_in game.now) }
    ensures { result ≡ slots_here (frame_in game.now) classes.now.lists player point }
{
    let point = &game.points()[point as usize];
    if point.player == player {
        u64::from(classes.classes(point.round)) * point.moves.len() as u64
    } else {
        0
    }
}

/// Returns the number of slots of a player at the points from `from` up to but not including `to`.
pub(crate) fn slots_between(
    game: &ValidGame,
    classes: &Classes,
    player: u8,
    from: u32,
    to: u32,
) -> u64
    requires parents { classes.now.parents ≡ (frame_in game.now).parents }
    requires ordered { from ≤ to }
    requires in_range { to ≤ point_count (frame_in game.now) }
    ensures { slots_before (frame_in game.now) classes.now.lists player from + result ≡ slots_before (frame_in game.now) classes.now.lists player to }
{
    let mut slots = 0u64;
    for point in from..to {
        slots += slots_at(game, classes, player, point);
    }
    slots
}

/// Returns the number of slots of a player.
pub(crate) fn slot_count(game: &ValidGame, classes: &Classes, player: u8) -> u64
    requires parents { classes.now.parents ≡ (frame_in game.now).parents }
    ensures value { result ≡ slots_in (frame_in game.now) classes.now.lists player }
    ensures few { result < 2 ^ 60 }
{
    slots_between(game, classes, player, 0, point_total(game))
}

/// Returns the numbers of slots of players 1 and 2. Fails with the first player that has more than `most` sequences.
pub(crate) fn few_slots(
    game: &ValidGame,
    classes: &Classes,
    most: u32,
) -> Result<(u32, u32), SeqFault>
    requires { classes.now.parents ≡ (frame_in game.now).parents }
    ensures one { IfOk result (λ n. n.0 ≡ slots_in (frame_in game.now) classes.now.lists 1) }
    ensures two { IfOk result (λ n. n.1 ≡ slots_in (frame_in game.now) classes.now.lists 2) }
    ensures few { OnOk result (HasSequencesWithin most (frame_in game.now) classes.now.lists) }
    ensures refused { IfErr result (IsTooLong most (frame_in game.now) classes.now.lists) }
{
    let one = few_slots_of(game, classes, 1, most)?;
    let two = few_slots_of(game, classes, 2, most)?;
    Ok((one, two))
}

/// Returns the number of slots of a player. Fails if the player has more than `most` sequences.
fn few_slots_of(game: &ValidGame, classes: &Classes, player: u8, most: u32) -> Result<u32, SeqFault>
    requires { classes.now.parents ≡ (frame_in game.now).parents }
    ensures value { IfOk result (λ n. n ≡ slots_in (frame_in game.now) classes.now.lists player) }
    ensures few { OnOk result (sequence_count (frame_in game.now) classes.now.lists player ≤ most) }
    ensures refused { IfErr result (HasOver most (frame_in game.now) classes.now.lists player) }
{
    let count = slot_count(game, classes, player) + 1;
    if count > u64::from(most) {
        return Err(SeqFault::TooManySequences { player, count });
    }
    Ok(count as u32 - 1)
}

/// Returns for each point the slot of its first class and its first move.
pub(crate) fn offsets_of(
    alloc: Global,
    game: &ValidGame,
    classes: &Classes,
) -> Result<Vec<u32>, AllocError>
    requires parents { classes.now.parents ≡ (frame_in game.now).parents }
    requires one { slots_in (frame_in game.now) classes.now.lists 1 < 2 ^ 32 }
    requires two { slots_in (frame_in game.now) classes.now.lists 2 < 2 ^ 32 }
    ensures { IfOk result (λ v. AreOffsets (frame_in game.now) classes.now.lists v.items) }
{
    let count = point_total(game);
    let mut offsets = Vec::with_capacity(alloc, count as usize)?;
    let mut one = 0;
    let mut two = 0;
    for point in 0..count {
        let player = game.points()[point as usize].player;
        offsets.push(if player == 1 { one } else { two })?;
        one += slots_at(game, classes, 1, point) as u32;
        two += slots_at(game, classes, 2, point) as u32;
    }
    Ok(offsets)
}
