//! Kinds of boards: boards of one kind have the same hands. A hand is a number that stands for a level and a key.

ghost use Rattle.std.specs.{Prelude.{◌≡◌, ◌<◌, ◌⊎◌, IfOk, OnOk, length}, List.{All}};
ghost use Rattle.gs_lossless.specs.Hands.{AreHands, HasMore, IsKindOf, KeepsKinds};

use crate::board::Board;
use std::alloc::{AllocError, Global};
use std::collections::HashMap;

/// A kind of boards: the place of its first board, and the hands on that board.
#[derive(Drop)]
pub(crate) struct Kind {
    pub(crate) board: usize,
    pub(crate) hands: Vec<u64>,
}

/// The number of possible keys, 2^32. A hand is the level of a signal times this, plus its key.
pub(crate) const KEYS: u64 = 4294967296;

/// The kinds so far. `seen` has the place of each kind by its hands in ascending order, and `row` has the hands looked up last, in ascending order.
#[derive(Drop)]
pub(crate) struct Kinds {
    pub(crate) list: Vec<Kind>,
    pub(crate) seen: HashMap<Vec<u64>, usize>,
    pub(crate) row: Vec<u64>,
}

/// Replaces the content of `hands` by the hands of all signals of a board.
pub(crate) fn list_hands(
    hands: &mut Vec<u64>,
    board: &Board,
    keys: &[u32],
) -> Result<(), AllocError>
    requires { All (λ seat. seat.signal < length keys.now) board.now.seats.items }
    ensures { OnOk result (AreHands board.now keys.now hands.new.items) }
{
    hands.resize(board.seats.len(), 0)?;
    for (place, seat) in board.seats.iter().enumerate() {
        hands[place] = u64::from(seat.level) * KEYS + u64::from(keys[seat.signal as usize]);
    }
    Ok(())
}

/// Returns the place of the kind that has these hands, in any order. If there is none, adds a kind with these hands and the place `board`.
pub(crate) fn kind_of(
    alloc: Global,
    kinds: &mut Kinds,
    hands: &[u64],
    board: usize,
) -> Result<usize, AllocError>
    requires kept { KeepsKinds kinds.old.list.items kinds.old.seen }
    ensures kind { IfOk result (λ kind. IsKindOf kinds.new.list.items kind hands.now) }
    ensures kept { OnOk result (KeepsKinds kinds.new.list.items kinds.new.seen) }
    ensures list { OnOk result ((kinds.new.list.items ≡ kinds.old.list.items) ⊎ HasMore kinds.old.list.items kinds.new.list.items board hands.now) }
{
    kinds.row.clear();
    kinds.row.extend_from_slice(hands)?;
    kinds.row.sort_unstable();
    if let Some(kind) = kinds.seen.get(&kinds.row) {
        return Ok(*kind);
    }
    let kind = kinds.list.len();
    let hands = Vec::from_slice(alloc, hands)?;
    kinds.list.push(Kind { board, hands })?;
    let row = Vec::from_slice(alloc, &kinds.row)?;
    kinds.seen.insert(row, kind)?;
    Ok(kind)
}
