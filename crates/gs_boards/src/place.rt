//! The places of last-round signals, ordered by board and strength.

ghost use Rattle.std.specs.{Prelude.{◌≡◌, ◌<◌, All, IfOk, map}, List.Sorted.{IsNonDecreasingBy, IsPermutation}};
ghost use Rattle.gs_tree.specs.{Boards.{signals_on}, Trees.{rules_of}, Walk.{last_count}};
ghost use Rattle.gs_boards.specs.{Boards.{ArePlaces, IsPlace}, declared.place.Place.{Place as Placed}};

use gs_rank::category;
use gs_tree::Signals;
use std::alloc::{AllocError, Global};

/// The place of a last-round signal. Places are ordered by board, and on a board by strength.
#[derive(Clone, Copy)]
pub(crate) struct Place {
    // the first signal that shows the same public cards
    pub(crate) board: u32,
    // of the hand that the signal holds: more wins
    pub(crate) strength: u32,
    // the bonus of the hand's category
    pub(crate) win: u8,
    pub(crate) signal: u32,
}

/// Returns the place of a last-round signal.
fn place_of(signals: &Signals, signal: u32) -> Place
    requires { signal < last_count (rules_of signals.now) }
    ensures place { IsPlace (rules_of signals.now) result }
    ensures signal { result.signal ≡ signal }
{
    let (firsts, _) = signals.boards();
    let strength = signals.strength(signal);
    let game = signals.game().game();
    let category = category(game.ranking, strength);
    Place {
        board: firsts[signal as usize],
        strength,
        win: game.bonus[usize::from(category)],
        signal,
    }
}

/// Returns the places of the signals on the board of `first`, in the order of the signals. Fails only if memory runs out.
pub(crate) fn places_on(
    alloc: Global,
    signals: &Signals,
    first: u32,
) -> Result<Vec<Place>, AllocError>
    requires { first < last_count (rules_of signals.now) }
    ensures each { IfOk result (λ v. All (IsPlace (rules_of signals.now)) v.items) }
    ensures all { IfOk result (λ v. map (λ (p : Placed). p.signal) v.items ≡ signals_on (rules_of signals.now) first) }
{
    let (firsts, nexts) = signals.boards();
    let kinds = signals.game().game().deck.counts().len();
    let mut places = Vec::with_capacity(alloc, kinds)?;
    let mut signal = firsts[first as usize];
    while (signal as usize) < nexts.len() {
        places.push(place_of(signals, signal))?;
        signal = nexts[signal as usize];
    }
    Ok(places)
}

/// Sorts places by strength.
pub(crate) fn sort_places(places: &mut Vec<Place>)
    ensures moved { IsPermutation places.old.items places.new.items }
    ensures rising { IsNonDecreasingBy (λ place. place.strength) places.new.items }
{
    places.sort_unstable_by_key(|place| place.strength);
}

/// Returns the places of all last-round signals, board by board, and on each board by strength. Fails only if memory runs out.
pub(crate) fn places_of(alloc: Global, signals: &Signals) -> Result<Vec<Place>, AllocError>
    ensures { IfOk result (λ v. ArePlaces (rules_of signals.now) v.items) }
{
    let (firsts, _) = signals.boards();
    let mut places = Vec::with_capacity(alloc, firsts.len())?;
    for (signal, first) in firsts.iter().enumerate() {
        if *first as usize == signal {
            let mut board = places_on(alloc, signals, *first)?;
            sort_places(&mut board);
            places.extend_from_slice(&board)?;
        }
    }
    Ok(places)
}
