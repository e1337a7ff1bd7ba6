//! Boards: the last-round signals that show the same public cards.

ghost use Rattle.std.specs.{Prelude.{◌≡◌, ◌<◌, ◌^◌, true, IfOk, length, map}, List.{All}, List.Sorted.{IsNonDecreasingBy, IsPermutation}};
ghost use Rattle.gs_tree.specs.{Boards.{signals_on}, Plain.{IsPlain}, Trees.{rules_of}, Walk.{last_count}};
ghost use Rattle.gs_lossless.specs.Boards.{IsBoard, PaysOnce, ranked, seat_of};

use gs_tree::Signals;
use std::alloc::{AllocError, Global};

/// A last-round signal and its level: the strength of its hand, or its rank on its board. The levels of two signals of a board decide their outcome.
#[derive(Clone, Copy)]
pub(crate) struct Seat {
    pub(crate) level: u32,
    pub(crate) signal: u32,
}

/// The seats of the signals on a board, the weakest first.
#[derive(Drop)]
pub(crate) struct Board {
    pub(crate) seats: Vec<Seat>,
}

/// Returns the signals on the board of `first`, with their strengths as levels.
fn seats_beside(alloc: Global, signals: &Signals, first: u32) -> Result<Vec<Seat>, AllocError>
    requires { first < last_count (rules_of signals.now) }
    ensures { IfOk result (λ v. v.items ≡ map (seat_of (rules_of signals.now)) (signals_on (rules_of signals.now) first)) }
{
    let (firsts, nexts) = signals.boards();
    let strengths = signals.strengths();
    let kinds = signals.game().game().deck.counts().len();
    let mut seats = Vec::with_capacity(alloc, kinds)?;
    let mut signal = firsts[first as usize];
    while (signal as usize) < nexts.len() {
        seats.push(Seat {
            level: strengths[signal as usize],
            signal,
        })?;
        signal = nexts[signal as usize];
    }
    Ok(seats)
}

/// Sorts the seats by level, the weakest first.
fn sort_by_level(seats: &mut Vec<Seat>)
    ensures moved { IsPermutation seats.old.items seats.new.items }
    ensures ascending { IsNonDecreasingBy (λ seat. seat.level) seats.new.items }
{
    seats.sort_unstable_by_key(|seat| seat.level);
}

/// Replaces the level of each seat by its rank: how many of the seats are weaker.
fn rank(seats: &mut Vec<Seat>)
    requires few { length seats.old.items < 2 ^ 32 }
    requires ascending { IsNonDecreasingBy (λ seat. seat.level) seats.old.items }
    ensures { seats.new.items ≡ ranked seats.old.items }
{
    let mut rank = 0;
    let mut above = 0;
    for place in 0..seats.len() {
        let Seat { level, signal } = seats[place];
        if above < level {
            rank = place as u32;
            above = level;
        }
        seats[place] = Seat {
            level: rank,
            signal,
        };
    }
}

/// Returns the board of a signal. With `by_rank`, for games in which each bonus is 1, the levels are ranks.
/// Boards with the same order of ranks are then alike, whatever their cards.
fn board_of(
    alloc: Global,
    signals: &Signals,
    first: u32,
    by_rank: bool,
) -> Result<Board, AllocError>
    requires first_in { first < last_count (rules_of signals.now) }
    requires plain { IsPlain (rules_of signals.now) }
    requires once { by_rank ≡ true → PaysOnce (rules_of signals.now) }
    ensures { IfOk result (λ board. IsBoard (rules_of signals.now) by_rank board) }
{
    let mut seats = seats_beside(alloc, signals, first)?;
    sort_by_level(&mut seats);
    if by_rank {
        rank(&mut seats);
    }
    Ok(Board { seats })
}

/// Returns all boards, in the order of their first signals.
pub(crate) fn boards_of(
    alloc: Global,
    signals: &Signals,
    by_rank: bool,
) -> Result<Vec<Board>, AllocError>
    requires plain { IsPlain (rules_of signals.now) }
    requires once { by_rank ≡ true → PaysOnce (rules_of signals.now) }
    ensures { IfOk result (λ v. All (IsBoard (rules_of signals.now) by_rank) v.items) }
{
    let (firsts, _) = signals.boards();
    let mut boards = Vec::new(alloc);
    for (signal, first) in firsts.iter().enumerate() {
        if *first as usize == signal {
            let board = board_of(alloc, signals, *first, by_rank)?;
            boards.push(board)?;
        }
    }
    Ok(boards)
}
