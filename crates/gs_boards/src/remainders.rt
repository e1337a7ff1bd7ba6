//! What last-round signals are paid in their deals, modulo 2^32, board by board.
//! These walks stand beside those of `walks`, seven lines each: one for both would go by a trait of cells with laws.

ghost use Rattle.std.specs.Prelude.{◌≡◌, ◌+◌, ◌<◌, ◌≤◌, ◌+ℤ◌, ℕ, true, false, All, IfOk, OnOk, drop, get_or, length, pos, slice_index_or, take};
ghost use Rattle.gs_tree.specs.{Plain.{IsPlain}, Trees.{rules_of}, Walk.{last_count, shows_same}};
ghost use Rattle.gs_boards.specs.{Boards.{IsFirstOn, deal_remainder, remainder}, Places.{AreWalkable}, Runs.{paid_by}};
ghost use Rattle.gs_boards.specs.{declared.pays.Pays.TheVariants.{Showdown}, declared.place.Place.{Place as Placed}};

use crate::pays::Pays;
use crate::place::{Place, places_on, sort_places};
use crate::running::Running;
use gs_tree::Signals;
use std::alloc::{AllocError, Global};

/// What a deal pays: the outcome, at a showdown for one chip.
const OUTCOME: Pays = Pays::Showdown(1);

/// Returns a sum modulo 2^32.
fn folded(sum: i128) -> u32
    ensures { pos result ≡ remainder sum }
{
    sum.rem_euclid(0x1_0000_0000) as u32
}

/// Writes to `sums` what each place of a board wins from the places before it, modulo 2^32.
fn climb(board: &[Place], numbers: &[u32], sums: &mut [u32])
    requires { AreWalkable board.now (length numbers.now) (length sums.old) }
    ensures paid { (n : ℕ) (d : Placed) → n < length board.now → pos (get_or sums.new (slice_index_or board.now n d).signal 0)
        ≡ remainder (paid_by (Showdown 1) numbers.now (slice_index_or board.now n d) (take n board.now)) }
    ensures others { (s : ℕ) → All (λ p. p.signal ≡ s → ⊥) board.now → get_or sums.new s 0 ≡ get_or sums.old s 0 }
{
    let mut before = Running::new();
    for at in 0..board.len() {
        let place = board[at];
        let signal = place.signal as usize;
        let here = before.at(place);
        sums[signal] = folded(OUTCOME.won(place, here));
        before = here.past(u128::from(numbers[signal]));
    }
}

/// Adds to `sums` what each place of a board loses to the places behind it, modulo 2^32.
fn descend(board: &[Place], numbers: &[u32], sums: &mut [u32])
    requires { AreWalkable board.now (length numbers.now) (length sums.old) }
    ensures paid { (n : ℕ) (d : Placed) → n < length board.now → pos (get_or sums.new (slice_index_or board.now n d).signal 0)
        ≡ remainder (pos (get_or sums.old (slice_index_or board.now n d).signal 0)
        +ℤ paid_by (Showdown 1) numbers.now (slice_index_or board.now n d) (drop (n + 1) board.now)) }
    ensures others { (s : ℕ) → All (λ p. p.signal ≡ s → ⊥) board.now → get_or sums.new s 0 ≡ get_or sums.old s 0 }
{
    let mut behind = Running::new();
    for at in (0..board.len()).rev() {
        let place = board[at];
        let signal = place.signal as usize;
        let here = behind.at(place);
        sums[signal] = sums[signal].wrapping_add(folded(OUTCOME.lost(here)));
        behind = here.past(OUTCOME.worth(place, u64::from(numbers[signal])));
    }
}

/// Writes to `sums` what the signals on the board of `first`, its first signal, are paid in their deals, modulo 2^32. Fails only if memory runs out.
fn board_remainders(
    alloc: Global,
    signals: &Signals,
    first: u32,
    numbers: &[u32],
    sums: &mut [u32],
) -> Result<(), AllocError>
    requires plain { IsPlain (rules_of signals.now) }
    requires first { IsFirstOn (rules_of signals.now) first first }
    requires numbers { last_count (rules_of signals.now) ≤ length numbers.now }
    requires sums { length sums.old ≡ last_count (rules_of signals.now) }
    ensures here { OnOk result ((s : ℕ) → s < last_count (rules_of signals.now) → shows_same (rules_of signals.now) first s ≡ true
        → pos (get_or sums.new s 0) ≡ deal_remainder (rules_of signals.now) numbers.now s) }
    ensures others { OnOk result ((s : ℕ) → s < last_count (rules_of signals.now) → shows_same (rules_of signals.now) first s ≡ false
        → get_or sums.new s 0 ≡ get_or sums.old s 0) }
{
    let mut board = places_on(alloc, signals, first)?;
    sort_places(&mut board);
    climb(&board, numbers, sums);
    descend(&board, numbers, sums);
    Ok(())
}

/// Returns what each last-round signal is paid in its deals, modulo 2^32. A deal counts the other player's number at their signal, times its weight, times
/// the outcome. Fails only if memory runs out.
pub fn deal_remainders(
    alloc: Global,
    signals: &Signals,
    numbers: &[u32],
) -> Result<Vec<u32>, AllocError>
    requires plain { IsPlain (rules_of signals.now) }
    requires numbers { last_count (rules_of signals.now) ≤ length numbers.now }
    ensures long { IfOk result (λ v. length v.items ≡ last_count (rules_of signals.now)) }
    ensures each { IfOk result (λ v. (s : ℕ) → s < last_count (rules_of signals.now)
        → pos (get_or v.items s 0) ≡ deal_remainder (rules_of signals.now) numbers.now s) }
{
    let (firsts, _) = signals.boards();
    let mut sums = vec![in alloc; 0u32; firsts.len()]?;
    for (signal, first) in firsts.iter().enumerate() {
        if *first as usize == signal {
            board_remainders(alloc, signals, *first, numbers, &mut sums)?;
        }
    }
    Ok(sums)
}
