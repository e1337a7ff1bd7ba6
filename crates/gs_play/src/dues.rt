//! For each place the turn from which it has to be looked at again.

ghost use Rattle.std.specs.Prelude.{◌≡◌, ◌-◌, ◌*◌, ◌/◌, ◌<◌, ◌≤◌, ℕ, IfOk, length, set, replicate, slice_index};
ghost use Rattle.std.specs.Int.{div_ceil};
ghost use Rattle.gs_play.specs.DueTurns.{IsDues, IsNoneDue};

use std::alloc::{AllocError, Global};

/// A turn for each place, and for each 64 of them a turn that is not after any of theirs.
/// So a sweep passes over what is not due.
#[derive(Drop)]
pub(crate) struct Dues {
    pub(crate) turns: Vec<u32>,
    pub(crate) soonest: Vec<u32>,
}

/// The least of another turn and those of the places from one on, before another.
fn least(turns: &[u32], from: usize, stop: usize, most: u32) -> u32
    requires order { from ≤ stop }
    requires within { stop ≤ length turns.now }
    ensures most { result ≤ most }
    ensures least { (k : ℕ) → from ≤ k → k < stop → result ≤ slice_index turns.now k }
{
    let mut least = most;
    for place in from..stop {
        if turns[place] < least {
            least = turns[place];
        }
    }
    least
}

/// So many places, all due in a turn.
pub(crate) fn dues_of(alloc: Global, places: usize, turn: u32) -> Result<Dues, AllocError>
    ensures dues { IfOk result IsDues }
    ensures turns { IfOk result (λ d. d.turns.items ≡ replicate places turn) }
    ensures blocks { IfOk result (λ d. length d.soonest.items ≡ div_ceil places 64) }
{
    let turns = vec![in alloc; turn; places]?;
    let soonest = vec![in alloc; turn; places.div_ceil(64)]?;
    Ok(Dues { turns, soonest })
}

/// Makes a place due in a turn.
pub(crate) fn set_due(dues: &mut Dues, place: usize, turn: u32)
    requires dues { IsDues dues.old }
    requires place { place < length dues.old.turns.items }
    ensures dues { IsDues dues.new }
    ensures turns { dues.new.turns.items ≡ set dues.old.turns.items place turn }
    ensures blocks { length dues.new.soonest.items ≡ length dues.old.soonest.items }
{
    dues.turns[place] = turn;
    let block = place / 64;
    if turn < dues.soonest[block] {
        dues.soonest[block] = turn;
    }
}

/// A turn, at most a given one, that is not after any place's.
pub(crate) fn soonest(dues: &Dues, most: u32) -> u32
    requires { IsDues dues.now }
    ensures most { result ≤ most }
    ensures least { (k : ℕ) → k < length dues.now.turns.items → result ≤ slice_index dues.now.turns.items k }
{
    least(&dues.soonest, 0, dues.soonest.len(), most)
}

/// Returns the place behind the last one that is due in a turn, from `from` up to but not including `stop`. Returns `from` if none is due there.
/// From `stop` on none is.
pub(crate) fn past_due(turns: &[u32], from: usize, stop: usize, turn: u32) -> usize
    requires order { from ≤ stop }
    requires within { stop ≤ length turns.now }
    requires behind { IsNoneDue turns.now stop (length turns.now) turn }
    ensures from { from ≤ result }
    ensures most { result ≤ stop }
    ensures due { from < result → slice_index turns.now (result - 1) ≤ turn }
    ensures behind { IsNoneDue turns.now result (length turns.now) turn }
{
    for place in (from..stop).rev() {
        if turns[place] <= turn {
            return place + 1;
        }
    }
    from
}

/// Finds again what is kept for a block of places.
pub(crate) fn renew(dues: &mut Dues, block: usize, from: usize, stop: usize)
    requires dues { IsDues dues.old }
    requires block { block < length dues.old.soonest.items }
    requires from { from ≡ block * 64 }
    requires order { from ≤ stop }
    requires within { stop ≤ length dues.old.turns.items }
    requires whole { (k : ℕ) → k < length dues.old.turns.items → k / 64 ≡ block → k < stop }
    ensures dues { IsDues dues.new }
    ensures turns { dues.new.turns ≡ dues.old.turns }
    ensures blocks { length dues.new.soonest.items ≡ length dues.old.soonest.items }
{
    dues.soonest[block] = least(&dues.turns, from, stop, u32::MAX);
}
