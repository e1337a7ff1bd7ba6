//! Walks over the places of the boards, from the first to the last and back.

ghost use Rattle.std.specs.Prelude.{◌≡◌, ◌+◌, ◌<◌, ◌≤◌, ◌^◌, ◌+ℤ◌, ℕ, All, drop, get_or, length, pos, slice_index_or, take, unsigned_abs};
ghost use Rattle.gs_boards.specs.{Places.{AreWalkable}, Runs.{paid_by}, declared.place.Place.{Place as Placed}};

use crate::pays::Pays;
use crate::place::Place;
use crate::running::Running;

/// Writes to `sums` what each place is paid by the places before it.
pub(crate) fn climb(places: &[Place], pays: Pays, numbers: &[u64], sums: &mut [i128])
    requires { AreWalkable places.now (length numbers.now) (length sums.old) }
    ensures paid { (n : ℕ) (d : Placed) → n < length places.now →
        get_or sums.new (slice_index_or places.now n d).signal (pos 0) ≡ paid_by pays numbers.now (slice_index_or places.now n d) (take n places.now) }
    ensures small { (n : ℕ) (d : Placed) → n < length places.now → unsigned_abs (get_or sums.new (slice_index_or places.now n d).signal (pos 0)) < 2 ^ 120 }
{
    let mut before = Running::new();
    for at in 0..places.len() {
        let place = places[at];
        let signal = place.signal as usize;
        let here = before.at(place);
        sums[signal] = pays.won(place, here);
        before = here.past(u128::from(numbers[signal]));
    }
}

/// Adds to `sums` what each place is paid by the places behind it.
pub(crate) fn descend(places: &[Place], pays: Pays, numbers: &[u64], sums: &mut [i128])
    requires walkable { AreWalkable places.now (length numbers.now) (length sums.old) }
    requires small { (n : ℕ) (d : Placed) → n < length places.now → unsigned_abs (get_or sums.old (slice_index_or places.now n d).signal (pos 0)) < 2 ^ 120 }
    ensures { (n : ℕ) (d : Placed) → n < length places.now →
        get_or sums.new (slice_index_or places.now n d).signal (pos 0)
        ≡ get_or sums.old (slice_index_or places.now n d).signal (pos 0)
        +ℤ paid_by pays numbers.now (slice_index_or places.now n d) (drop (n + 1) places.now) }
{
    let mut behind = Running::new();
    for at in (0..places.len()).rev() {
        let place = places[at];
        let signal = place.signal as usize;
        let here = behind.at(place);
        sums[signal] += pays.lost(here);
        behind = here.past(pays.worth(place, numbers[signal]));
    }
}
