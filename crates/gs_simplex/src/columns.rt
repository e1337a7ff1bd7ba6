//! Where the columns of a table stand. A column that may be other than 0 in several rows has a slot: one place in every row. A column that is 0 in all rows
//! but one may be that row's own column.
//! For Leduc the table takes 3.7 MB in place of 4.9 with a slot for each column.

ghost use Rattle.std.specs.Prelude.{◌≡◌, ◌≢◌, MatchOption, ℕ, ◌+◌, ◌<◌, ◌≤◌, ◌^◌, ℤ, length, slice_index};
ghost use Rattle.gs_simplex.specs.{Numbers.{AllAtMost}, Columns.{place_in, in_columns, AreStands, AreStandsAfter, AreLivePlaces}};
ghost use Rattle.gs_simplex.specs.Columns.{IsTimes, IsFirstWideOf, HasWideColumn};

use crate::row::{WIDE, quotient};
use crate::table::WideCell;

// Returns the place of a column in row `i`, or `width` if it has none there. `stand` says where the column stands: up to `rows` it is the row whose own
// column it is, and above it is `rows` plus the place of its slot.
pub(crate) fn place_of(rows: usize, width: usize, stand: u32, i: usize) -> usize
    ensures { result ≡ place_in rows width stand i }
{
    let stand = stand as usize;
    if stand > rows {
        return stand - rows;
    }
    if stand == i {
        return 0;
    }
    width
}

// Returns the own column of row `r`, if it has one.
fn own_of(stands: &[u32], r: usize) -> Option<usize>
    ensures { MatchOption result ((j : ℕ) → j < length stands.now → slice_index stands.now j ≢ r)
        (λ j. (j < length stands.now) × (slice_index stands.now j ≡ r)) }
{
    for j in 0..stands.len() {
        if stands[j] as usize == r {
            return Some(j);
        }
    }
    None
}

// Makes column `c` the own column of row `r`. The column that was its own takes the slot of `c`.
pub(crate) fn make_own(stands: &mut [u32], r: usize, c: usize)
    requires row { r < 2 ^ 32 }
    requires column { c < length stands.old }
    requires differ { (j h : ℕ) → j < length stands.old → h < length stands.old → slice_index stands.old j ≡ slice_index stands.old h → j ≡ h }
    ensures { AreStandsAfter (length stands.old) (slice_index stands.old) (slice_index stands.new) r c }
{
    match own_of(stands, r) {
        Some(b) => {
            stands[b] = stands[c];
            stands[c] = r as u32;
        }
        None => stands[c] = r as u32,
    }
}

// Lists the places that may have a number other than 0 in a pivot: the own number's, the spare one and the slot of each column. Returns their number.
pub(crate) fn live_places(rows: usize, width: usize, stands: &[u32], live: &mut [u32]) -> usize
    requires room { length live.old ≡ length stands.now + 2 }
    requires some { 1 < width }
    requires small { width ≤ 2 ^ 32 }
    requires stands { AreStands rows width (length stands.now) (slice_index stands.now) }
    ensures { AreLivePlaces rows width (length stands.now) (slice_index stands.now) live.new result }
{
    live[0] = 0;
    live[1] = (width - 1) as u32;
    let mut found: usize = 2;
    for j in 0..stands.len() {
        if stands[j] as usize <= rows {
            continue;
        }
        live[found] = stands[j] - rows as u32;
        found += 1;
    }
    found
}

// Returns the first number of row `i`, by column, that is not narrow. The row's places have the quotients of `mixed` by `by`.
pub(crate) fn first_wide(
    rows: usize,
    stands: &[u32],
    mixed: &[i128],
    i: usize,
    by: u128,
) -> WideCell
    requires some { 0 < by }
    requires small { by ≤ 2 ^ 125 }
    requires within { AllAtMost mixed.now (2 ^ 125) }
    requires inside { (j : ℕ) → j < length stands.now → slice_index stands.now j < rows + length mixed.now }
    requires wide { HasWideColumn rows stands.now i by mixed.now }
    ensures row { result.row ≡ i }
    ensures first { (row : ℕ → ℤ) → IsTimes by mixed.now row →
        IsFirstWideOf (length stands.now) (in_columns rows (length mixed.now) (slice_index stands.now) i row) result.column result.number }
{
    for j in 0..stands.len() {
        let place = place_of(rows, mixed.len(), stands[j], i);
        if place == mixed.len() {
            continue;
        }
        let number = quotient(mixed[place], by);
        if number.unsigned_abs() >= WIDE {
            return WideCell {
                row: i,
                column: j,
                number,
            };
        }
    }
    unreachable!()
}
