//! The simplex table: all rows in one piece of memory, and the pivot, which clears a column in every row but one.

ghost use Rattle.std.specs.Prelude.{◌≡◌, ◌≢◌, IfNone, MatchOption, MatchResult, ℕ, ◌+◌, ◌-◌, ◌*◌, ◌<◌, ◌≤◌, ◌^◌, ◌⊎◌, ℤ, pos, neg_ℤ, length, slice_index};
ghost use Rattle.std.specs.Prelude.{vec_len};
ghost use Rattle.gs_simplex.specs.{Rows.{IsNarrow}, Support.{IsSupport}};
ghost use Rattle.gs_simplex.specs.Numbers.{at, cell, AreNarrowNumbers, IsAtMost, AreTops, AllAtMost, IsTurned, IsLeadOf, IsWideReduced};
ghost use Rattle.gs_simplex.specs.Columns.{IsSlotFreed, IsOwnFreed, IsRowCleared, IsRowLed, AreRowsCleared, AreRowsClearedTo, IsPivotDone, IsPivotWide};
ghost use Rattle.gs_simplex.specs.{Columns.{IsLiveRow, IsLive}, Table.{HasRoom}};

use crate::columns::{first_wide, live_places, make_own, place_of};
use crate::row::{Lead, divide_row, fill, greatest, reduce_row};
use crate::sparse::Program;

/// A number that is not narrow, with its row and column, from 0.
#[derive(Clone, Copy)]
pub(crate) struct WideCell {
    pub(crate) row: usize,
    pub(crate) column: usize,
    pub(crate) number: i128,
}

// Negates each number.
fn turn(row: &mut [i64])
    requires { AreNarrowNumbers row.old }
    ensures { (j : ℕ) → j < length row.old → at row.new j ≡ neg_ℤ (at row.old j) }
{
    for x in row.iter_mut() {
        *x = -*x;
    }
}

// Negates a row whose number in column `c` is negative.
fn turn_row(row: &mut [i64], c: usize)
    requires inside { c < length row.old }
    requires narrow { AreNarrowNumbers row.old }
    ensures turned { IsTurned (at row.old) (at row.new) c (length row.old) }
    ensures narrow { AreNarrowNumbers row.new }
{
    if row[c] < 0 {
        turn(row);
    }
}

// Makes a row the pivot row. Negates it if its number in column `c` is negative, divides it by its greatest common divisor, and copies it to `lead`.
// Lists in `filled` the places where the row is not 0, and returns their number.
// It is divided before it clears the others, so the first number that is not narrow is the one that the definition names.
fn take_row(row: &mut [i64], c: usize, lead: &mut [i64], filled: &mut [u32]) -> usize
    requires long { length row.old ≡ length lead.old }
    requires inside { c < length row.old }
    requires small { length row.old ≤ 2 ^ 32 }
    requires room { length filled.old ≡ length row.old }
    requires narrow { AreNarrowNumbers row.old }
    ensures same { lead.new ≡ row.new }
    ensures taken { IsLeadOf (at row.old) (at row.new) c (length row.old) }
    ensures narrow { AreNarrowNumbers row.new }
    ensures support { IsSupport filled.new result (length row.old) (at row.new) (at row.new) }
{
    turn_row(row, c);
    let count = fill(row, filled);
    divide_row(row, filled, count);
    lead.copy_from_slice(row);
    count
}

// Moves the number at place `q` to the spare place, which is the last, and the row's own number, at place 0, to place `q`. The own place is left with 0.
fn free_own(row: &mut [i64], q: usize)
    requires inside { q + 1 < length row.old }
    requires narrow { AreNarrowNumbers row.old }
    ensures freed { IsOwnFreed q (length row.old - 1) (length row.old) (at row.old) (at row.new) }
    ensures narrow { AreNarrowNumbers row.new }
{
    let spare = row.len() - 1;
    row.swap(q, spare);
    row.swap(q, 0);
}

// Makes the row that begins at `start` the pivot row, as `take_row` does. Its number at place `q` goes to the spare place, and its own number to place `q`.
fn take_lead(
    numbers: &mut [i64],
    start: usize,
    q: usize,
    lead: &mut [i64],
    filled: &mut [u32],
) -> usize
    requires inside { start + length lead.old ≤ length numbers.old }
    requires place { q + 1 < length lead.old }
    requires small { length lead.old ≤ 2 ^ 32 }
    requires room { length filled.old ≡ length lead.old }
    requires narrow { AreNarrowNumbers numbers.old }
    ensures same { (j : ℕ) → j < length lead.new → at lead.new j ≡ at numbers.new (start + j) }
    ensures taken { IsRowLed (λ j. at numbers.old (start + j)) (at lead.new) q (length lead.new - 1) (length lead.new) }
    ensures support { IsSupport filled.new result (length lead.new) (at lead.new) (at lead.new) }
    ensures others { (k : ℕ) → (k < start) ⊎ (start + length lead.new ≤ k) → at numbers.new k ≡ at numbers.old k }
    ensures narrow { AreNarrowNumbers numbers.new }
{
    let end = start + lead.len();
    let row = &mut numbers[start..end];
    free_own(row, q);
    take_row(row, lead.len() - 1, lead, filled)
}

// Moves the number at slot `q`, if it is one, to the spare place. The slot is left with 0.
fn free_slot(row: &mut [i64], q: usize)
    requires inside { q + 1 < length row.old }
    requires narrow { AreNarrowNumbers row.old }
    ensures freed { IsSlotFreed q (length row.old - 1) (length row.old) (at row.old) (at row.new) }
    ensures narrow { AreNarrowNumbers row.new }
    ensures bound { (most : ℕ) → AllAtMost row.old most → AllAtMost row.new most }
{
    if q > 0 {
        row.swap(q, row.len() - 1);
    }
}

// Moves the number at slot `q` of the row that begins at `start` to the spare place, and clears it as `reduce_row` does.
fn reduce_at(
    numbers: &mut [i64],
    start: usize,
    q: usize,
    lead: &Lead<'_>,
    mixed: &mut [i128],
    live: &[u32],
    top: u64,
) -> Result<u64, u128>
    requires inside { start + length lead.now.numbers.now ≤ length numbers.old }
    requires spare { lead.now.column + 1 ≡ length lead.now.numbers.now }
    requires place { q < lead.now.column }
    requires live { IsLiveRow live.now q lead.now.column (length lead.now.numbers.now) (λ j. at numbers.old (start + j)) (at lead.now.numbers.now) }
    requires room { length mixed.old ≡ length lead.now.numbers.now }
    requires narrow { AreNarrowNumbers numbers.old }
    requires bound { IsAtMost (length lead.now.numbers.now) (λ j. at numbers.old (start + j)) top }
    ensures others { (k : ℕ) → (k < start) ⊎ (start + length lead.now.numbers.now ≤ k) → at numbers.new k ≡ at numbers.old k }
    ensures answer { MatchResult result
        (λ most. IsRowCleared (at lead.now.numbers.now) q lead.now.column (length lead.now.numbers.now)
        (λ j. at numbers.old (start + j)) (λ j. at numbers.new (start + j))
        × AreNarrowNumbers numbers.new × IsAtMost (length lead.now.numbers.now) (λ j. at numbers.new (start + j)) most)
        (λ by. (mid : ℕ → ℤ) × (IsSlotFreed q lead.now.column (length lead.now.numbers.now) (λ j. at numbers.old (start + j)) mid)
        × IsWideReduced (at lead.now.numbers.now) lead.now.column (length lead.now.numbers.now) mid mixed.new by) }
{
    let end = start + lead.numbers.len();
    let row = &mut numbers[start..end];
    free_slot(row, q);
    reduce_row(lead, row, mixed, live, live.len(), top)
}

/// A row with a number that is not narrow: its numbers are the products over `by`.
#[derive(Clone, Copy)]
pub(crate) struct WideRow {
    pub(crate) row: usize,
    pub(crate) by: u128,
}

// Clears the number at slot `q` of every row but the lead's. Returns the first row that has a number that is not narrow. `tops` has a bound on each row's
// numbers.
fn clear_column(
    numbers: &mut [i64],
    q: usize,
    lead: &Lead<'_>,
    mixed: &mut [i128],
    live: &[u32],
    tops: &mut [u64],
) -> Option<WideRow>
    requires long { length numbers.old ≡ length tops.old * length lead.now.numbers.now }
    requires spare { lead.now.column + 1 ≡ length lead.now.numbers.now }
    requires place { q < lead.now.column }
    requires live { let k = lead.now in let w = length k.numbers.now in
        (i : ℕ) → i < length tops.old → i ≢ k.row → IsLiveRow live.now q k.column w (cell numbers.old w i) (at k.numbers.now) }
    requires room { length mixed.old ≡ length lead.now.numbers.now }
    requires narrow { AreNarrowNumbers numbers.old }
    requires tops { let w = length lead.now.numbers.now in
        (i : ℕ) → i < length tops.old → i ≢ lead.now.row → IsAtMost w (cell numbers.old w i) (slice_index tops.old i) }
    requires lead { let w = length lead.now.numbers.now in (j : ℕ) → j < w → cell numbers.old w lead.now.row j ≡ at lead.now.numbers.now j }
    ensures cleared { let k = lead.now in let w = length k.numbers.now in MatchOption result
        (AreRowsCleared numbers.old numbers.new (length tops.old) w k.row q k.column (at k.numbers.now))
        (λ x. AreRowsClearedTo numbers.old mixed.new (length tops.old) w k.row q k.column (at k.numbers.now) x.row x.by) }
    ensures tops { IfNone result (AreTops (length tops.old) (length lead.now.numbers.now) numbers.new tops.new) }
{
    let width = lead.numbers.len();
    for i in 0..tops.len() {
        if i == lead.row {
            tops[i] = lead.most;
            continue;
        }
        match reduce_at(numbers, i * width, q, lead, mixed, live, tops[i]) {
            Ok(top) => tops[i] = top,
            Err(by) => return Some(WideRow { row: i, by }),
        }
    }
    None
}

/// Room for a pivot: the pivot row, one row's products and the places where the pivot row is not 0.
#[derive(Drop)]
pub(crate) struct Room {
    pub(crate) lead: Vec<i64>,
    pub(crate) mixed: Vec<i128>,
    pub(crate) filled: Vec<u32>,
}

// Makes the pivot on row `r` and place `q`. The row's number there becomes its own. Returns the first row that has a number that is not narrow.
fn clear(
    numbers: &mut [i64],
    tops: &mut [u64],
    room: &mut Room,
    live: &[u32],
    r: usize,
    q: usize,
) -> Option<WideRow>
    requires room { HasRoom (vec_len room.old.lead) room.old }
    requires small { vec_len room.old.lead ≤ 2 ^ 32 }
    requires long { length numbers.old ≡ length tops.old * vec_len room.old.lead }
    requires row { r < length tops.old }
    requires place { q + 1 < vec_len room.old.lead }
    requires narrow { AreNarrowNumbers numbers.old }
    requires tops { AreTops (length tops.old) (vec_len room.old.lead) numbers.old tops.old }
    requires nonzero { cell numbers.old (vec_len room.old.lead) r q ≢ pos 0 }
    requires live { IsLive live.now numbers.old (length tops.old) (vec_len room.old.lead) r q }
    ensures room { HasRoom (vec_len room.old.lead) room.new }
    ensures pivoted { let w = vec_len room.old.lead in MatchOption result
        (IsPivotDone numbers.old numbers.new (length tops.old) w r q)
        (λ x. IsPivotWide numbers.old room.new.mixed.items (length tops.old) w r q x.row x.by) }
    ensures tops { IfNone result (AreTops (length tops.old) (vec_len room.old.lead) numbers.new tops.new) }
{
    let start = r * room.lead.len();
    let count = take_lead(numbers, start, q, &mut room.lead, &mut room.filled);
    let pivot: &[i64] = &room.lead;
    let filled: &[u32] = &room.filled;
    let lead = Lead {
        row: r,
        numbers: pivot,
        most: greatest(pivot, filled, count),
        column: pivot.len() - 1,
        filled,
        count,
    };
    let wide = clear_column(numbers, q, &lead, &mut room.mixed, live, tops);
    numbers.swap(start, start + pivot.len() - 1);
    wide
}

/// A positive multiple of each row of a step, with room for a pivot.
#[derive(Drop)]
pub(crate) struct Table {
    /// For each row its own number, a number for each slot, and a spare place, which is 0 between pivots.
    pub(crate) numbers: Vec<i64>,
    /// For each column, and for the right side and the multiple, where it stands, as [`place_of`] has it.
    pub(crate) stands: Vec<u32>,
    /// For each row a bound on the size of its numbers.
    pub(crate) tops: Vec<u64>,
    pub(crate) room: Room,
    /// The places that have columns in a pivot.
    pub(crate) live: Vec<u32>,
}

impl Table {
    ghost use Rattle.gs_simplex.specs.Table.{grid_of, IsTable, IsHeld, IsTableAfter, IsWideAfter};

    // Makes the pivot that lists row `r` with column `c`. Returns the first number, by row and column, that is not narrow after it.
    pub(crate) fn list(&mut self, p: &Program, r: usize, c: usize) -> Option<WideCell>
        requires laid { IsHeld p.now self.old }
        requires table { IsTable p.now (grid_of p.now self.old) }
        requires row { r < p.now.rows }
        requires column { c < p.now.cols }
        requires nonzero { grid_of p.now self.old r c ≢ pos 0 }
        ensures laid { IfNone result (IsHeld p.now self.new) }
        ensures listed { MatchOption result (IsTableAfter p.now (grid_of p.now self.old) (grid_of p.now self.new) r c)
            (λ w. IsWideAfter p.now (grid_of p.now self.old) r c w.row w.column w.number) }
    {
        let rows = p.rows as usize;
        let q = place_of(rows, self.room.lead.len(), self.stands[c], r);
        make_own(&mut self.stands, r, c);
        let found = live_places(rows, self.room.lead.len(), &self.stands, &mut self.live);
        let live: &[u32] = &self.live[..found];
        match clear(
            &mut self.numbers,
            &mut self.tops,
            &mut self.room,
            live,
            r,
            q,
        ) {
            None => None,
            Some(wide) => Some(first_wide(rows, &self.stands, &self.room.mixed, wide.row, wide.by)),
        }
    }
}
