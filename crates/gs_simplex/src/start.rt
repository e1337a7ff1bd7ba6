//! The table of the empty list: the program's rows, each divided by its greatest common divisor.

ghost use Rattle.std.specs.Prelude.{◌≡◌, ◌≢◌, ℕ, ◌+◌, ◌-◌, ◌*◌, ◌^◌, ◌<◌, ◌≤◌, ◌⊎◌, IsTrue, ℤ, pos, length, slice_index, OnOk, IfOk};
ghost use Rattle.gs_simplex.specs.{Program.{IsShaped}, Numbers.{at, cell, AreNarrowNumbers, IsDivided}, State.{raw, IsRawRow, AreOnly, AreRaw, IsStart}};
ghost use Rattle.gs_simplex.specs.Columns.{place_in, AreStands, IsNoted, AreSlots, IsSetRow};

use crate::columns::place_of;
use crate::row::{WIDE, divide_row, fill};
use crate::sparse::Program;
use crate::table::{Room, Table};
use std::alloc::{AllocError, Global};

// A column that is other than 0 in no row, and one that is in several.
const NONE: u32 = 0xFFFF_FFFE;

const SEVERAL: u32 = 0xFFFF_FFFF;

// Returns a program row with its right side and 0, or, after the last, the aim with 0 and 1.
fn full_row(alloc: Global, p: &Program, i: usize) -> Result<Vec<i64>, AllocError>
    requires shaped { IsShaped p.now }
    requires row { i ≤ p.now.rows }
    ensures { IfOk result (λ v. IsRawRow p.now i v.items) }
{
    let parts = &p.parts;
    if i < p.rows as usize {
        let mut row = parts.numbers[i].dense(alloc)?;
        row.push(0)?;
        return Ok(row);
    }
    let mut aim = parts.aim.dense(alloc)?;
    aim.push(0)?;
    aim.push(1)?;
    Ok(aim)
}

// Notes row `i` as the only one with a number other than 0, or several.
fn note_row(row: &[i64], i: u32, stands: &mut [u32])
    requires { length row.now ≡ length stands.old }
    ensures { (j : ℕ) → j < length row.now → IsNoted i (at row.now j) (slice_index stands.old j) (slice_index stands.new j) }
{
    for j in 0..row.len() {
        if row[j] != 0 {
            stands[j] = if stands[j] == NONE { i } else { SEVERAL };
        }
    }
}

// Notes for each column the only row in which it is not 0.
fn only_rows(alloc: Global, p: &Program) -> Result<Vec<u32>, AllocError>
    requires shaped { IsShaped p.now }
    requires small_rows { p.now.rows < 2 ^ 31 }
    ensures long { IfOk result (λ v. length v.items ≡ p.now.cols + 2) }
    ensures only { IfOk result (λ v. AreOnly p.now (p.now.rows + 1) (slice_index v.items)) }
{
    let mut stands = vec![in alloc; NONE; p.cols as usize + 2]?;
    for i in 0..p.rows + 1 {
        note_row(&full_row(alloc, p, i as usize)?, i, &mut stands);
    }
    Ok(stands)
}

// Returns for each row a column that is 0 in all others, if there is one.
fn own_columns(alloc: Global, rows: usize, stands: &[u32]) -> Result<Vec<u32>, AllocError>
    requires small_rows { rows < 2 ^ 31 }
    requires small { length stands.now < 2 ^ 32 }
    ensures { IfOk result (λ v. length v.items ≡ rows + 1) }
{
    let mut owns = vec![in alloc; 0u32; rows + 1]?;
    for j in 0..stands.len() {
        let row = stands[j] as usize;
        if row <= rows {
            owns[row] = j as u32;
        }
    }
    Ok(owns)
}

// Returns whether column `j` is some row's own.
fn is_own(rows: usize, owns: &[u32], row: u32, j: usize) -> bool
    requires { length owns.now ≡ rows + 1 }
    ensures { IsTrue result → (row ≤ rows) × (slice_index owns.now row ≡ j) }
{
    row as usize <= rows && owns[row as usize] as usize == j
}

// Gives a slot to each column that is no row's own. Returns the place after the last slot.
fn give_slots(rows: usize, owns: &[u32], stands: &mut [u32]) -> usize
    requires long { length owns.now ≡ rows + 1 }
    requires small { rows + length stands.old < 2 ^ 32 }
    ensures { AreSlots rows (length stands.old) owns.now (slice_index stands.old) (slice_index stands.new) result }
{
    let mut place: usize = 1;
    for j in 0..stands.len() {
        if is_own(rows, owns, stands[j], j) {
            continue;
        }
        stands[j] = (rows + place) as u32;
        place += 1;
    }
    place
}

// Writes the numbers of row `i` to their places.
fn set_places(part: &mut [i64], rows: usize, stands: &[u32], i: usize, row: &[i64])
    requires long { length row.now ≡ length stands.now }
    requires stands { AreStands rows (length part.old) (length stands.now) (slice_index stands.now) }
    requires zero { (k : ℕ) → k < length part.old → at part.old k ≡ pos 0 }
    requires apart { (j : ℕ) → j < length stands.now → place_in rows (length part.old) (slice_index stands.now j) i ≡ length part.old → at row.now j ≡ pos 0 }
    ensures { IsSetRow rows (length part.old) (length stands.now) (slice_index stands.now) i (at row.now) (at part.new) }
{
    for j in 0..row.len() {
        let place = place_of(rows, part.len(), stands[j], i);
        if place < part.len() {
            part[place] = row[j];
        }
    }
}

// Returns the program's rows and the aim's by places, not yet divided.
fn raw_numbers(
    alloc: Global,
    p: &Program,
    stands: &[u32],
    width: usize,
) -> Result<Vec<i64>, AllocError>
    requires shaped { IsShaped p.now }
    requires small { (p.now.rows + 1) * width ≤ 2 ^ 32 }
    requires long { length stands.now ≡ p.now.cols + 2 }
    requires stands { AreStands p.now.rows width (p.now.cols + 2) (slice_index stands.now) }
    requires apart { (i j : ℕ) → i ≤ p.now.rows → j < p.now.cols + 2 →
        place_in p.now.rows width (slice_index stands.now j) i ≡ width → raw p.now i j ≡ pos 0 }
    ensures { IfOk result (λ v. AreRaw p.now width (slice_index stands.now) v.items) }
{
    let rows = p.rows as usize;
    let mut numbers = Vec::with_capacity(alloc, (rows + 1) * width)?;
    for i in 0..rows + 1 {
        let row = full_row(alloc, p, i)?;
        let mut part = vec![in alloc; 0i64; width]?;
        set_places(&mut part, rows, stands, i, &row);
        numbers.extend_from_slice(&part)?;
    }
    Ok(numbers)
}

// Divides the row of this width that begins at `start` by its greatest common divisor. Lists in `filled` the places where it is not 0.
fn divide_at(numbers: &mut [i64], start: usize, width: usize, filled: &mut [u32])
    requires inside { start + width ≤ length numbers.old }
    requires some { 0 < width }
    requires small { width ≤ 2 ^ 32 }
    requires room { length filled.old ≡ width }
    requires narrow { AreNarrowNumbers numbers.old }
    ensures others { (k : ℕ) → (k < start) ⊎ (start + width ≤ k) → at numbers.new k ≡ at numbers.old k }
    ensures divided { IsDivided width (λ j. at numbers.old (start + j)) (λ j. at numbers.new (start + j)) }
    ensures narrow { AreNarrowNumbers numbers.new }
{
    let end = start + width;
    let row = &mut numbers[start..end];
    let count = fill(row, filled);
    divide_row(row, filled, count);
}

// Divides each of the first `count` rows, which have this width, by its greatest common divisor.
fn divide_rows(numbers: &mut [i64], count: usize, width: usize, filled: &mut [u32])
    requires long { (count + 1) * width ≡ length numbers.old }
    requires some { 0 < width }
    requires small { width ≤ 2 ^ 32 }
    requires room { length filled.old ≡ width }
    requires narrow { AreNarrowNumbers numbers.old }
    ensures divided { (i : ℕ) → i < count → IsDivided width (cell numbers.old width i) (cell numbers.new width i) }
    ensures last { (j : ℕ) → j < width → cell numbers.new width count j ≡ cell numbers.old width count j }
    ensures narrow { AreNarrowNumbers numbers.new }
{
    for i in 0..count {
        divide_at(numbers, i * width, width, filled);
    }
}

impl Table {
    // Returns the table of the empty list.
    pub(crate) fn start(alloc: Global, p: &Program) -> Result<Table, AllocError>
        requires small_rows { p.now.rows < 2 ^ 31 }
        requires small_cols { p.now.cols < 2 ^ 31 }
        requires shaped { IsShaped p.now }
        requires small { (p.now.rows + 1) * (p.now.cols + 1) ≤ 1048576 }
        ensures { IfOk result (IsStart p.now) }
    {
        let rows = p.rows as usize;
        let mut stands = only_rows(alloc, p)?;
        let width = give_slots(rows, &own_columns(alloc, rows, &stands)?, &mut stands) + 1;
        let mut room = Room {
            lead: vec![in alloc; 0i64; width]?,
            mixed: vec![in alloc; 0i128; width]?,
            filled: vec![in alloc; 0u32; width]?,
        };
        let mut numbers = raw_numbers(alloc, p, &stands, width)?;
        divide_rows(&mut numbers, rows, width, &mut room.filled);
        let live = vec![in alloc; 0u32; p.cols as usize + 4]?;
        // every number is narrow, and so below this bound
        let tops = vec![in alloc; WIDE as u64; rows + 1]?;
        Ok(Table {
            numbers,
            stands,
            tops,
            room,
            live,
        })
    }
}
