//! Whether a list is an opening of a linear program. Multiples of the program's rows show that its pairs can be taken in turn.

ghost use Rattle.std.specs.Prelude.{◌≡◌, ◌≢◌, ℕ, ◌+◌, ◌<◌, ◌≤◌, ◌^◌, ◌*ℤ◌, ◌≤ℤ◌, IsTrue, IfOk, [], pos, length, map, slice_index_or};
ghost use Rattle.std.specs.{Vec.{vec_items}, Option.{ForSome}};
ghost use Rattle.gs_simplex.specs.{Program.{number, IsShaped, IsTakenInTurn, IsOpened, IsOpening}, Numbers.{at, AreNarrowNumbers}, Sums.{sum_to}};
ghost use Rattle.gs_tests_strategies.specs.Openings.{IsWideRow, IsNewPair, IsTakenAt, combined, HasRowBefore, IsPlaced, IsFeasibleOver};

use crate::elimination::{eliminate, start_rows, values_of};
use gs_simplex::Program;
use std::alloc::{AllocError, Global};

// Returns whether each number is below 2^62 in size.
fn all_narrow(numbers: &[i64]) -> bool
    ensures { IsTrue result → AreNarrowNumbers numbers.now }
{
    for number in numbers {
        if number.unsigned_abs() >= 0x4000_0000_0000_0000 {
            return false;
        }
    }
    true
}

// Returns whether each row has this width and numbers below 2^62 in size.
fn all_rows(rows: &[Vec<i64>], width: usize) -> bool
    ensures { IsTrue result → (i : ℕ) → i < length rows.now → IsWideRow width (slice_index_or (map vec_items rows.now) i []) }
{
    for row in rows {
        if row.len() != width || !all_narrow(row) {
            return false;
        }
    }
    true
}

// Returns whether all lengths agree with the numbers of rows and columns, and each number is below 2^62 in size.
fn is_shaped(p: &Program) -> bool
    ensures { IsTrue result → IsShaped p.now }
{
    p.numbers.len() == p.rows as usize
        && p.free.len() == p.cols as usize
        && p.aim.len() == p.cols as usize
        && all_narrow(&p.aim)
        && all_rows(&p.numbers, p.cols as usize + 1)
}

// Returns whether no earlier pair has the row or the column of the pair at `step`.
fn is_new(opening: &[(u32, u32)], step: usize) -> bool
    requires { step < length opening.now }
    ensures { IsTrue result → IsNewPair opening.now step }
{
    for before in 0..step {
        if opening[before].0 == opening[step].0 || opening[before].1 == opening[step].1 {
            return false;
        }
    }
    true
}

// Returns whether one of the first `count` pairs has this row.
fn names_row(opening: &[(u32, u32)], count: usize, row: u32) -> bool
    requires { count ≤ length opening.now }
    ensures { IsTrue result → (k : ℕ) × (k < count) × ((slice_index_or opening.now k (0, 0)).0 ≡ row) }
{
    for place in 0..count {
        if opening[place].0 == row {
            return true;
        }
    }
    false
}

// Returns the number of the program in this row and column.
fn number_in(p: &Program, row: usize, column: usize) -> i64
    requires shaped { IsShaped p.now }
    requires row { row < p.now.rows }
    requires column { column ≤ p.now.cols }
    ensures { result ≡ number p.now row column }
{
    let numbers = &p.numbers[row];
    numbers[column]
}

// Returns the number in a column of the sum of these multiples of the program's rows, if it is small.
fn sum_in(p: &Program, multipliers: &[i64], column: usize) -> Option<i64>
    requires shaped { IsShaped p.now }
    requires long { p.now.rows ≤ length multipliers.now }
    requires column { column ≤ p.now.cols }
    ensures { ForSome result (λ s. s ≡ combined p.now multipliers.now column) }
{
    let mut total: i64 = 0;
    for row in 0..p.rows as usize {
        let product = multipliers[row].checked_mul(number_in(p, row, column))?;
        total = total.checked_add(product)?;
    }
    Some(total)
}

// Returns whether only the row `own`, from 0, and the rows of the pairs before `step` have multipliers other than 0.
fn are_taken(opening: &[(u32, u32)], step: usize, multipliers: &[i64], own: u32, rows: u32) -> bool
    requires long { rows ≤ length multipliers.now }
    requires step { step ≤ length opening.now }
    ensures { IsTrue result → (i : ℕ) → i < rows → i ≢ own → (HasRowBefore opening.now step i → ⊥) → at multipliers.now i ≡ pos 0 }
{
    for row in 0..rows {
        if multipliers[row as usize] != 0 && row != own && !names_row(opening, step, row + 1) {
            return false;
        }
    }
    true
}

// Returns whether the sum of these multiples of the program's rows is 0 in the column of each pair before `step`.
fn are_cleared(p: &Program, opening: &[(u32, u32)], step: usize, multipliers: &[i64]) -> bool
    requires shaped { IsShaped p.now }
    requires long { p.now.rows ≤ length multipliers.now }
    requires step { step ≤ length opening.now }
    ensures { IsTrue result → (k j : ℕ) → k < step → (slice_index_or opening.now k (0, 0)).1 ≡ j + 1 → combined p.now multipliers.now j ≡ pos 0 }
{
    for place in 0..step {
        let column = opening[place].1;
        if column == 0
            || column > p.cols
            || sum_in(p, multipliers, column as usize - 1) != Some(0)
        {
            return false;
        }
    }
    true
}

// Returns whether a pair names a row and a column of the program.
fn in_range(p: &Program, pair: (u32, u32)) -> bool
    ensures { IsTrue result → (0 < pair.0) × (pair.0 ≤ p.now.rows) × (0 < pair.1) × (pair.1 ≤ p.now.cols) }
{
    0 < pair.0 && pair.0 <= p.rows && 0 < pair.1 && pair.1 <= p.cols
}

// Returns whether these multipliers show that the pair at `step` can be taken after those before it.
fn can_take(p: &Program, opening: &[(u32, u32)], step: usize, multipliers: &[i64]) -> bool
    requires shaped { IsShaped p.now }
    requires long { p.now.rows ≤ length multipliers.now }
    requires step { step < length opening.now }
    requires before { (k : ℕ) → k < step → IsTakenAt p.now opening.now k }
    ensures { IsTrue result → IsTakenAt p.now opening.now step }
{
    let (row, column) = opening[step];
    if !in_range(p, (row, column)) || !is_new(opening, step) {
        return false;
    }
    let own = row - 1;
    let Some(number) = sum_in(p, multipliers, column as usize - 1) else {
        return false;
    };
    if number == 0 || multipliers[own as usize] <= 0 {
        return false;
    }
    if !are_taken(opening, step, multipliers, own, p.rows) {
        return false;
    }
    are_cleared(p, opening, step, multipliers)
}

// Returns whether the pairs can be taken in turn, and makes the rows those of the list.
fn take_all(
    alloc: Global,
    p: &Program,
    opening: &[(u32, u32)],
    rows: &mut [Vec<i64>],
) -> Result<bool, AllocError>
    requires shaped { IsShaped p.now }
    ensures { IfOk result (λ b. IsTrue b → IsTakenInTurn p.now opening.now) }
{
    for step in 0..opening.len() {
        let (row, column) = opening[step];
        let r = (row as usize).wrapping_sub(1);
        let Some(multipliers) = rows.get(r) else {
            return Ok(false);
        };
        if multipliers.len() < p.rows as usize || !can_take(p, opening, step, multipliers) {
            return Ok(false);
        }
        eliminate(
            alloc,
            rows,
            r,
            (p.rows as usize)
                .wrapping_add(column as usize)
                .wrapping_sub(1),
        )?;
    }
    Ok(true)
}

// Returns whether a pair has this column.
fn names_column(opening: &[(u32, u32)], column: u32) -> bool
    ensures { IsTrue result → (k : ℕ) × (k < length opening.now) × ((slice_index_or opening.now k (0, 0)).1 ≡ column) }
{
    for place in 0..opening.len() {
        if opening[place].1 == column {
            return true;
        }
    }
    false
}

// Returns whether each row is in a pair.
fn names_all_rows(p: &Program, opening: &[(u32, u32)]) -> bool
    requires small_rows { p.now.rows < 2 ^ 31 }
    ensures { IsTrue result → (i : ℕ) → i < p.now.rows → HasRowBefore opening.now (length opening.now) i }
{
    for row in 0..p.rows {
        if !names_row(opening, opening.len(), row + 1) {
            return false;
        }
    }
    true
}

// Returns whether the numbers times the values give `over` times the right side, in whole numbers that are small.
fn holds(numbers: &[i64], over: i64, values: &[i64]) -> bool
    requires { length numbers.now ≡ length values.now + 1 }
    ensures { IsTrue result → sum_to (length values.now) (λ j. at numbers.now j *ℤ at values.now j) ≡ over *ℤ at numbers.now (length values.now) }
{
    let mut total: i64 = 0;
    for place in 0..values.len() {
        let Some(next) = numbers[place].checked_mul(values[place]) else {
            return false;
        };
        let Some(more) = total.checked_add(next) else {
            return false;
        };
        total = more;
    }
    over.checked_mul(numbers[values.len()]) == Some(total)
}

// Returns whether the values over `over` satisfy the program's rows.
fn solves(p: &Program, over: i64, values: &[i64]) -> bool
    requires shaped { IsShaped p.now }
    requires long { length values.now ≡ p.now.cols }
    ensures { IsTrue result → (i : ℕ) → i < p.now.rows → sum_to p.now.cols (λ j. number p.now i j *ℤ at values.now j) ≡ over *ℤ number p.now i p.now.cols }
{
    for place in 0..p.rows as usize {
        if !holds(&p.numbers[place], over, values) {
            return false;
        }
    }
    true
}

// Returns whether a free column is in a pair, another one is at least 0, and a column in no pair is 0.
fn is_placed(is_free: bool, is_named: bool, value: i64) -> bool
    ensures free { IsTrue result → IsTrue is_free → IsTrue is_named }
    ensures least { IsTrue result → ¬ IsTrue is_free → pos 0 ≤ℤ value }
    ensures unnamed { IsTrue result → ¬ IsTrue is_named → value ≡ pos 0 }
{
    if is_free {
        is_named
    } else {
        value == 0 || (is_named && value > 0)
    }
}

// Returns whether each free column is in a pair, each other column is at least 0 at these values, and each column in no pair is 0.
fn are_placed(p: &Program, opening: &[(u32, u32)], values: &[i64]) -> bool
    requires small_cols { p.now.cols < 2 ^ 31 }
    requires shaped { IsShaped p.now }
    requires long { length values.now ≡ p.now.cols }
    ensures { IsTrue result → (j : ℕ) → j < p.now.cols → IsPlaced p.now opening.now values.now j }
{
    for column in 0..p.cols {
        let j = column as usize;
        if !is_placed(p.free[j], names_column(opening, column + 1), values[j]) {
            return false;
        }
    }
    true
}

// Returns whether the values over `over` are a feasible solution in which the columns in no pair are 0.
fn is_feasible(p: &Program, opening: &[(u32, u32)], over: i64, values: &[i64]) -> bool
    requires small_cols { p.now.cols < 2 ^ 31 }
    requires shaped { IsShaped p.now }
    ensures { IsTrue result → IsFeasibleOver p.now opening.now over values.now }
{
    over > 0
        && values.len() == p.cols as usize
        && are_placed(p, opening, values)
        && solves(p, over, values)
}

// Returns whether the list is an opening of the program.
fn opens(alloc: Global, p: &Program, opening: &[(u32, u32)]) -> Result<bool, AllocError>
    requires small_rows { p.now.rows < 2 ^ 31 }
    requires small_cols { p.now.cols < 2 ^ 31 }
    requires shaped { IsShaped p.now }
    ensures { IfOk result (λ b. IsTrue b → IsOpening p.now opening.now) }
{
    if opening.len() != p.rows as usize || !names_all_rows(p, opening) {
        return Ok(false);
    }
    let mut rows = start_rows(alloc, p)?;
    if !take_all(alloc, p, opening, &mut rows)? {
        return Ok(false);
    }
    let (over, values) = values_of(alloc, &rows, opening, p.cols as usize)?;
    Ok(is_feasible(p, opening, over, &values))
}

/// Returns whether it is shown that `run` may be called for the program and the list. It is where they are small.
pub(crate) fn meets(alloc: Global, p: &Program, opening: &[(u32, u32)]) -> Result<bool, AllocError>
    ensures { IfOk result (λ b. IsTrue b → IsOpened p.now opening.now) }
{
    if p.rows > 1000 || p.cols > 1000 || !is_shaped(p) {
        return Ok(false);
    }
    opens(alloc, p, opening)
}
