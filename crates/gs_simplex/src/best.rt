//! Values and prices at the last basis; a price is a reduced cost.

ghost use Rattle.std.specs.Prelude.{◌≡◌, ℕ, ◌+◌, ◌-◌, ◌*◌, ◌^◌, ◌<◌, ℤ, pos, neg_ℤ, ◌*ℤ◌, ◌<ℤ◌, length, slice_index, IfOk};
ghost use Rattle.std.specs.List.{HoldsAt};
ghost use Rattle.gs_simplex.specs.{Program.{IsPairList, IsListed, ColListed}, Table.{grid_of, table_aim, IsHeld, IsTableOf}};
ghost use Rattle.gs_simplex.specs.{Values.{IsRowIndex, IsColumnValue, CanValue}, Answer.{IsBestTable}};

use crate::answer::Best;
use crate::choice::{number_at, pair_at};
use crate::sparse::Program;
use crate::table::Table;
use gs_frac::Fraction;
use std::alloc::{AllocError, Global};

// Writes the number of its row, from 1, for each listed column.
pub(crate) fn mark_rows(p: &Program, basis: &[(u32, u32)], rows: &mut [u32])
    requires small_rows { p.now.rows < 2 ^ 31 }
    requires pairs { IsPairList p.now basis.now }
    requires long { length rows.old ≡ p.now.cols }
    ensures listed { (i j : ℕ) → IsListed basis.now i j → slice_index rows.new j ≡ i + 1 }
    ensures unlisted { (j : ℕ) → (ColListed basis.now j → ⊥) → slice_index rows.new j ≡ slice_index rows.old j }
{
    for place in 0..basis.len() {
        let (row, column) = pair_at(p, basis, place);
        rows[column] = row as u32 + 1;
    }
}

// Returns for each column the row that it is listed with, counted from 1, or 0 if it is unlisted.
pub(crate) fn listed_rows(
    alloc: Global,
    p: &Program,
    basis: &[(u32, u32)],
) -> Result<Vec<u32>, AllocError>
    requires small_rows { p.now.rows < 2 ^ 31 }
    requires pairs { IsPairList p.now basis.now }
    ensures { IfOk result (λ v. IsRowIndex p.now basis.now v.items) }
{
    let mut rows = vec![in alloc; 0u32; p.cols as usize]?;
    mark_rows(p, basis, &mut rows);
    Ok(rows)
}

// Returns the value of column `j`. `row` is the row that it is listed with, counted from 1, or 0 if it is unlisted.
fn value_at(p: &Program, table: &Table, row: u32, j: usize) -> Fraction
    requires table { IsHeld p.now table.now }
    requires column { j < p.now.cols }
    requires row { CanValue p.now (grid_of p.now table.now) row j }
    ensures { IsColumnValue p.now (grid_of p.now table.now) row j result }
{
    if row == 0 {
        return Fraction::new(0, 1);
    }
    let side = number_at(p, table, row as usize - 1, p.cols as usize);
    let own = number_at(p, table, row as usize - 1, j);
    Fraction::new(i128::from(side), i128::from(own))
}

// Returns the value of each column.
fn values(
    alloc: Global,
    p: &Program,
    table: &Table,
    rows: &[u32],
) -> Result<Vec<Fraction>, AllocError>
    requires table { IsHeld p.now table.now }
    requires long { length rows.now ≡ p.now.cols }
    requires rows { (j : ℕ) → j < p.now.cols → CanValue p.now (grid_of p.now table.now) (slice_index rows.now j) j }
    ensures long { IfOk result (λ v. length v.items ≡ p.now.cols) }
    ensures values { IfOk result
        (λ v. (j : ℕ) → j < p.now.cols → HoldsAt (IsColumnValue p.now (grid_of p.now table.now) (slice_index rows.now j) j) v.items j) }
{
    let mut value = Vec::with_capacity(alloc, rows.len())?;
    for j in 0..rows.len() {
        value.push(value_at(p, table, rows[j], j))?;
    }
    Ok(value)
}

// Returns the number of the aim's row in column `j`, negated, over the row's multiple.
pub(crate) fn negated_share(p: &Program, table: &Table, j: usize) -> Fraction
    requires table { IsHeld p.now table.now }
    requires column { j < p.now.cols + 1 }
    requires multiple { pos 0 <ℤ table_aim p.now (grid_of p.now table.now) (p.now.cols + 1) }
    ensures { result.num *ℤ table_aim p.now (grid_of p.now table.now) (p.now.cols + 1) ≡ neg_ℤ (grid_of p.now table.now p.now.rows j) *ℤ result.den }
{
    let number = number_at(p, table, p.rows as usize, j);
    let multiple = number_at(p, table, p.rows as usize, p.cols as usize + 1);
    Fraction::new(-i128::from(number), i128::from(multiple))
}

// Returns the price of column `j`.
fn price_at(p: &Program, table: &Table, j: usize) -> Fraction
    requires table { IsHeld p.now table.now }
    requires column { j < p.now.cols }
    requires multiple { pos 0 <ℤ table_aim p.now (grid_of p.now table.now) (p.now.cols + 1) }
    ensures { result.num *ℤ table_aim p.now (grid_of p.now table.now) (p.now.cols + 1) ≡ neg_ℤ (table_aim p.now (grid_of p.now table.now) j) *ℤ result.den }
{
    negated_share(p, table, j)
}

// Returns the price of each column.
fn prices(alloc: Global, p: &Program, table: &Table) -> Result<Vec<Fraction>, AllocError>
    requires table { IsHeld p.now table.now }
    requires multiple { pos 0 <ℤ table_aim p.now (grid_of p.now table.now) (p.now.cols + 1) }
    ensures long { IfOk result (λ v. length v.items ≡ p.now.cols) }
    ensures prices { IfOk result
        (λ v. (j : ℕ) → j < p.now.cols →
        HoldsAt
        (λ f. f.num *ℤ table_aim p.now (grid_of p.now table.now) (p.now.cols + 1) ≡ neg_ℤ (table_aim p.now (grid_of p.now table.now) j) *ℤ f.den)
        v.items j) }
{
    let mut price = Vec::with_capacity(alloc, p.cols as usize)?;
    for j in 0..p.cols as usize {
        price.push(price_at(p, table, j))?;
    }
    Ok(price)
}

/// Returns the last basis with its values and prices.
pub(crate) fn best(
    alloc: Global,
    p: &Program,
    table: &Table,
    basis: Vec<(u32, u32)>,
    pivots: u32,
) -> Result<Best, AllocError>
    requires small_rows { p.now.rows < 2 ^ 31 }
    requires table { IsHeld p.now table.now }
    requires pairs { IsPairList p.now basis.items }
    requires rows { IsTableOf p.now basis.items (grid_of p.now table.now) }
    ensures { IfOk result (IsBestTable p.now basis.items pivots) }
{
    let rows = listed_rows(alloc, p, &basis)?;
    let value = values(alloc, p, table, &rows)?;
    let price = prices(alloc, p, table)?;
    Ok(Best {
        pivots,
        basis,
        value,
        price,
    })
}
