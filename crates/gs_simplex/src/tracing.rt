//! The pivots of a path, its bases, and the aim's value.

ghost use Rattle.std.specs.Prelude.{MatchResult, IfOk, OnOk, ◌≡◌, ℕ, ◌+◌, ◌<◌, ◌^◌, [], ◌∷◌, ◌++◌, ℤ, pos, ◌<ℤ◌, length, slice_index_or, slice_set};
ghost use Rattle.gs_simplex.specs.{Program.{IsPairList, IsOpened}, Table.{grid_of, table_aim, IsHeld}, State.{IsEnd}, Answer.{IsPathError}, Values.{IsRowIndex}};
ghost use Rattle.gs_simplex.specs.Trace.{IsAimValue, IsBasis, IsReachedBy, AreTurns, AreBases, CanFollow};

use crate::answer::{PathError, Turn};
use crate::best::{listed_rows, negated_share};
use crate::path::step;
use crate::sparse::Program;
use crate::table::Table;
use gs_frac::Fraction;
use std::alloc::{AllocError, Global};

// Returns the aim's value when the unlisted columns are 0.
pub(crate) fn aim_value(p: &Program, table: &Table) -> Fraction
    requires table { IsHeld p.now table.now }
    requires multiple { pos 0 <ℤ table_aim p.now (grid_of p.now table.now) (p.now.cols + 1) }
    ensures { IsAimValue p.now (table_aim p.now (grid_of p.now table.now)) result }
{
    negated_share(p, table, p.cols as usize)
}

// Returns the columns that are listed with some row, counted from 1, in rising order.
fn columns_of(
    alloc: Global,
    p: &Program,
    basis: &[(u32, u32)],
    rows: &[u32],
) -> Result<Vec<u32>, AllocError>
    requires small_cols { p.now.cols < 2 ^ 31 }
    requires pairs { IsPairList p.now basis.now }
    requires index { IsRowIndex p.now basis.now rows.now }
    ensures { IfOk result (λ v. IsBasis basis.now v.items) }
{
    let mut columns = Vec::with_capacity(alloc, basis.len())?;
    for j in 0..rows.len() {
        if rows[j] == 0 {
            continue;
        }
        columns.push(j as u32 + 1)?;
    }
    Ok(columns)
}

// Returns the columns of a list, counted from 1, in rising order.
fn listed_columns(alloc: Global, p: &Program, basis: &[(u32, u32)]) -> Result<Vec<u32>, AllocError>
    requires small_rows { p.now.rows < 2 ^ 31 }
    requires small_cols { p.now.cols < 2 ^ 31 }
    requires pairs { IsPairList p.now basis.now }
    ensures { IfOk result (λ v. IsBasis basis.now v.items) }
{
    let rows = listed_rows(alloc, p, basis)?;
    columns_of(alloc, p, basis, &rows)
}

// Replaces the column that leaves by the one that enters.
fn replace(basis: &mut [(u32, u32)], turn: Turn)
    requires { (k h : ℕ) → k < length basis.old → h < length basis.old → (slice_index_or basis.old k (0, 0)).1 ≡ (slice_index_or basis.old h (0, 0)).1 → k ≡ h }
    ensures { (q : ℕ) → q < length basis.old → (slice_index_or basis.old q (0, 0)).1 ≡ turn.leave
        → basis.new ≡ slice_set basis.old q ((slice_index_or basis.old q (0, 0)).0, turn.enter) }
{
    for place in 0..basis.len() {
        let (row, column) = basis[place];
        if column == turn.leave {
            basis[place] = (row, turn.enter);
            return;
        }
    }
}

// Returns the listed columns after the opening and after each of these pivots.
pub(crate) fn bases_of(
    alloc: Global,
    p: &Program,
    opening: &[(u32, u32)],
    turns: &[Turn],
) -> Result<Vec<Vec<u32>>, AllocError>
    requires opened { IsOpened p.now opening.now }
    requires path { IsReachedBy p.now opening.now 0 opening.now }
    requires turns { AreTurns p.now opening.now turns.now }
    ensures { IfOk result (λ v. AreBases p.now opening.now (length turns.now + 1) v.items) }
{
    let mut basis = Vec::from_slice(alloc, opening)?;
    let mut bases = Vec::new(alloc);
    bases.push(listed_columns(alloc, p, &basis)?)?;
    for place in 0..turns.len() {
        replace(&mut basis, turns[place]);
        bases.push(listed_columns(alloc, p, &basis)?)?;
    }
    Ok(bases)
}

// Adds a pivot to those before it.
fn note(turns: &mut Vec<Turn>, turn: Turn) -> Result<(), AllocError>
    ensures { OnOk result (turns.new.items ≡ turns.old.items ++ turn ∷ []) }
{
    turns.push(turn)?;
    Ok(())
}

// Makes pivots until the path ends, at most `limit`, and notes each. The error is what stops the path.
pub(crate) fn follow_noting(
    p: &Program,
    opening: &[(u32, u32)],
    limit: u32,
    basis: &mut [(u32, u32)],
    table: &mut Table,
    turns: &mut Vec<Turn>,
) -> Result<(), PathError>
    requires ready { CanFollow p.now opening.now limit basis.old table.old }
    requires none { turns.old.items ≡ [] }
    ensures { MatchResult result (λ _. IsEnd p.now opening.now limit (length turns.new.items) basis.new table.new × AreTurns p.now opening.now turns.new.items)
        (IsPathError p.now opening.now limit) }
{
    for made in 0..limit + 1 {
        match step(p, opening, limit, made, basis, table)? {
            None => return Ok(()),
            Some(turn) => note(turns, turn)?,
        }
    }
    unreachable!()
}
