//! The path: first the pairs of the opening, one by one, and then the pivots by Bland's rule.

ghost use Rattle.std.specs.Prelude.{◌≡◌, ◌≢◌, IfNone, MatchOption, MatchResult, ℕ, ◌+◌, ◌*◌, ◌<◌, ◌≤◌, ◌^◌, pos, length, slice_index_or};
ghost use Rattle.std.specs.Prelude.{unsigned_abs, Some};
ghost use Rattle.gs_simplex.specs.{Program.{IsShaped, IsPairList, IsOpened, IsTask}, Table.{grid_of, table_aim, stated, IsTable, IsHeld, IsTableOf}};
ghost use Rattle.gs_simplex.specs.{State.{IsStart, IsState, IsChoice, IsPivoted, IsWidePivot, IsEnd, IsTurnedState}, Trace.{IsBegun, CanFollow}};
ghost use Rattle.gs_simplex.specs.Answer.{IsSmallTable, IsPathError, IsPathFault};

use crate::MOST_NUMBERS;
use crate::answer::{PathError, PathFault, Turn};
use crate::choice::{entering, leaving, pair_at};
use crate::sparse::Program;
use crate::table::{Table, WideCell};
use std::alloc::Global;

/// What Bland's rule chooses.
#[derive(Clone, Copy)]
pub(crate) enum Choice {
    /// No column enters.
    Ends,
    /// This column enters, and no row bounds it.
    Unbounded(usize),
    /// The row at this place of the list leaves, and this column enters.
    Leaves(usize, usize),
}

// Returns the fault of a number that is not narrow.
fn wide_fault(p: &Program, step: u32, cell: WideCell) -> PathFault
    requires row { cell.row ≤ p.now.rows }
    requires column { cell.column ≤ p.now.cols + 1 }
    requires small_rows { p.now.rows < 2 ^ 31 }
    requires small_cols { p.now.cols < 2 ^ 31 }
    requires size { unsigned_abs cell.number ≤ 2 ^ 125 }
    ensures { result ≡ PathFault.Wide step (cell.row + 1) (cell.column + 1) (stated p.now cell.row cell.column cell.number) }
{
    let is_last = cell.row == p.rows as usize && cell.column == p.cols as usize;
    let number = if is_last { -cell.number } else { cell.number };
    PathFault::Wide {
        step,
        row: cell.row as u32 + 1,
        col: cell.column as u32 + 1,
        number,
    }
}

// Returns what Bland's rule chooses for this table.
fn choose(p: &Program, table: &Table, basis: &[(u32, u32)]) -> Choice
    requires shaped { IsShaped p.now }
    requires table { IsHeld p.now table.now }
    requires pairs { IsPairList p.now basis.now }
    requires rows { IsTableOf p.now basis.now (grid_of p.now table.now) }
    ensures { IsChoice p.now basis.now (grid_of p.now table.now) (table_aim p.now (grid_of p.now table.now)) result }
{
    let Some(column) = entering(p, table) else {
        return Choice::Ends;
    };
    match leaving(p, table, basis, column) {
        Some(place) => Choice::Leaves(place, column),
        None => Choice::Unbounded(column),
    }
}

/// The list and the rows after the opening.
#[derive(Drop)]
pub(crate) struct Position {
    pub(crate) basis: Vec<(u32, u32)>,
    pub(crate) table: Table,
}

// Lists the pairs of the opening one by one, or returns the fault of the first number that is not narrow.
pub(crate) fn open(p: &Program, opening: &[(u32, u32)], table: &mut Table) -> Result<(), PathFault>
    requires opened { IsOpened p.now opening.now }
    requires small { IsSmallTable p.now }
    requires start { IsStart p.now table.old }
    ensures { MatchResult result (λ _. IsState p.now opening.now (length opening.now) opening.now table.new)
        (λ why. (limit : ℕ) → IsPathFault p.now opening.now limit why) }
{
    for step in 0..opening.len() {
        let (row, column) = pair_at(p, opening, step);
        if let Some(cell) = table.list(p, row, column) {
            return Err(wide_fault(p, step as u32 + 1, cell));
        }
    }
    Ok(())
}

// Returns the position after the opening. The error is a table that is too large, a number that is not narrow, or out of memory.
pub(crate) fn begin(
    alloc: Global,
    p: &Program,
    opening: &[(u32, u32)],
) -> Result<Position, PathError>
    requires { IsOpened p.now opening.now }
    ensures { MatchResult result (IsBegun p.now opening.now) (λ e. (limit : ℕ) → IsPathError p.now opening.now limit e) }
{
    let count = (u64::from(p.rows) + 1) * (u64::from(p.cols) + 1);
    if count > MOST_NUMBERS {
        return Err(PathError::Fault(PathFault::TableTooLarge { count }));
    }
    let mut table = Table::start(alloc, p)?;
    let basis = Vec::from_slice(alloc, opening)?;
    open(p, opening, &mut table)?;
    Ok(Position { basis, table })
}

// Makes one pivot: the row at a place of the list leaves its column for `column`. Returns the first number that is not narrow after it.
fn pivot(
    p: &Program,
    basis: &mut [(u32, u32)],
    table: &mut Table,
    place: usize,
    column: usize,
) -> Option<WideCell>
    requires laid { IsHeld p.now table.old }
    requires table { IsTable p.now (grid_of p.now table.old) }
    requires pairs { IsPairList p.now basis.old }
    requires inside { place < length basis.old }
    requires column { column < p.now.cols }
    requires small_rows { p.now.rows < 2 ^ 31 }
    requires small_cols { p.now.cols < 2 ^ 31 }
    requires rises { (r c : ℕ) → slice_index_or basis.old place (0, 0) ≡ (r + 1, c + 1) →
        grid_of p.now table.old r column ≢ pos 0 }
    ensures laid { IfNone result (IsHeld p.now table.new) }
    ensures pivoted { MatchOption result (IsPivoted p.now basis.old basis.new (grid_of p.now table.old) (grid_of p.now table.new) place column)
        (λ w. IsWidePivot p.now basis.old (grid_of p.now table.old) place column w.row w.column w.number) }
{
    let (row, _) = pair_at(p, basis, place);
    if let Some(cell) = table.list(p, row, column) {
        return Some(cell);
    }
    basis[place] = (row as u32 + 1, column as u32 + 1);
    None
}

// Makes the next pivot after `made` pivots and returns it, or `None` if the path has ended. The error is what stops the path.
pub(crate) fn step(
    p: &Program,
    opening: &[(u32, u32)],
    limit: u32,
    made: u32,
    basis: &mut [(u32, u32)],
    table: &mut Table,
) -> Result<Option<Turn>, PathFault>
    requires task { IsTask p.now opening.now limit }
    requires within { made ≤ limit }
    requires small { IsSmallTable p.now }
    requires state { IsState p.now opening.now (length opening.now + made) basis.old table.old }
    ensures { MatchResult result
        (λ r. MatchOption r (IsEnd p.now opening.now limit made basis.new table.new)
        (λ t. IsTurnedState p.now opening.now limit made t basis.new table.new))
        (IsPathFault p.now opening.now limit) }
{
    match choose(p, table, basis) {
        Choice::Ends => Ok(None),
        Choice::Unbounded(column) => Err(PathFault::Unbounded {
            col: column as u32 + 1,
        }),
        Choice::Leaves(place, column) => {
            if made == limit {
                return Err(PathFault::Pivots);
            }
            let (_, leaving) = pair_at(p, basis, place);
            if let Some(cell) = pivot(p, basis, table, place, column) {
                return Err(wide_fault(p, p.rows + made + 1, cell));
            }
            Ok(Some(Turn {
                enter: column as u32 + 1,
                leave: leaving as u32 + 1,
            }))
        }
    }
}

// Makes pivots until the path ends, at most `limit`, and returns their number, or what stopped the path.
pub(crate) fn follow(
    p: &Program,
    opening: &[(u32, u32)],
    limit: u32,
    basis: &mut [(u32, u32)],
    table: &mut Table,
) -> Result<u32, PathFault>
    requires ready { CanFollow p.now opening.now limit basis.old table.old }
    ensures { MatchResult result (λ n. IsEnd p.now opening.now limit n basis.new table.new) (IsPathFault p.now opening.now limit) }
{
    for made in 0..limit + 1 {
        match step(p, opening, limit, made, basis, table)? {
            None => return Ok(made),
            Some(_) => {}
        }
    }
    unreachable!()
}
