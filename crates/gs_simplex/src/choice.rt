//! Bland's choice: the column that enters and the row that leaves.

ghost use Rattle.std.specs.Prelude.{◌≡◌, ◌+◌, ◌-◌, ◌*◌, ◌<◌, ◌≤◌, ◌^◌, ◌↔◌, IsTrue, ℤ, ◌*ℤ◌, unsigned_abs};
ghost use Rattle.std.specs.Prelude.{length, slice_index_or, MatchBool};
ghost use Rattle.std.specs.Option.{ForSome};
ghost use Rattle.gs_simplex.specs.{Rows.{IsNarrow}, Program.{IsShaped, IsPairList, IsFree}, Table.{grid_of, IsHeld}};
ghost use Rattle.gs_simplex.specs.Choice.{IsEntering, Before, NotAfter, IsNarrowRatio, IsRatioAt, IsBetter, IsLeaving};

use crate::sparse::Program;
use crate::table::Table;

/// A row that may leave: its place in the list, its listed column, counted from 0, its right side, and its number in the entering column.
#[derive(Clone, Copy)]
pub(crate) struct Ratio {
    pub(crate) place: usize,
    pub(crate) column: usize,
    pub(crate) side: i64,
    pub(crate) over: i64,
}

// Returns the product of two narrow numbers.
fn product(x: i64, y: i64) -> i128
    requires narrow { IsNarrow x }
    requires narrow_other { IsNarrow y }
    ensures value { result ≡ x *ℤ y }
    ensures size { unsigned_abs result ≤ 2 ^ 124 }
{
    i128::from(x) * i128::from(y)
}

// Returns whether the ratio of `a` is below that of `b`, or equal to it with a column of lower index.
fn is_before(a: &Ratio, b: &Ratio) -> bool
    requires narrow_side { IsNarrow a.now.side }
    requires narrow_over { IsNarrow a.now.over }
    requires narrow_other { IsNarrow b.now.side }
    requires narrow_other_over { IsNarrow b.now.over }
    ensures { MatchBool result (Before a.now b.now) (NotAfter b.now a.now) }
{
    let left = product(a.side, b.over);
    let right = product(b.side, a.over);
    left < right || (left == right && a.column < b.column)
}

// Returns the number in row `i` and column `j` of the table.
pub(crate) fn number_at(p: &Program, table: &Table, i: usize, j: usize) -> i64
    requires table { IsHeld p.now table.now }
    requires row { i < p.now.rows + 1 }
    requires column { j < p.now.cols + 2 }
    ensures value { result ≡ grid_of p.now table.now i j }
    ensures narrow { IsNarrow result }
{
    let rows = p.rows as usize;
    let start = i * table.room.lead.len();
    let stand = table.stands[j] as usize;
    if stand > rows {
        return table.numbers[start + (stand - rows)];
    }
    if stand == i {
        return table.numbers[start];
    }
    0
}

// Returns the first column, counted from 0, whose number in the aim's row is above 0.
pub(crate) fn entering(p: &Program, table: &Table) -> Option<usize>
    requires { IsHeld p.now table.now }
    ensures { IsEntering (grid_of p.now table.now p.now.rows) p.now.cols result }
{
    for j in 0..p.cols as usize {
        if number_at(p, table, p.rows as usize, j) > 0 {
            return Some(j);
        }
    }
    None
}

// Returns whether column `j` may be below 0.
pub(crate) fn is_free(p: &Program, j: usize) -> bool
    requires shaped { IsShaped p.now }
    requires column { j < p.now.cols }
    ensures { IsTrue result ↔ IsFree p.now j }
{
    let parts = &p.parts;
    parts.free[j]
}

// Returns the row and the column at a place of the list, both counted from 0.
pub(crate) fn pair_at(p: &Program, basis: &[(u32, u32)], place: usize) -> (usize, usize)
    requires pairs { IsPairList p.now basis.now }
    requires inside { place < length basis.now }
    ensures pair { slice_index_or basis.now place (0, 0) ≡ (result.0 + 1, result.1 + 1) }
    ensures row { result.0 < p.now.rows }
    ensures column { result.1 < p.now.cols }
{
    let (row, column) = basis[place];
    (row as usize - 1, column as usize - 1)
}

// Returns the ratio of the row at a place of the list when column `e` enters, if that row may leave.
fn ratio_at(
    p: &Program,
    table: &Table,
    basis: &[(u32, u32)],
    e: usize,
    place: usize,
) -> Option<Ratio>
    requires shaped { IsShaped p.now }
    requires table { IsHeld p.now table.now }
    requires pairs { IsPairList p.now basis.now }
    requires column { e < p.now.cols }
    requires inside { place < length basis.now }
    ensures { IsRatioAt p.now basis.now (grid_of p.now table.now) e place result }
{
    let (row, column) = pair_at(p, basis, place);
    let over = number_at(p, table, row, e);
    if over <= 0 {
        return None;
    }
    if is_free(p, column) {
        return None;
    }
    let side = number_at(p, table, row, p.cols as usize);
    Some(Ratio {
        place,
        column,
        side,
        over,
    })
}

// Returns the one of two rows that leaves first.
fn better(best: Option<Ratio>, next: Option<Ratio>) -> Option<Ratio>
    requires best { ForSome best IsNarrowRatio }
    requires next { ForSome next IsNarrowRatio }
    ensures { IsBetter best next result }
{
    match (best, next) {
        (Some(b), Some(n)) => Some(if is_before(&n, &b) { n } else { b }),
        (Some(b), None) => Some(b),
        (None, n) => n,
    }
}

// Returns the place in the list of the row that leaves when column `e` enters.
pub(crate) fn leaving(p: &Program, table: &Table, basis: &[(u32, u32)], e: usize) -> Option<usize>
    requires shaped { IsShaped p.now }
    requires table { IsHeld p.now table.now }
    requires pairs { IsPairList p.now basis.now }
    requires column { e < p.now.cols }
    ensures { IsLeaving p.now basis.now (grid_of p.now table.now) e result }
{
    let mut best: Option<Ratio> = None;
    for place in 0..basis.len() {
        best = better(best, ratio_at(p, table, basis, e, place));
    }
    Some(best?.place)
}
