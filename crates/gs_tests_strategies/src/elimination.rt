//! Elimination in whole numbers. It serves guesses alone, which are checked: so numbers wrap, and nothing is proved of them.

use gs_frac::gcd;
use gs_simplex::Program;
use std::alloc::{AllocError, Global};

/// Returns for each row of a program a list of multipliers, 1 for the row itself and 0 for the others, and behind it the row's numbers.
pub(crate) fn start_rows(alloc: Global, p: &Program) -> Result<Vec<Vec<i64>>, AllocError> {
    let mut rows = Vec::new(alloc);
    for (place, numbers) in p.numbers.iter().enumerate() {
        let mut row = vec![in alloc; 0i64; p.numbers.len()]?;
        if let Some(own) = row.get_mut(place) {
            *own = 1;
        }
        row.extend_from_slice(numbers)?;
        rows.push(row)?;
    }
    Ok(rows)
}

// Makes the row 0 at a place: takes a multiple of the lead from a positive multiple of the row.
fn clear(row: &mut [i64], lead: &[i64], place: usize) {
    if place >= row.len() || lead.len() != row.len() {
        return;
    }
    let times = lead[place].wrapping_abs();
    let taken = row[place].wrapping_mul(lead[place].signum());
    for k in 0..row.len() {
        row[k] = row[k]
            .wrapping_mul(times)
            .wrapping_sub(lead[k].wrapping_mul(taken));
    }
}

/// Makes all rows but `r` 0 at a place.
pub(crate) fn eliminate(
    alloc: Global,
    rows: &mut [Vec<i64>],
    r: usize,
    place: usize,
) -> Result<(), AllocError> {
    if r >= rows.len() {
        return Ok(());
    }
    let lead = rows[r].clone()?;
    for k in 0..rows.len() {
        if k != r {
            clear(&mut rows[k], &lead, place);
        }
    }
    Ok(())
}

// Returns the number that a pair's row has in its column, and the row's right side.
fn own_and_side(rows: &[Vec<i64>], pair: (u32, u32)) -> Option<(i64, i64)> {
    let row = rows.get((pair.0 as usize).wrapping_sub(1))?;
    let own = row.get(rows.len().wrapping_add(pair.1 as usize).wrapping_sub(1))?;
    Some((*own, *row.last()?))
}

// Returns a common multiple of the numbers that the pairs' rows have in their columns.
fn common_multiple(rows: &[Vec<i64>], opening: &[(u32, u32)]) -> i64 {
    let mut multiple: u128 = 1;
    for &pair in opening {
        let own = own_and_side(rows, pair).map_or(1, |found| u128::from(found.0.unsigned_abs()));
        multiple = multiple.wrapping_mul(own.checked_div(gcd(multiple, own)).unwrap_or(1));
    }
    i64::try_from(multiple).unwrap_or(1)
}

/// Returns the value of each column over a common denominator, which comes first. The columns of no pair have the value 0.
pub(crate) fn values_of(
    alloc: Global,
    rows: &[Vec<i64>],
    opening: &[(u32, u32)],
    cols: usize,
) -> Result<(i64, Vec<i64>), AllocError> {
    let over = common_multiple(rows, opening);
    let mut values = vec![in alloc; 0i64; cols]?;
    for &pair in opening {
        let (own, side) = own_and_side(rows, pair).unwrap_or((1, 0));
        if let Some(value) = values.get_mut((pair.1 as usize).wrapping_sub(1)) {
            *value = side.wrapping_mul(over.checked_div(own).unwrap_or(0));
        }
    }
    Ok((over, values))
}
