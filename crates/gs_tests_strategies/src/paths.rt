//! Linear programs whose paths are known: how they end, what is shown of them, and Kuhn's game from the bases of its path.

ghost use Rattle.std.specs.Prelude.{◌<◌};

use crate::leduc::pairs_in;
use crate::openings::meets;
use crate::path_cases::{CASES, Case, KUHN, KUHN_END, KUHN_PATH, TRACES};
use crate::stops::error_text;
use gs_frac::Fraction;
use gs_samples::{check_row, numbers_in};
use gs_simplex::{Best, PathTrace, Program, run, trace};
use std::alloc::{AllocError, Global};
use std::fmt::Write;
use std::test::Fail;

// Returns a part of a text, from 0; bars are between the parts.
fn part(text: &str, place: usize) -> &str {
    text.split('|').nth(place).unwrap_or("")
}

// Returns for each column whether the text names it, counted from 1.
fn free_columns(alloc: Global, text: &str, cols: usize) -> Result<Vec<bool>, AllocError> {
    let mut free = vec![in alloc; false; cols]?;
    for column in &numbers_in::<usize>(alloc, text)? {
        if let Some(is_free) = free.get_mut(column.wrapping_sub(1)) {
            *is_free = true;
        }
    }
    Ok(free)
}

// Returns the numbers of a text in rows of this width.
fn rows_in(alloc: Global, text: &str, width: usize) -> Result<Vec<Vec<i64>>, AllocError>
    requires { 0 < width }
{
    let mut rows = Vec::new(alloc);
    for row in numbers_in::<i64>(alloc, text)?.chunks_exact(width) {
        rows.push(Vec::from_slice(alloc, row)?)?;
    }
    Ok(rows)
}

// Returns the program of a text: the free columns, the numbers row by row and the aim.
fn program_in(alloc: Global, text: &str) -> Result<Program, AllocError> {
    let aim = numbers_in::<i64>(alloc, part(text, 2))?;
    let numbers = rows_in(alloc, part(text, 1), aim.len().saturating_add(1))?;
    let free = free_columns(alloc, part(text, 0), aim.len())?;
    Ok(Program {
        rows: u32::try_from(numbers.len()).unwrap_or(0),
        cols: u32::try_from(aim.len()).unwrap_or(0),
        free,
        numbers,
        aim,
    })
}

// Returns the program and the opening of a text.
fn opened(alloc: Global, text: &str) -> Result<(Program, Vec<(u32, u32)>), AllocError> {
    let program = program_in(alloc, text)?;
    Ok((program, pairs_in(alloc, part(text, 3))?))
}

// Adds fractions to a text, behind a bar.
fn add_fractions(text: &mut String, fractions: &[Fraction]) -> Result<(), AllocError> {
    text.push_str(" |")?;
    for fraction in fractions {
        write!(text, " {fraction}")?;
    }
    Ok(())
}

// Returns the number of pivots, the pairs, the values and the prices as text.
fn best_text(alloc: Global, best: &Best) -> Result<String, AllocError> {
    let pivots = best.pivots;
    let basis = &best.basis;
    let mut text = format!(in alloc; "{pivots} | {basis:?}")?;
    add_fractions(&mut text, &best.value)?;
    add_fractions(&mut text, &best.price)?;
    Ok(text)
}

// Returns the aim's value, the pivots, the bases, and the aim's value at the end as text.
fn path_text(alloc: Global, path: &PathTrace) -> Result<String, AllocError> {
    let start = &path.start;
    let turns = &path.turns;
    let bases = &path.bases;
    let aim = &path.aim;
    format!(in alloc; "{start} | {turns:?} | {bases:?} | {aim}")
}

// The text where a program and its opening do not meet the conditions of `run`.
const NO_OPENING: &str = "no opening";

// Returns what `run` answers as text.
fn end_of(
    alloc: Global,
    p: &Program,
    opening: &[(u32, u32)],
    limit: u16,
) -> Result<String, AllocError> {
    if !meets(alloc, p, opening)? {
        return String::from_str(alloc, NO_OPENING);
    }
    match run(alloc, p, opening, u32::from(limit)) {
        Ok(best) => best_text(alloc, &best),
        Err(error) => error_text(alloc, &error),
    }
}

// Returns what `trace` answers as text.
fn path_of(
    alloc: Global,
    p: &Program,
    opening: &[(u32, u32)],
    limit: u16,
) -> Result<String, AllocError> {
    if !meets(alloc, p, opening)? {
        return String::from_str(alloc, NO_OPENING);
    }
    match trace(alloc, p, opening, u32::from(limit)) {
        Ok(path) => path_text(alloc, &path),
        Err(error) => error_text(alloc, &error),
    }
}

// Fails if `run` does not answer as the case has it.
fn check_end(alloc: Global, p: &Program, opening: &[(u32, u32)], case: &Case) -> Result<(), Fail> {
    let end = end_of(alloc, p, opening, case.2)?;
    check_row(alloc, case.0, end.as_str(), case.3)
}

// Fails if `trace` does not answer as the case has it. Where `run` reaches an end, `trace` is to show some path.
fn check_path(
    alloc: Global,
    p: &Program,
    opening: &[(u32, u32)],
    case: &Case,
    is_end: bool,
) -> Result<(), Fail> {
    let path = path_of(alloc, p, opening, case.2)?;
    if is_end && path.as_str().contains('|') {
        return Ok(());
    }
    check_row(alloc, case.0, path.as_str(), case.3)
}

// Fails if `trace` does not answer as the case has it, or `run`, if the case says how that ends.
fn check_answers(
    alloc: Global,
    p: &Program,
    opening: &[(u32, u32)],
    case: &Case,
    has_end: bool,
) -> Result<(), Fail> {
    if has_end {
        check_end(alloc, p, opening, case)?;
    }
    check_path(alloc, p, opening, case, has_end && case.3.contains('|'))
}

// Fails if the program of a case is not answered as the case has it.
fn check_case(alloc: Global, case: &Case, has_end: bool) -> Result<(), Fail> {
    let (program, opening) = opened(alloc, case.1)?;
    check_answers(alloc, &program, &opening, case, has_end)
}

#[test]
fn programs_with_known_paths(rt: HostRuntime) -> Result<(), Fail> {
    for case in CASES {
        check_case(rt.alloc(), case, true)?;
    }
    Ok(())
}

#[test]
fn paths_that_are_shown(rt: HostRuntime) -> Result<(), Fail> {
    for case in TRACES {
        check_case(rt.alloc(), case, false)?;
    }
    Ok(())
}

// Puts the column that enters in the place of the one that leaves.
fn replace_column(basis: &mut [(u32, u32)], leaving: u32, entering: u32) {
    for place in 0..basis.len() {
        if basis[place].1 == leaving {
            basis[place].1 = entering;
        }
    }
}

// The most pivots of the worked path after which the list's pairs can be taken in the list's order.
const IN_TURN: u16 = 5;

// Fails if `run` does not answer by a text with this end.
fn check_behind(
    alloc: Global,
    p: &Program,
    basis: &[(u32, u32)],
    limit: u16,
    want: &str,
) -> Result<(), Fail> {
    let end = end_of(alloc, p, basis, limit)?;
    if end.as_str().ends_with(want) {
        return Ok(());
    }
    check_row(alloc, "a basis of Kuhn's game", end.as_str(), want)
}

// Fails if the rest of the path does not follow from a basis: the same last basis, values and prices, and no end with a lower limit. From the other bases
// `run` may not be called.
fn check_rest(alloc: Global, p: &Program, basis: &[(u32, u32)], made: u16) -> Result<(), Fail> {
    if made > IN_TURN {
        return check_behind(alloc, p, basis, 9, NO_OPENING);
    }
    check_behind(alloc, p, basis, 9u16.saturating_sub(made), KUHN_END)?;
    check_behind(alloc, p, basis, 8u16.saturating_sub(made), "Pivots")
}

// Fails if from a basis of the path the rest does not follow.
fn check_bases(alloc: Global, p: &Program, basis: &mut [(u32, u32)]) -> Result<(), Fail> {
    for made in 0..10u16 {
        check_rest(alloc, p, basis, made)?;
        if let Some((entering, leaving)) = KUHN_PATH.get(made as usize) {
            replace_column(basis, *leaving, *entering);
        }
    }
    Ok(())
}

#[test]
fn the_path_of_kuhns_game(rt: HostRuntime) -> Result<(), Fail> {
    let (program, mut basis) = opened(rt.alloc(), KUHN)?;
    check_bases(rt.alloc(), &program, &mut basis)
}
