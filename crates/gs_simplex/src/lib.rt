//! Linear programs in whole numbers, the rows of a list of basic pairs and Bland's path, with their laws; and the simplex method by Bland's rule.
//!
//! [`run`] follows the path of a program from an opening: it lists the opening's pairs one by one and then makes pivots. Each step's rows are
//! whole numbers without a common divisor. `specs/` defines them by multipliers of the program's rows, and no pivot is part of that definition. The
//! simplex table here holds a positive multiple of each row, since signs and ratios do not change by it. By the law `bases_differ` no basis comes twice.
//! Aim, price and opening are called objective, reduced cost and starting basis in the literature.
//! Sources: Bland 1977, "New finite pivoting rules for the simplex method"; Edmonds 1967 for elimination in whole numbers.
#![tactic(auto)]

mod answer;
mod best;
mod choice;
mod columns;
mod exact;
pub mod laws;
mod path;
mod program;
mod row;
pub mod sparse;
mod start;
mod table;
mod tracing;

ghost use Rattle.gs_simplex.specs.{Program.{IsTask}, Answer.{IsAnswer}, Trace.{IsTraceAnswer}};

pub use answer::{Best, Path, PathError, PathFault, PathTrace, Turn};
pub use program::Program;
use std::alloc::Global;

/// The most numbers that a table may have, counted as `(rows + 1) * (cols + 1)`.
pub const MOST_NUMBERS: u64 = 1_048_576;

/// Returns the last basis of the path with its values and prices, or what stopped the path first.
///
/// The opening lists pairs of a row and a column, both counted from 1. `limit` is the most pivots after the opening.
/// A table of more than [`MOST_NUMBERS`] numbers is refused before any step. Otherwise the error is the first stop that the path meets, or out of memory.
pub fn run(
    alloc: Global,
    p: &Program,
    opening: &[(u32, u32)],
    limit: u32,
) -> Result<Best, PathError>
    requires { IsTask p.now opening.now limit }
    ensures { IsAnswer p.now opening.now limit result }
{
    sparse::Program::of(alloc, p)?.run(alloc, opening, limit)
}

/// Returns the path's pivots and bases, with the aim's value after the opening and at the end, or what stopped the path first. It stops as [`run`] does.
pub fn trace(
    alloc: Global,
    p: &Program,
    opening: &[(u32, u32)],
    limit: u32,
) -> Result<PathTrace, PathError>
    requires { IsTask p.now opening.now limit }
    ensures { IsTraceAnswer p.now opening.now limit result }
{
    sparse::Program::of(alloc, p)?.trace(alloc, opening, limit)
}
