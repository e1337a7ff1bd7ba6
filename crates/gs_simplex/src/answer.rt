//! What a path ends with, and why it stops before.

ghost use Rattle.std.specs.Prelude.{◌≡◌};
ghost use Rattle.gs_simplex.specs.declared.answer.PathError.TheVariants.{Fault, Memory};

use gs_frac::Fraction;
use std::alloc::AllocError;

/// The last basis of the path, with the values and prices there.
#[derive(Drop)]
pub struct Best {
    /// The number of pivots after the opening.
    pub pivots: u32,
    /// The pairs of rows and columns of the last list, in the opening's order of rows, both counted from 1.
    pub basis: Vec<(u32, u32)>,
    /// For each column, its value when the unlisted columns are 0.
    pub value: Vec<Fraction>,
    /// For each column, how much the aim falls per unit of it when the rows hold and the other unlisted columns stay: its reduced cost.
    pub price: Vec<Fraction>,
}

/// A pivot: the column that enters the basis and the one that leaves it, both counted from 1.
#[derive(Clone, Copy, Debug)]
pub struct Turn {
    pub enter: u32,
    pub leave: u32,
}

/// The path from the end of the opening on, without its bases.
#[derive(Drop)]
pub struct Path {
    /// The aim's value after the opening.
    pub start: Fraction,
    /// The pivots.
    pub turns: Vec<Turn>,
    /// The aim's value at the end.
    pub aim: Fraction,
}

/// The path from the end of the opening on.
#[derive(Drop)]
pub struct PathTrace {
    /// The aim's value after the opening.
    pub start: Fraction,
    /// The pivots.
    pub turns: Vec<Turn>,
    /// The listed columns in order of number, counted from 1, after the opening and after each pivot.
    pub bases: Vec<Vec<u32>>,
    /// The aim's value at the end.
    pub aim: Fraction,
}

/// Why the path stops before its end.
#[derive(Debug, Drop)]
pub enum PathFault {
    /// The table has `(rows + 1) * (cols + 1)` numbers, more than 1,048,576.
    TableTooLarge {
        count: u64,
    },
    /// The first number of the path's rows, by step, row and column, that is 2^62 or more in size. Steps, rows and columns count from 1, and the first
    /// pair of the opening is step 1. The aim's row comes after all rows, the right side or last number after all columns, and the multiple after it.
    Wide {
        step: u32,
        row: u32,
        col: u32,
        number: i128,
    },
    /// The path has more pivots than the limit.
    Pivots,
    /// No row bounds the entering column `col`.
    Unbounded {
        col: u32,
    },
}

/// Why the path is not followed to its end: memory ran out, or it stops before.
#[derive(Drop)]
pub enum PathError {
    Memory,
    Fault(PathFault),
}

impl From<AllocError> for PathError {
    ghost from_gives = { λ _ e. e ≡ Memory };

    fn from(_e: AllocError) -> PathError {
        PathError::Memory
    }
}

impl From<PathFault> for PathError {
    ghost from_gives = { λ why e. e ≡ Fault why };

    fn from(why: PathFault) -> PathError {
        PathError::Fault(why)
    }
}
