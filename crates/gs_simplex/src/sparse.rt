//! A linear program whose rows keep only the numbers other than 0.

ghost use Rattle.std.specs.Prelude.{◌≡◌, ◌++◌, [], ◌∷◌, IfOk, OnOk, pos, replicate};
ghost use Rattle.gs_simplex.specs.{Program.{IsTask}, Answer.{IsAnswer}, Trace.{IsPathAnswer, IsTraceAnswer}};

use crate::answer::{Best, Path, PathError, PathTrace};
use crate::best::best;
use crate::path::{Position, begin, follow};
use crate::program;
use crate::tracing::{aim_value, bases_of, follow_noting};
use std::alloc::{AllocError, Global};
use std::marker::Model;

/// A row's numbers. Each number other than 0 is kept behind the number of zeros before it, and the zeros at the end are counted.
#[derive(Drop)]
pub struct Row {
    kept: Vec<(usize, i64)>,
    zeros: usize,
}

impl Model for Row {
    ghost use Rattle.std.specs.Prelude.{ℤ, List, ◌++◌, pos, replicate};
    ghost use Rattle.gs_simplex.specs.Parts.{spread};

    ghost Value = { List ℤ };

    ghost view = { λ r. spread r.kept.items ++ replicate r.zeros (pos 0) };
}

/// What a program states: for each column whether it may be below 0, the rows, each with its right side at the end, and the aim.
#[derive(Drop)]
pub struct Parts {
    pub free: Vec<bool>,
    pub numbers: Vec<Row>,
    pub aim: Row,
}

impl Model for Parts {
    ghost use Rattle.gs_simplex.specs.Parts.{PartLists};

    ghost Value = { PartLists };

    ghost view = { λ p. record { free = p.free.items; numbers = p.numbers.items; aim = p.aim } };
}

/// A linear program with sparse rows: the number of rows, the number of columns and what it states.
#[derive(Drop)]
pub struct Program {
    pub rows: u32,
    pub cols: u32,
    pub parts: Parts,
}

// Adds zeros to a list, and then a number.
fn push_kept(numbers: &mut Vec<i64>, zeros: usize, number: i64) -> Result<(), AllocError>
    ensures { OnOk result (numbers.new.items ≡ numbers.old.items ++ replicate zeros (pos 0) ++ number ∷ []) }
{
    push_zeros(numbers, zeros)?;
    numbers.push(number)?;
    Ok(())
}

// Adds zeros to a list.
fn push_zeros(numbers: &mut Vec<i64>, zeros: usize) -> Result<(), AllocError>
    ensures { OnOk result (numbers.new.items ≡ numbers.old.items ++ replicate zeros (pos 0)) }
{
    for _ in 0..zeros {
        numbers.push(0)?;
    }
    Ok(())
}

impl Row {
    /// Returns a row without numbers.
    pub fn new(alloc: Global) -> Row
        ensures { result ≡ [] }
    {
        Row {
            kept: Vec::new(alloc),
            zeros: 0,
        }
    }

    /// Adds a number.
    pub fn push(&mut self, number: i64) -> Result<(), AllocError>
        ensures { OnOk result (self.new ≡ self.old ++ number ∷ []) }
    {
        if number == 0 {
            self.zeros = self.zeros.checked_add(1).ok_or(AllocError)?;
        } else {
            self.kept.push((self.zeros, number))?;
            self.zeros = 0;
        }
        Ok(())
    }

    /// Returns the row's numbers.
    pub(crate) fn dense(&self, alloc: Global) -> Result<Vec<i64>, AllocError>
        ensures { IfOk result (λ v. v.items ≡ self.now) }
    {
        let mut numbers = Vec::new(alloc);
        for kept in &self.kept {
            push_kept(&mut numbers, kept.0, kept.1)?;
        }
        push_zeros(&mut numbers, self.zeros)?;
        Ok(numbers)
    }

    /// Returns a row with these numbers.
    pub fn of(alloc: Global, numbers: &[i64]) -> Result<Row, AllocError>
        ensures { IfOk result (λ r. r ≡ numbers.now) }
    {
        let mut row = Row::new(alloc);
        for number in numbers {
            row.push(*number)?;
        }
        Ok(row)
    }
}

impl Program {
    /// Returns the program with sparse rows.
    pub fn of(alloc: Global, p: &program::Program) -> Result<Program, AllocError>
        ensures { IfOk result (λ s. s ≡ p.now) }
    {
        let mut numbers = Vec::new(alloc);
        for row in &p.numbers {
            numbers.push(Row::of(alloc, row)?)?;
        }
        let free = Vec::from_slice(alloc, &p.free)?;
        let aim = Row::of(alloc, &p.aim)?;
        Ok(Program {
            rows: p.rows,
            cols: p.cols,
            parts: Parts { free, numbers, aim },
        })
    }

    /// Returns the program with all its numbers.
    pub fn dense(&self, alloc: Global) -> Result<program::Program, AllocError>
        ensures { IfOk result (λ p. p ≡ self.now) }
    {
        let parts = &self.parts;
        let mut numbers = Vec::new(alloc);
        for row in &parts.numbers {
            numbers.push(row.dense(alloc)?)?;
        }
        Ok(program::Program {
            rows: self.rows,
            cols: self.cols,
            free: Vec::from_slice(alloc, &parts.free)?,
            numbers,
            aim: parts.aim.dense(alloc)?,
        })
    }

    /// Returns what [`crate::run`] returns for the program.
    pub fn run(&self, alloc: Global, opening: &[(u32, u32)], limit: u32) -> Result<Best, PathError>
        requires { IsTask self.now opening.now limit }
        ensures { IsAnswer self.now opening.now limit result }
    {
        let Position {
            mut basis,
            mut table,
        } = begin(alloc, self, opening)?;
        let pivots = follow(self, opening, limit, &mut basis, &mut table)?;
        Ok(best(alloc, self, &table, basis, pivots)?)
    }

    /// Returns the path's pivots, with the aim's value after the opening and at the end, or what stopped the path first. It stops as [`crate::run`] does.
    pub fn path(&self, alloc: Global, opening: &[(u32, u32)], limit: u32) -> Result<Path, PathError>
        requires { IsTask self.now opening.now limit }
        ensures { IsPathAnswer self.now opening.now limit result }
    {
        let Position {
            mut basis,
            mut table,
        } = begin(alloc, self, opening)?;
        let start = aim_value(self, &table);
        let mut turns = Vec::new(alloc);
        follow_noting(self, opening, limit, &mut basis, &mut table, &mut turns)?;
        let aim = aim_value(self, &table);
        Ok(Path { start, turns, aim })
    }

    /// Returns what [`crate::trace`] returns for the program.
    pub fn trace(
        &self,
        alloc: Global,
        opening: &[(u32, u32)],
        limit: u32,
    ) -> Result<PathTrace, PathError>
        requires { IsTask self.now opening.now limit }
        ensures { IsTraceAnswer self.now opening.now limit result }
    {
        let Path { start, turns, aim } = self.path(alloc, opening, limit)?;
        let bases = bases_of(alloc, self, opening, &turns)?;
        Ok(PathTrace {
            start,
            turns,
            bases,
            aim,
        })
    }
}
