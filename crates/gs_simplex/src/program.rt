//! A linear program.

use std::marker::Model;

/// A linear program in whole numbers. The aim, or objective, is maximised, the rows hold as equations, and a column that is not free is at least 0.
#[derive(Drop)]
pub struct Program {
    /// The number of rows.
    pub rows: u32,
    /// The number of columns.
    pub cols: u32,
    /// For each column, whether it may be below 0.
    pub free: Vec<bool>,
    /// For each row, its `cols` numbers and then its right side.
    pub numbers: Vec<Vec<i64>>,
    /// For each column, its number in the aim.
    pub aim: Vec<i64>,
}

impl Model for Program {
    ghost use Rattle.std.specs.Prelude.{map};
    ghost use Rattle.std.specs.Vec.{vec_items};
    ghost use Rattle.gs_simplex.specs.declared.sparse.Program.{Program as SparseProgram};

    ghost Value = { SparseProgram };

    ghost view = { λ p. record {
      rows = p.rows;
      cols = p.cols;
      parts = record { free = p.free.items; numbers = map vec_items p.numbers.items; aim = p.aim.items };
    } };
}
