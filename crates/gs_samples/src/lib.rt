//! Sample games and classes of their signals, from which the tests of many crates start.
//!
//! Only tests use this crate; no command does.
#![tactic(auto)]

mod classes;
pub mod decks;
mod games;
mod numbers;
mod rows;

pub use classes::{classes_of, signal_text};
pub use games::{KUHN, SampleError, SampleFault, game_of};
pub use numbers::numbers_in;
pub use rows::{check_row, check_rows};
