//! The classes of a game's signals, and the commands that read a game file: `shrink` and `check` print classes, `play`, `solve` and `path` go on over them.
#![tactic(auto)]

mod asked;
mod checking;
mod commands;
mod grouping;
mod laws;
mod lines;
mod paths;
mod playing;
mod settling;
mod shrinking;
mod solving;
mod telling;
mod writing;

pub use commands::game_answer;
pub use laws::{pivot_limit_is_told, printed_are_raw, printed_are_strategies};
