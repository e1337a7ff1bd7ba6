//! The whole program: over any source and any two sinks, over words and bytes in memory, and as a process.
#![tactic(auto)]

mod asking;
mod laws;
mod memory;
mod process;
mod runs;
mod status;

pub use laws::{
    answers_are_one, confirmed_are_evaluated, confirmed_have_no_trouble, length_limit_is_told,
    plays_are_one, printed_are_evaluated, runs_are_one, signal_classes_are_one, solutions_are_one,
};
pub use memory::{Outcome, run_bytes};
pub use process::start;
pub use runs::run;
pub use status::Status;
