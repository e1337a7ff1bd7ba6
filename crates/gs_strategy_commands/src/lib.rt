//! The commands that read one strategy file: `evaluate`, `query`, `upgrade`, `certify` and `verify`. They check its classes before they answer, and all but
//! `verify` compute its numbers again. `verify` checks a strategy and its certificate without trusting who made them.
#![tactic(auto)]

mod answers;
mod certifying;
mod checks;
mod commands;
mod laws;
mod numbers;
mod queries;
mod value;
mod verifying;
mod wanted;

pub use checks::confirmed_form;
pub use commands::strategy_answer;
pub use laws::printed_lines_are_verified;
