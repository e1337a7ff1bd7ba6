//! Classes of signals as an information filter: members of one class have parents of one class. Classes are numbered in order of their first members.
#![tactic(auto)]

mod apart;
mod classes;
mod fault;
mod laws;
mod members;
mod rows;
mod tallies;
mod tally;

pub use classes::Classes;
pub use fault::{ClassError, ClassFault};
pub use laws::classes_have_no_fault;
pub use members::next_members;
