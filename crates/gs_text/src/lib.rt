//! The texts of classes, of their summaries, and of the faults of a game file.
#![tactic(auto)]

mod classes;
mod faults;
mod summary;

pub use classes::class_text;
pub use faults::file_fault_text;
pub use summary::summary_text;
