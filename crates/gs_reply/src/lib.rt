//! Why a command does not answer: the refusals of its input, their lines, and the reading of the files that it is given. And the texts of answers.
#![tactic(auto)]

mod classes;
mod games;
mod lines;
mod refusals;
mod stores;
mod strategies;
mod verdicts;

pub use classes::{lossless_classes, sequence_form};
pub use games::stated_game;
pub use lines::refusal_line;
pub use refusals::{Limit, Overflow, Refusal, Stop, Which, WrongNumber};
pub use stores::store_fault_text;
pub use strategies::stored_strategy;
pub use verdicts::{mix_text, verdict_text};
