//! The raw signals of a game and its deals.
#![tactic(auto)]

mod boards;
mod deal;
mod deals;
mod few;
mod kept;
mod layer;
mod masks;
mod ranked;
mod reading;
mod signals;
mod tables;
mod texts;
mod ways;

pub use deal::Deal;
pub use deals::Deals;
pub use signals::{Signals, parents_of};
