//! Games: their cards, their betting and the rules that a valid game keeps.
#![tactic(auto)]

mod betting;
mod cards;
mod check;
mod counting;
mod deals;
mod faults;
mod game;
mod laws;
mod line_texts;
mod lines;
mod money;
mod place;
mod positions;
mod stopped;
mod valid;
mod walk;

pub use cards::are_single;
pub use faults::{GameError, GameFault};
pub use game::{Game, Round};
pub use laws::{rounds_go_on, rules_are_refusals};
pub use positions::{Arrow, End, EndKind, Point, Step, Target};
pub use valid::ValidGame;
