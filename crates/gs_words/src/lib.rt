//! The words of the command line, what they ask for, and the game files that `make` prints.
#![tactic(auto)]

mod command;
mod kind;
mod laws;
mod made;
mod names;
mod reading;
mod request;
mod values;

pub use kind::Kind;
pub use laws::plain_words_are_read;
pub use made::made_game;
pub use names::CommandName;
pub use reading::read_words;
pub use request::{Grouping, Make, OfGame, OfRaw, OfStrategy, Request, WordsStop};
