//! Strategies over classes of any kind, judged on raw cards: the commands `judge` and `duel`.
#![tactic(auto)]

mod commands;
mod games;
mod hands;
mod judging;
mod laws;

pub use commands::raw_answer;
pub use laws::{hands_weigh_some, raw_games_are_within, raw_sequences_are_few};
