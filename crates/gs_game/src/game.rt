//! The description of a game.

use gs_bet::BetTree;
use gs_card::{Deck, Ranking};

/// One round: how many private cards each player gets, how many public cards are shown, and the betting that follows.
#[derive(Drop)]
pub struct Round {
    pub private: u8,
    pub public: u8,
    pub tree: BetTree,
}

/// A game as its author states it, valid or not.
///
/// `bonus` has a number for each category of the ranking, the lowest first: at the showdown a winning hand of the category wins that many times the put. All
/// 1 is the usual game.
#[derive(Drop)]
pub struct Game {
    pub deck: Deck,
    pub ranking: Ranking,
    pub bonus: Vec<u8>,
    /// What each player puts before the first round, in chips.
    pub ante: u16,
    pub rounds: Vec<Round>,
}
