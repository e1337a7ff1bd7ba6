//! What is known of a game file after each step of reading.

ghost use Rattle.std.specs.Prelude.{◌≤◌};
ghost use Rattle.gs_card.specs.Rankings.{ranking_of};
ghost use Rattle.gs_model.specs.Outcome.{IsBonus};

use gs_card::Ranking;
use toml::{Table, Value};

/// The values at the top.
#[derive(Clone, Copy)]
pub struct TopValues<'t> {
    pub ranks: &'t Value,
    pub suits: &'t Value,
    pub copies: Option<&'t Value>,
    pub ranking: &'t Value,
    pub bonus: Option<&'t Value>,
    pub ante: &'t Value,
    pub rounds: &'t Value,
}

/// The fields at the top, each of its type.
#[derive(Drop)]
pub struct TopFields<'t> {
    pub ranks: &'t str,
    pub suits: &'t str,
    pub copies: &'t str,
    pub ranking: &'t str,
    pub bonus: Option<Vec<i64>>,
    pub ante: i64,
    pub rounds: Vec<&'t Table>,
}

/// The values that state a round's betting.
#[derive(Clone, Copy)]
pub enum BettingValues<'t> {
    Tree(&'t Value),
    Limit { bet: &'t Value, cap: &'t Value },
}

/// The betting of a round: the text of its tree, or a bet and a cap.
#[derive(Clone, Copy)]
pub enum Betting<'t> {
    Tree(&'t str),
    Limit { bet: i64, cap: i64 },
}

/// A round, each value of its type.
#[derive(Clone, Copy)]
pub struct RoundFields<'t> {
    pub private: i64,
    pub public: i64,
    pub betting: Betting<'t>,
}

/// The limit betting of a round, in its range: the bet in chips, and the most bets and raises.
#[derive(Clone, Copy)]
pub struct Limits {
    pub bet: u16,
    pub cap: u8,
    pub ghost some: { 1 ≤ bet },
    pub ghost little: { bet ≤ 2048 },
    pub ghost few: { cap ≤ 8 },
}

/// The betting of a round, each value in its range.
#[derive(Clone, Copy)]
pub enum Sizes<'t> {
    Tree(&'t str),
    Limit(Limits),
}

/// A round, each value in its range.
#[derive(Clone, Copy)]
pub struct RoundSizes<'t> {
    pub private: u8,
    pub public: u8,
    pub betting: Sizes<'t>,
    pub ghost few_private: { private ≤ 2 },
    pub ghost few_public: { public ≤ 3 },
}

/// What a game file states beside its deck, each value in its range.
#[derive(Drop)]
pub struct StatedGame<'t> {
    pub ranking: Ranking,
    pub bonus: Vec<u8>,
    pub ante: u16,
    pub rounds: Vec<RoundSizes<'t>>,
    pub ghost some: { 1 ≤ ante },
    pub ghost little: { ante ≤ 4096 },
    pub ghost bonuses: { IsBonus (ranking_of ranking) bonus.items },
}
