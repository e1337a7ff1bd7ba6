//! How hands are ranked.

ghost use Rattle.std.specs.Prelude.{◌≡◌};
ghost use Rattle.gs_model.specs.Outcome.{categories};
ghost use Rattle.gs_card.specs.Rankings.{ranking_of};

/// How hands are ranked: by the own card, by the own card and a pair with the public cards, or by three cards.
#[derive(Clone, Copy)]
pub enum Ranking {
    High,
    Pair,
    Three,
}

impl Ranking {
    /// Returns the number of categories of hands. By the own card there is one. By a pair there are two: without and with a pair. By three cards there are
    /// six: high card, pair, flush, straight, three of a kind and straight flush.
    pub fn categories(self) -> u8
        ensures { result ≡ categories (ranking_of self) }
    {
        match self {
            Ranking::High => 1,
            Ranking::Pair => 2,
            Ranking::Three => 6,
        }
    }
}
