//! Why a game is refused.

ghost use Rattle.std.specs.Prelude.{◌≡◌};
ghost use Rattle.gs_game.specs.declared.faults.GameError.TheVariants.{Fault, Memory};

use std::alloc::AllocError;

/// Why a game is refused. The first reason that applies is returned, in this order.
#[derive(Drop)]
pub enum GameFault {
    /// There is no round, or there are more than 4; `count` is their number.
    Rounds { count: u64 },
    /// Round 1 gives no private card.
    NoPrivate,
    /// The ranking cannot rank this number of cards. `own` counts one player's own cards, `all` these and the public cards.
    RankingCards { own: u8, all: u8 },
    /// Both players' cards and the public cards, `need` in all, are more than the `have` copies of the deck.
    NotEnoughCards { need: u32, have: u32 },
    /// A round before the last has no even leaf; `round` is the first such round.
    NoEven { round: u8 },
    /// At an even leaf the players have put different amounts in the round. `round` and the letters `path` lead to the first such leaf, in tree order.
    Uneven { round: u8, path: Vec<u8> },
    /// The most that one player has put at any end, ante included, times the greatest bonus, is over 4,096; `chips` is this product.
    PutTooLarge { chips: u32 },
    /// There are more than 8,192 ends; `count` is their number, 2^128 - 1 if there are more.
    TooManyLines { count: u128 },
    /// All deals together weigh more than 67,108,864; `weight` is their weight.
    TooHeavy { weight: u128 },
    /// A round has more than 200,000 raw signals; `round` is the first such round.
    TooManySignals { round: u8 },
    /// There are more than 8,000,000 deals.
    TooManyDeals,
}

/// Why a check of a game gives no answer: memory ran out, or the game is refused.
#[derive(Drop)]
pub enum GameError {
    Memory,
    Fault(GameFault),
}

impl From<AllocError> for GameError {
    ghost from_gives = { λ _ e. e ≡ Memory };

    fn from(_e: AllocError) -> GameError {
        GameError::Memory
    }
}

impl From<GameFault> for GameError {
    ghost from_gives = { λ why e. e ≡ Fault why };

    fn from(why: GameFault) -> GameError {
        GameError::Fault(why)
    }
}
