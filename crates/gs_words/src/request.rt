//! What the words of the command line ask for.

use crate::kind::Kind;

/// A grouping of the signals into classes.
#[derive(Clone, Copy)]
pub enum Grouping {
    /// The classes of ordered game isomorphism.
    Isomorphism,
    /// The coarsest lossless refinement of those classes.
    Coarsest,
    /// Each signal by itself.
    Single,
}

/// What is asked of a game file.
#[derive(Clone, Copy)]
pub enum OfGame {
    /// The signal classes, or only how many there are.
    Shrink { summary: bool },
    /// The classes of this grouping, once they are found to be lossless, or only how many there are.
    Check { grouping: Grouping, summary: bool },
    /// A strategy over these classes with both gaps 0.
    Solve { grouping: Grouping },
    /// The strategy over these classes after `turns` turns of fictitious play, at most 1,000,000.
    Play { grouping: Grouping, turns: u32 },
    /// The pivots by which a strategy over these classes is found.
    Path { grouping: Grouping },
}

/// What is asked of a strategy file over lossless classes. The texts of a query are words of the command line.
#[derive(Clone, Copy)]
pub enum OfStrategy<'w> {
    /// The value and gaps, once they are confirmed.
    Evaluate,
    /// The mixture of a player, 1 or 2, at a line with a signal.
    Query {
        player: u8,
        line: &'w str,
        signal: &'w str,
    },
    /// The text in the latest version.
    Upgrade,
    /// A certificate of the bounds.
    Certify,
    /// The bounds that a certificate shows.
    Verify,
}

/// What is asked of strategies over any classes, on raw cards.
#[derive(Clone, Copy)]
pub enum OfRaw {
    /// The value and gaps of a strategy.
    Judge,
    /// The value and gaps of two strategies against each other.
    Duel,
}

/// The game file of a well-known game, or only how many signal classes that game has. The game
/// has 1 to 13 ranks, 1 to 4 suits and at most 8 bets and raises in a round.
#[derive(Clone, Copy)]
pub struct Make {
    pub kind: Kind,
    pub ranks: u8,
    pub suits: u8,
    pub cap: u8,
    pub summary: bool,
}

/// A request of the command line, by the family of its command.
#[derive(Clone, Copy)]
pub enum Request<'w> {
    OfGame(OfGame),
    OfStrategy(OfStrategy<'w>),
    OfRaw(OfRaw),
    Make(Make),
}

/// The reason why words give no request.
#[derive(Clone, Copy)]
pub enum WordsStop {
    /// They are no valid command line, or ask for help.
    Usage,
    /// Memory ran out.
    Memory,
}
