//! Games without bets, given by their cards.

/// The cards of Kuhn's game.
pub const KUHN: &str = "JQK, s, high, 1 0 check";

/// The cards of Leduc hold'em.
pub const LEDUC: &str = "JQK, sh, pair, 1 0 check, 0 1 check";

/// Three ranks of one suit, two copies of each card.
pub const LEDUC_OF_COPIES: &str = "JQK, s 222, pair, 1 0 check, 0 1 check";

/// Two ranks of one suit, two jacks and three queens.
pub const LEDUC_OF_TWO_RANKS: &str = "JQ, s 23, pair, 1 0 check, 0 1 check";

/// The cards of Rhode Island hold'em with kings and aces of two suits.
pub const RHODE_KA: &str = "KA, sh, three, 1 0 check, 0 1 check, 0 1 check";

/// The cards of Rhode Island hold'em with four ranks of three suits.
pub const RHODE_TJQK: &str = "TJQK, shd, three, 1 0 check, 0 1 check, 0 1 check";

/// The cards of Rhode Island hold'em with four ranks of two suits. Hands above the lowest category win twice what was put, so boards of one order may pay
/// differently.
pub const RHODE_OF_BONUSES: &str = "TJQK, sh, three 1 2 1, 1 0 check, 0 1 check, 0 1 check";

/// Two own cards and a public one, from four kinds of card with 2, 1, 3 and no copies.
pub const TWO_OWN_CARDS: &str = "JQ, sh 2130, three, 2 0 check, 0 1 check";
