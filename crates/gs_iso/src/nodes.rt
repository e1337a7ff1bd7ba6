//! The parts of a node: its leaves or children, and the key that decides a signal's class.

ghost use Rattle.std.specs.Prelude.{ℕ, ℤ};

use std::marker::Model;

/// A leaf under a last-round signal: the number of ways to take the opponent's groups, and the outcome for the signal's player.
#[derive(Clone, Copy, PartialEq, Eq)]
pub(crate) struct Leaf {
    pub ways: u64,
    pub outcome: i8,
}

/// A child of a signal: the weight of the edge to it, and its number.
#[derive(Clone, Copy, PartialEq, Eq, Hash)]
pub(crate) struct Child {
    pub edge: u64,
    pub number: u32,
}

/// The key that decides a signal's class: the class of its parent, and its number.
#[derive(Clone, Copy, PartialEq, Eq, Hash)]
pub(crate) struct ClassKey {
    pub above: u32,
    pub number: u32,
}

impl Model for Leaf {
    ghost Value = { ℕ × ℤ };

    ghost view = { λ l. (l.ways, l.outcome) };

    ghost inverse = { λ p. record { ways = p.0; outcome = p.1 } };
}

impl Model for Child {
    ghost Value = { ℕ × ℕ };

    ghost view = { λ c. (c.edge, c.number) };

    ghost inverse = { λ p. record { edge = p.0; number = p.1 } };
}

impl Model for ClassKey {
    ghost Value = { ℕ × ℕ };

    ghost view = { λ k. (k.above, k.number) };

    ghost inverse = { λ p. record { above = p.0; number = p.1 } };
}
