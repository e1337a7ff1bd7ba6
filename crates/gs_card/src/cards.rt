//! A kind of card, and kinds of cards one after another.

ghost use Rattle.std.specs.{Prelude.{◌≡◌}, Iterator.{YieldsFirst, item_count}};

use std::marker::Model;

/// A kind of card, by its number from 0.
#[derive(Clone, Copy)]
pub struct Card(u8);

impl Model for Card {
    ghost use Rattle.std.specs.Prelude.{ℕ};

    ghost Value = { ℕ };

    ghost view = { λ c. c.0 };

    ghost inverse = { λ n. record { 0 = n } };
}

impl Card {
    /// Returns the card whose kind has this number.
    pub fn new(number: u8) -> Card
        ensures { result ≡ number }
    {
        Card(number)
    }

    /// Returns the number of the card's kind.
    pub fn number(self) -> u8
        ensures { result ≡ self }
    {
        self.0
    }
}

/// An iterator over cards with consecutive numbers.
#[derive(Clone, Drop)]
pub struct Cards {
    pub(crate) next: u8,
    pub(crate) end: u8,
}

impl Model for Cards {
    ghost use Rattle.std.specs.{Prelude.{ℕ, List, ◌-◌}, List.{range_with_len}};

    ghost Value = { List ℕ };

    ghost view = { λ s. range_with_len s.next (s.end - s.next) };
}

impl Iterator for Cards {
    type Item = Card;

    ghost next_gives = { YieldsFirst (λ s. s) };

    ghost remaining = { item_count (λ s. s) };

    fn next(&mut self) -> Option<Card> {
        if self.next >= self.end {
            return None;
        }
        let card = Card(self.next);
        self.next += 1;
        Some(card)
    }
}
