//! Small groups of cards, kept in place.

ghost use Rattle.std.specs.Prelude.{◌≡◌, ◌≤◌, length};

use gs_card::{Card, Group};

/// At most three cards, in ascending order, kept in place.
#[derive(Clone, Copy)]
pub(crate) struct FewCards {
    pub(crate) cards: [Card; 3],
    pub(crate) len: u8,
    ghost few: { len ≤ 3 },
}

impl FewCards {
    ghost use Rattle.std.specs.Prelude.{◌≡◌, ◌≤◌, ◌∷◌, [], length};
    ghost use Rattle.gs_tree.specs.Shown.{cards_of};

    /// Returns the cards of a small group.
    pub(crate) fn of(group: &Group) -> FewCards
        requires { length group.now ≤ 3 }
        ensures { cards_of result ≡ group.now }
    {
        let mut cards = [Card::new(0); 3];
        let from = group.cards();
        cards[..from.len()].copy_from_slice(from);
        FewCards {
            cards,
            len: from.len() as u8,
        }
    }

    /// Returns no cards.
    pub(crate) fn none() -> FewCards
        ensures { cards_of result ≡ [] }
    {
        FewCards {
            cards: [Card::new(0); 3],
            len: 0,
        }
    }

    /// Returns a group of one card.
    pub(crate) fn one(card: Card) -> FewCards
        ensures { cards_of result ≡ card ∷ [] }
    {
        FewCards {
            cards: [card, Card::new(0), Card::new(0)],
            len: 1,
        }
    }

    /// Returns the cards.
    pub(crate) fn cards(&self) -> &[Card]
        ensures { result.now ≡ cards_of self.now }
    {
        &self.cards[..usize::from(self.len)]
    }
}
