//! How often a card occurs, and the ways to take a group of cards.

ghost use Rattle.std.specs.Prelude.{◌≡◌, ◌≤◌, ◌<◌, ◌==◌, All, count_by, length};
ghost use Rattle.gs_model.specs.Cards.{ways};

use crate::cards::Card;
use crate::groups::Group;

/// Returns how often the card occurs among the cards.
pub fn times(cards: &[Card], card: Card) -> u64
    ensures value { result ≡ count_by (λ other. other == card) cards.now }
    ensures bound { result ≤ length cards.now }
{
    cards
        .iter()
        .filter(|other| other.number() == card.number())
        .count() as u64
}

/// Returns the number of ways to take the group from the physical copies that are left, 0 where it cannot be taken. `left` has the number of copies of each
/// kind, at most 9; the group has at most 3 cards.
pub fn ways(left: &[u8], group: &Group) -> u64
    requires in_range { All (λ card. card < length left.now) group.now }
    requires few_cards { length group.now ≤ 3 }
    requires few_copies { All (λ copies. copies ≤ 9) left.now }
    ensures { result ≡ ways left.now group.now }
{
    let cards = group.cards();
    let mut ways: u64 = 1;
    for (i, card) in cards.iter().enumerate() {
        let taken = times(&cards[..i], *card);
        let copies = u64::from(left[usize::from(card.number())]);
        ways = ways * copies.saturating_sub(taken) / (taken + 1);
    }
    ways
}
