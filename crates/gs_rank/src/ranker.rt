//! The ranks and suits of a deck's kinds, read once.

ghost use Rattle.std.specs.{Prelude.{◌≡◌, ◌<◌, All, IfOk, length, map}, List.{range_with_len}};
ghost use Rattle.gs_card.specs.Decks.{kinds};
ghost use Rattle.gs_model.specs.Outcome.{rank_of, suit_of};

use gs_card::{Card, Deck};
use std::alloc::{AllocError, Global};

/// Returns the rank of each kind. Fails only if memory runs out.
fn ranks_of(alloc: Global, deck: &Deck) -> Result<Vec<u8>, AllocError>
    ensures ranks { IfOk result (λ v. v.items ≡ map (rank_of (length deck.now.suits)) (range_with_len 0 (kinds deck.now))) }
    ensures low { IfOk result (λ v. All (λ rank. rank < 64) v.items) }
{
    let kinds = deck.kinds();
    let mut ranks = Vec::with_capacity(alloc, usize::from(kinds))?;
    for kind in 0..kinds {
        ranks.push(deck.rank(Card::new(kind)))?;
    }
    Ok(ranks)
}

/// Returns the suit of each kind. Fails only if memory runs out.
fn suits_of(alloc: Global, deck: &Deck) -> Result<Vec<u8>, AllocError>
    ensures { IfOk result (λ v. v.items ≡ map (suit_of (length deck.now.suits)) (range_with_len 0 (kinds deck.now))) }
{
    let kinds = deck.kinds();
    let mut suits = Vec::with_capacity(alloc, usize::from(kinds))?;
    for kind in 0..kinds {
        suits.push(deck.suit(Card::new(kind)))?;
    }
    Ok(suits)
}

/// A deck with the rank and the suit of each kind of its cards, so that many hands can be ranked without a division.
#[derive(Drop)]
pub struct Ranker<'d> {
    pub deck: &'d Deck,
    ranks: Vec<u8>,
    suits: Vec<u8>,
    ghost ranked: { ranks.items ≡ map (rank_of (length deck.now.suits)) (range_with_len 0 (kinds deck.now)) },
    ghost low: { All (λ rank. rank < 64) ranks.items },
    ghost suited: { suits.items ≡ map (suit_of (length deck.now.suits)) (range_with_len 0 (kinds deck.now)) },
}

impl<'d> Ranker<'d> {
    ghost use Rattle.std.specs.Prelude.{◌≡◌, ◌<◌, IfOk, length};

    /// Returns the ranker of a deck. Fails only if memory runs out.
    pub fn of(alloc: Global, deck: &'d Deck) -> Result<Ranker<'d>, AllocError>
        ensures { IfOk result (λ ranker. ranker.deck.now ≡ deck.entry.now) }
    {
        let ranks = ranks_of(alloc, deck)?;
        let suits = suits_of(alloc, deck)?;
        Ok(Ranker { deck, ranks, suits })
    }

    // Returns the card's rank.
    pub(crate) fn rank(&self, card: Card) -> u8
        requires { card < kinds self.now.deck.now }
        ensures rank { result ≡ rank_of (length self.now.deck.now.suits) card }
        ensures low { result < 64 }
    {
        self.ranks[usize::from(card.number())]
    }

    // Returns the card's suit.
    pub(crate) fn suit(&self, card: Card) -> u8
        requires { card < kinds self.now.deck.now }
        ensures { result ≡ suit_of (length self.now.deck.now.suits) card }
    {
        self.suits[usize::from(card.number())]
    }
}
