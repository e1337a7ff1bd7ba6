//! The strength of a hand.

ghost use Rattle.std.specs.Prelude.{◌≡◌, ◌<◌, ◌+◌, ◌*◌, ◌++◌, length, slice_index, ◌∷◌, [], max, min, ◌==◌, ◌&&◌, All};
ghost use Rattle.gs_model.specs.{Game.{High, Pair, Three}, Outcome.{strength, three_ranks, three_strength}};
ghost use Rattle.gs_card.specs.{Decks.{kinds}, Rankings.{ranking_of}};
ghost use Rattle.gs_rank.specs.Hands.{IsHand, IsStrength};

use crate::ranker::Ranker;
use gs_card::{Card, Ranking};

/// What one category counts in a strength, 64^3: below it stand three ranks, each below 64.
const CATEGORY: u32 = 262144;

/// Returns the strength of three ranks, the highest first: the category, then the ranks that decide within it. `flush` says whether all cards are of one
/// suit.
fn three_ranks(high: u32, middle: u32, low: u32, flush: bool) -> u32
    requires high_fits { high < 64 }
    requires middle_fits { middle < 64 }
    requires low_fits { low < 64 }
    ensures value { result ≡ three_ranks high middle low flush }
    ensures within { IsStrength Three result }
{
    let straight = high == middle + 1 && middle == low + 1;
    if straight && flush {
        5 * CATEGORY + high * 4096
    } else if high == low {
        4 * CATEGORY + high * 4096
    } else if straight {
        3 * CATEGORY + high * 4096
    } else if flush {
        2 * CATEGORY + high * 4096 + middle * 64 + low
    } else if high == middle {
        CATEGORY + high * 4096 + low * 64
    } else if middle == low {
        CATEGORY + middle * 4096 + high * 64
    } else {
        high * 4096 + middle * 64 + low
    }
}

/// Returns the strength of three cards, in any order.
fn three_strength(ranker: &Ranker, a: Card, b: Card, c: Card) -> u32
    requires a_of_deck { a < kinds ranker.now.deck.now }
    requires b_of_deck { b < kinds ranker.now.deck.now }
    requires c_of_deck { c < kinds ranker.now.deck.now }
    ensures value { result ≡ three_strength (length ranker.now.deck.now.suits) a b c }
    ensures within { IsStrength Three result }
{
    let x = u32::from(ranker.rank(a));
    let y = u32::from(ranker.rank(b));
    let z = u32::from(ranker.rank(c));
    let high = x.max(y.max(z));
    let low = x.min(y.min(z));
    let flush = ranker.suit(a) == ranker.suit(b) && ranker.suit(b) == ranker.suit(c);
    three_ranks(high, x + y + z - high - low, low, flush)
}

/// Returns the strength of an own card with public cards: its rank, and 64 more where some public card has the same rank.
fn pair_strength(ranker: &Ranker, own: Card, public: &[Card]) -> u32
    requires own_of_deck { own < kinds ranker.now.deck.now }
    requires public_of_deck { All (λ card. card < kinds ranker.now.deck.now) public.now }
    ensures value { result ≡ strength (length ranker.now.deck.now.suits) Pair (own ∷ []) public.now }
    ensures within { IsStrength Pair result }
{
    let rank = ranker.rank(own);
    let strength = u32::from(rank);
    for card in public {
        if ranker.rank(*card) == rank {
            return strength + 64;
        }
    }
    strength
}

/// Returns the card at a place of the own cards followed by the public cards.
fn card_at(own: &[Card], public: &[Card], place: usize) -> Card
    requires { place < length own.now + length public.now }
    ensures { result ≡ slice_index (own.now ++ public.now) place }
{
    if place < own.len() {
        own[place]
    } else {
        public[place - own.len()]
    }
}

/// Returns the strength of a hand of own and public cards: the greater strength wins. By the own card it is the card's rank. By a pair it is 64 more where
/// some public card has that rank. By three cards it is `category * 262144` plus the ranks that decide: the first times 4096, the second times 64, the third
/// times 1.
pub fn strength(ranker: &Ranker, ranking: Ranking, own: &[Card], public: &[Card]) -> u32
    requires { IsHand ranker.now.deck.now (ranking_of ranking) own.now public.now }
    ensures value { result ≡ strength (length ranker.now.deck.now.suits) (ranking_of ranking) own.now public.now }
    ensures within { IsStrength (ranking_of ranking) result }
{
    match ranking {
        Ranking::High => u32::from(ranker.rank(own[0])),
        Ranking::Pair => pair_strength(ranker, own[0], public),
        // the usual hand of three cards, which are read where they stand
        Ranking::Three if own.len() == 1 && public.len() == 2 => {
            three_strength(ranker, own[0], public[0], public[1])
        }
        Ranking::Three => three_strength(
            ranker,
            card_at(own, public, 0),
            card_at(own, public, 1),
            card_at(own, public, 2),
        ),
    }
}
