//! The texts of cards, and groups of cards in order.

ghost use Rattle.std.specs.Prelude.{◌≤◌};

use gs_card::{Deck, ways};
use gs_samples::SampleError;
use std::alloc::{AllocError, Global};
use std::process::Abort;
use std::test::Fail;

/// Texts, and the number of the card with that text in a deck of three ranks and two suits.
const TEXTS: &[(&str, Option<u8>)] = &[
    ("Js", Some(0)),
    ("Jh", Some(1)),
    ("Kh", Some(5)),
    ("", None),
    ("J", None),
    ("sJ", None),
    ("Jd", None),
    ("As", None),
    ("Jss", None),
    ("js", None),
];

/// Returns the number of the card with a text.
fn number_of(deck: &Deck, text: &str) -> Option<u8> {
    Some(deck.card_of(text)?.number())
}

/// Compares the numbers of the cards of all texts.
fn compare_numbers(rt: &impl Abort, deck: &Deck) {
    for &(text, number) in TEXTS {
        assert_eq!(rt; number_of(deck, text), number, "at {text}");
    }
}

/// Returns the texts of all cards of a deck.
fn texts_of(rt: &impl Abort, alloc: Global, deck: &Deck) -> Result<Vec<u8>, AllocError> {
    let mut texts = Vec::new(alloc);
    for card in deck.cards() {
        assert!(rt; card.number() < deck.kinds());
        texts.extend_from_slice(&deck.card_text(card))?;
    }
    Ok(texts)
}

#[test]
fn cards_have_texts(rt: HostRuntime) -> Result<(), Fail> {
    let deck = Deck::new(rt.alloc(), "JQK", "sh", "").map_err(SampleError::from)?;
    compare_numbers(&rt, &deck);
    let texts = texts_of(&rt, rt.alloc(), &deck)?;
    assert_eq!(rt; texts.as_slice(), b"JsJhQsQhKsKh".as_slice());
    Ok(())
}

/// Returns the cards of each group of a deck's copies, each group followed by the number of ways to take it.
fn listed(alloc: Global, deck: &Deck, size: u8) -> Result<Vec<u64>, AllocError>
    requires { size ≤ 3 }
{
    let mut found = Vec::new(alloc);
    for group in &deck.groups(alloc, deck.counts(), size)? {
        for card in group.cards() {
            found.push(u64::from(card.number()))?;
        }
        found.push(ways(deck.counts(), group))?;
    }
    Ok(found)
}

/// The groups of two cards in order, each followed by the number of ways to take it. The deck has four kinds of card with 3, 2, 1 and 0 copies.
const PAIRS: &[u64] = &[0, 0, 3, 0, 1, 6, 0, 2, 3, 1, 1, 1, 1, 2, 2];

/// The groups of three cards of the same deck.
const TRIPLES: &[u64] = &[
    0, 0, 0, 1, 0, 0, 1, 6, 0, 0, 2, 3, 0, 1, 1, 3, 0, 1, 2, 6, 1, 1, 2, 1,
];

/// Compares the groups of a deck's copies with the expected ones.
fn compare_groups(
    rt: &impl Abort,
    alloc: Global,
    deck: &Deck,
    size: u8,
    wanted: &[u64],
) -> Result<(), AllocError>
    requires { size ≤ 3 }
{
    let found = listed(alloc, deck, size)?;
    assert_eq!(rt; found.as_slice(), wanted);
    Ok(())
}

#[test]
fn groups_stand_in_order(rt: HostRuntime) -> Result<(), Fail> {
    let deck = Deck::new(rt.alloc(), "JQ", "sh", "3210").map_err(SampleError::from)?;
    compare_groups(&rt, rt.alloc(), &deck, 0, &[1])?;
    compare_groups(&rt, rt.alloc(), &deck, 2, PAIRS)?;
    compare_groups(&rt, rt.alloc(), &deck, 3, TRIPLES)?;
    Ok(())
}
