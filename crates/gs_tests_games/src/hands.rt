//! Strengths and outcomes of hands, worked by hand.

use gs_card::{Deck, Ranking};
use gs_rank::{Ranker, category, outcome, strength};
use gs_samples::SampleError;
use std::process::Abort;
use std::test::Fail;

/// Returns the strengths of an own card with two public ones: by three cards, by a pair and by the own card.
fn strengths(
    rt: &impl Abort,
    ranker: &Ranker<'_>,
    own: &str,
    first: &str,
    second: &str,
) -> (u32, u32, u32) {
    let own = [ranker.deck.card_of(own).expect(rt, "an own card")];
    let public = [
        ranker.deck.card_of(first).expect(rt, "a public card"),
        ranker.deck.card_of(second).expect(rt, "a public card"),
    ];
    (
        strength(ranker, Ranking::Three, &own, &public),
        strength(ranker, Ranking::Pair, &own, &public),
        strength(ranker, Ranking::High, &own, &public),
    )
}

/// An own card, two public ones, and their three strengths.
const HANDS: &[(&str, &str, &str, (u32, u32, u32))] = &[
    ("Qs", "Ks", "As", (1359872, 10, 10)),
    ("As", "3h", "2s", (49216, 12, 12)),
    ("2s", "2h", "Ah", (262912, 64, 0)),
    ("9d", "Tc", "8s", (819200, 7, 7)),
    ("2h", "4h", "9h", (553088, 0, 0)),
    ("7s", "7h", "7d", (1069056, 69, 5)),
    ("Kc", "Ah", "Kd", (307968, 75, 11)),
    ("5c", "9s", "Jd", (37315, 3, 3)),
];

/// Compares the strengths of all hands.
fn compare(rt: &impl Abort, ranker: &Ranker<'_>) {
    for &(own, first, second, want) in HANDS {
        let found = strengths(rt, ranker, own, first, second);
        assert_eq!(rt; found, want, "at {own}");
    }
}

#[test]
fn hands_have_strengths(rt: HostRuntime) -> Result<(), Fail> {
    let deck = Deck::new(rt.alloc(), "23456789TJQKA", "shdc", "").map_err(SampleError::from)?;
    let ranker = Ranker::of(rt.alloc(), &deck)?;
    compare(&rt, &ranker);
    Ok(())
}

/// Compares an outcome with the expected one.
fn compare_outcome(rt: &impl Abort, found: i8, wanted: i8) {
    assert_eq!(rt; found, wanted);
}

#[test]
fn bonuses_are_of_the_winner(rt: HostRuntime) {
    let bonus = [1, 2, 3, 4, 5, 9];
    assert_eq!(rt; category(Ranking::Three, 1359872), 5);
    compare_outcome(&rt, outcome(&bonus, Ranking::Three, 1359872, 49216), 9);
    compare_outcome(&rt, outcome(&bonus, Ranking::Three, 49216, 1359872), -9);
    compare_outcome(&rt, outcome(&bonus, Ranking::Three, 262912, 262912), 0);
    compare_outcome(&rt, outcome(&bonus, Ranking::Three, 262912, 49216), 2);
    compare_outcome(&rt, outcome(&[1, 3], Ranking::Pair, 12, 64), -3);
    compare_outcome(&rt, outcome(&[7], Ranking::High, 12, 0), 7);
}
