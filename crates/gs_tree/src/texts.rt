//! Writes the texts of cards, groups and signals.

ghost use Rattle.std.specs.Prelude.{◌≡◌, ◌<◌, ◌++◌, All, OnOk, string_bytes};
ghost use Rattle.gs_card.specs.Decks.{card_text, kinds};
ghost use Rattle.gs_tree.specs.{Shown.{cards_of, seen_of}, Texts.{group_text, seen_text}};

use crate::layer::Shown;
use gs_card::{Card, Deck};
use std::alloc::AllocError;

/// Adds the text of a card to `text`.
pub(crate) fn push_card(text: &mut String, deck: &Deck, card: Card) -> Result<(), AllocError>
    requires { card < kinds deck.now }
    ensures { OnOk result (string_bytes text.new ≡ string_bytes text.old ++ card_text deck.now card) }
{
    let [rank, suit] = deck.card_text(card);
    text.push(char::from(rank))?;
    text.push(char::from(suit))
}

/// Adds the texts of a group's cards to `text`.
fn push_group(text: &mut String, deck: &Deck, cards: &[Card]) -> Result<(), AllocError>
    requires { All (λ card. card < kinds deck.now) cards.now }
    ensures { OnOk result (string_bytes text.new ≡ string_bytes text.old ++ group_text deck.now cards.now) }
{
    for card in cards {
        push_card(text, deck, *card)?;
    }
    Ok(())
}

/// Adds what a player sees in one round to `text`: the own cards and then, if there are any, `+` and the public cards.
pub(crate) fn push_seen(text: &mut String, deck: &Deck, shown: &Shown) -> Result<(), AllocError>
    requires own { All (λ card. card < kinds deck.now) (cards_of shown.now.own) }
    requires public { All (λ card. card < kinds deck.now) (cards_of shown.now.public) }
    ensures { OnOk result (string_bytes text.new ≡ string_bytes text.old ++ seen_text deck.now (seen_of shown.now)) }
{
    push_group(text, deck, shown.own.cards())?;
    let public = shown.public.cards();
    if !public.is_empty() {
        text.push('+')?;
        push_group(text, deck, public)?;
    }
    Ok(())
}
