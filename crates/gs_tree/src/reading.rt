//! Reads the texts of signals, without taking memory. Each function returns what follows a part at the beginning of a text, none where the text begins
//! otherwise.

ghost use Rattle.std.specs.{Prelude.{◌≡◌, ◌<◌, ◌≤◌, ◌∷◌, [], All, length}, Bool.{Decides}};
ghost use Rattle.gs_card.specs.Decks.{card_text, kinds};
ghost use Rattle.gs_game.specs.Games.{game_of};
ghost use Rattle.gs_model.specs.Signals.{signal_at, signals};
ghost use Rattle.gs_tree.specs.{Shown.{cards_of, seen_of}, Tables.{AreTables}, Texts.{IsRest, group_text, seen_text, signal_text}};

use crate::layer::Shown;
use crate::tables::Tables;
use gs_card::{Card, Deck};
use gs_game::ValidGame;

/// Returns what follows a byte at the beginning of a text.
fn after_byte(text: &[u8], byte: u8) -> Option<&[u8]>
    ensures { IsRest text.now (byte ∷ []) result }
{
    match text {
        [first, rest @ ..] if *first == byte => Some(rest),
        _ => None,
    }
}

/// Returns what follows the text of a card at the beginning of a text.
fn after_card<'t>(text: &'t [u8], deck: &Deck, card: Card) -> Option<&'t [u8]>
    requires { card < kinds deck.now }
    ensures { IsRest text.now (card_text deck.now card) result }
{
    let [rank, suit] = deck.card_text(card);
    let rest = after_byte(text, rank)?;
    after_byte(rest, suit)
}

/// Returns what follows the text of a group at the beginning of a text.
fn after_group<'t>(text: &'t [u8], deck: &Deck, cards: &[Card]) -> Option<&'t [u8]>
    requires { All (λ card. card < kinds deck.now) cards.now }
    ensures { IsRest text.now (group_text deck.now cards.now) result }
{
    match cards {
        [] => Some(text),
        [card, others @ ..] => {
            let rest = after_card(text, deck, *card)?;
            after_group(rest, deck, others)
        }
    }
}

/// Returns what follows the text of all that is seen in one round at the beginning of a text.
fn after_seen<'t>(text: &'t [u8], deck: &Deck, shown: &Shown) -> Option<&'t [u8]>
    requires own { All (λ card. card < kinds deck.now) (cards_of shown.now.own) }
    requires public { All (λ card. card < kinds deck.now) (cards_of shown.now.public) }
    ensures { IsRest text.now (seen_text deck.now (seen_of shown.now)) result }
{
    let rest = after_group(text, deck, shown.own.cards())?;
    let public = shown.public.cards();
    if public.is_empty() {
        return Some(rest);
    }
    let rest = after_byte(rest, b'+')?;
    after_group(rest, deck, public)
}

/// Returns what follows the text of a signal at the beginning of a text.
fn after_signal<'t>(
    text: &'t [u8],
    valid: &ValidGame,
    tables: &Tables,
    round: usize,
    signal: u32,
) -> Option<&'t [u8]>
    requires tables { AreTables (game_of valid.now.game) tables.now.parents.items tables.now.layers.items }
    requires some { 0 < round }
    requires round_in { round ≤ length tables.now.layers.items }
    requires signal_in { signal < length (signals (game_of valid.now.game) round) }
    ensures { IsRest text.now (signal_text valid.now.game.deck (signal_at (game_of valid.now.game) round signal)) result }
{
    let layer = &tables.layers[round - 1];
    let shown = &layer.shown[signal as usize];
    if round == 1 {
        return after_seen(text, &valid.game.deck, shown);
    }
    let parent = tables.parents[round - 1][signal as usize];
    let rest = after_signal(text, valid, tables, round - 1, parent)?;
    let rest = after_byte(rest, b'/')?;
    after_seen(rest, &valid.game.deck, shown)
}

/// Returns whether a text is the text of a signal.
pub(crate) fn is_text_of(
    text: &[u8],
    valid: &ValidGame,
    tables: &Tables,
    round: usize,
    signal: u32,
) -> bool
    requires tables { AreTables (game_of valid.now.game) tables.now.parents.items tables.now.layers.items }
    requires some { 0 < round }
    requires round_in { round ≤ length tables.now.layers.items }
    requires signal_in { signal < length (signals (game_of valid.now.game) round) }
    ensures { Decides result (text.now ≡ signal_text valid.now.game.deck (signal_at (game_of valid.now.game) round signal)) }
{
    match after_signal(text, valid, tables, round, signal) {
        Some(rest) => rest.is_empty(),
        None => false,
    }
}
