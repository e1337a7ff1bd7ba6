//! The own cards of last-round signals as bits.

ghost use Rattle.std.specs.Prelude.{◌≡◌, ◌<◌, ◌==◌, ℕ, All, IfOk, MatchOption, count_by, if◌then◌else◌, min};
ghost use Rattle.std.specs.Int.{bit_at};
ghost use Rattle.std.specs.Int.RustNames.{bit_and};
ghost use Rattle.gs_game.specs.Games.{game_of};
ghost use Rattle.gs_model.specs.Game.{round_count};
ghost use Rattle.gs_tree.specs.{Kept.{AreHands}, Masks.{AreMasks, HasMasks}, Walk.{last_count}};

use crate::kept::{Hands, part};
use gs_card::Card;
use gs_game::{ValidGame, are_single};
use std::alloc::{AllocError, Global};

/// Returns some cards as bits: a bit is set exactly where the card with its number is among them.
pub(crate) fn mask_of(cards: &[Card]) -> u64
    requires { All (λ card. card < 64) cards.now }
    ensures { (card : ℕ) → bit_at result card ≡ min (count_by (λ other. other == card) cards.now) 1 }
{
    let mut mask = 0u64;
    for card in cards {
        mask |= 1u64 << u32::from(card.number());
    }
    mask
}

/// Returns the own cards of each last-round signal as bits, if no kind of card has more than one copy and each player is dealt more than one private card.
/// Fails only if memory runs out.
pub(crate) fn masks_of(
    alloc: Global,
    valid: &ValidGame,
    hands: &Hands,
) -> Result<Option<Vec<u64>>, AllocError>
    requires hands { AreHands (game_of valid.now.game) (round_count (game_of valid.now.game)) hands.now }
    ensures { IfOk result (λ m. MatchOption m (HasMasks (game_of valid.now.game) → last_count (game_of valid.now.game) ≡ 0)
        (λ v. AreMasks (game_of valid.now.game) v.items)) }
{
    let copies = valid.game.deck.counts();
    if hands.own <= 1 || !are_single(copies) {
        return Ok(None);
    }
    let count = hands.paths.len() as u32;
    let mut masks = Vec::with_capacity(alloc, hands.paths.len())?;
    for signal in 0..count {
        masks.push(mask_of(part(&hands.owns, hands.own, signal)))?;
    }
    Ok(Some(masks))
}

/// Returns the weight of the deal of two signals that show the same public cards, where no kind of card has more than one copy: 1 if they have no own card
/// in common, else 0.
pub(crate) fn apart(one: u64, two: u64) -> u64
    ensures { result ≡ if bit_and one two == 0 then 1 else 0 }
{
    u64::from(one & two == 0)
}
