//! The strengths of the hands that the last round's signals hold.

ghost use Rattle.std.specs.Prelude.{◌≡◌, ◌<◌, All, IfOk, IsTrue, false, map};
ghost use Rattle.gs_card.specs.Rankings.{ranking_of};
ghost use Rattle.gs_game.specs.Games.{game_of};
ghost use Rattle.gs_model.specs.{Game.{round_count}, Signals.{signal_at, signals}, ViewTree.{signal_strength}};
ghost use Rattle.gs_rank.specs.Hands.{IsStrength};
ghost use Rattle.gs_tree.specs.{Kept.{AreHands}, Plain.{IsPlain}, Walk.{last_count}};

use crate::kept::{Hands, part};
use gs_game::{ValidGame, are_single};
use gs_rank::{Ranker, strength};
use std::alloc::{AllocError, Global};

/// Returns whether no kind of card has more than one copy and each player is dealt one private card.
pub(crate) fn is_plain(valid: &ValidGame, hands: &Hands) -> bool
    requires { AreHands (game_of valid.now.game) (round_count (game_of valid.now.game)) hands.now }
    ensures plain { IsTrue result → IsPlain (game_of valid.now.game) }
    ensures not_plain { result ≡ false → IsPlain (game_of valid.now.game) → last_count (game_of valid.now.game) ≡ 0 }
{
    let copies = valid.game.deck.counts();
    hands.own == 1 && are_single(copies)
}

/// Returns the strength of the hand that a last-round signal holds.
fn strength_of(ranker: &Ranker, valid: &ValidGame, hands: &Hands, signal: u32) -> u32
    requires deck { ranker.now.deck.now ≡ valid.now.game.deck }
    requires hands { AreHands (game_of valid.now.game) (round_count (game_of valid.now.game)) hands.now }
    requires signal_in { signal < last_count (game_of valid.now.game) }
    ensures value { result ≡ signal_strength (game_of valid.now.game) (signal_at (game_of valid.now.game) (round_count (game_of valid.now.game)) signal) }
    ensures within { IsStrength (ranking_of valid.now.game.ranking) result }
{
    let own = part(&hands.owns, hands.own, signal);
    let public = part(&hands.publics, hands.public, signal);
    strength(ranker, valid.game.ranking, own, public)
}

/// Returns the strengths of the hands of all last-round signals. Fails only if memory runs out.
pub(crate) fn strengths(
    alloc: Global,
    valid: &ValidGame,
    hands: &Hands,
) -> Result<Vec<u32>, AllocError>
    requires hands { AreHands (game_of valid.now.game) (round_count (game_of valid.now.game)) hands.now }
    ensures value { IfOk result (λ v. v.items ≡ map (signal_strength (game_of valid.now.game))
        (signals (game_of valid.now.game) (round_count (game_of valid.now.game)))) }
    ensures within { IfOk result (λ v. All (IsStrength (ranking_of valid.now.game.ranking)) v.items) }
{
    let count = hands.paths.len() as u32;
    let ranker = Ranker::of(alloc, &valid.game.deck)?;
    let mut found = Vec::with_capacity(alloc, hands.paths.len())?;
    for signal in 0..count {
        found.push(strength_of(&ranker, valid, hands, signal))?;
    }
    Ok(found)
}
