//! Checks a game's rounds and cards.

ghost use Rattle.std.specs.Prelude.{◌≡◌, ◌≤◌, ◌*◌, ◌↔◌, EachIndex, IsTrue, None, MatchResult, All, length, slice_index, sum, sum_by};
ghost use Rattle.gs_card.specs.{Rankings.{ranking_of}, declared.faults.TheConstants.{MOST_KINDS}};
ghost use Rattle.gs_game.specs.{FaultOf.{IsFaultOf}, Games.{HasFewCards, game_of}, Refusals.{card_refusal, ranks}};

use crate::faults::GameFault;
use crate::game::{Game, Round};
use gs_card::Ranking;

/// Returns the number of one player's own cards over all rounds, and that of the public cards.
fn cards_over(rounds: &[Round]) -> (u8, u8)
    requires few { length rounds.now ≤ 4 }
    requires cards { All HasFewCards rounds.now }
    ensures own { result.0 ≡ sum_by (λ r. r.private) rounds.now }
    ensures public { result.1 ≡ sum_by (λ r. r.public) rounds.now }
    ensures small { (result.0 ≤ 8) × (result.1 ≤ 12) }
{
    let mut own = 0;
    let mut public = 0;
    for round in rounds {
        own += round.private;
        public += round.public;
    }
    (own, public)
}

/// Returns the number of all copies of all kinds.
pub fn all_copies(counts: &[u8]) -> u32
    requires { length counts.now ≤ MOST_KINDS }
    ensures { result ≡ sum counts.now }
{
    let mut all = 0;
    for count in counts {
        all += u32::from(*count);
    }
    all
}

/// Returns whether no kind has more than one copy.
pub fn are_single(copies: &[u8]) -> bool
    ensures { IsTrue result ↔ EachIndex copies.now (λ card. slice_index copies.now card ≤ 1) }
{
    copies.iter().all(|count| *count <= 1)
}

/// Returns whether the ranking can rank hands, by the number of own cards and of all cards.
fn ranks(ranking: Ranking, own: u8, all: u8) -> bool
    ensures { result ≡ ranks (ranking_of ranking) own all }
{
    match ranking {
        Ranking::High | Ranking::Pair => own == 1,
        Ranking::Three => all == 3,
    }
}

/// Checks a game's rounds and cards. Fails with the first refusal that applies to them: the number of rounds, the private card of round 1, the ranking, the
/// copies.
#[tactic(auto, unfolding(crate::specs::Refusals::card_refusal, crate::specs::Refusals::rounds_refusal, crate::specs::Refusals::private_refusal, crate::specs::Refusals::ranking_refusal, crate::specs::Refusals::copies_refusal))]
pub fn check_cards(game: &Game) -> Result<(), GameFault>
    requires { All HasFewCards game.now.rounds.items }
    ensures { MatchResult result (λ _. card_refusal (game_of game.now) ≡ None) (IsFaultOf (card_refusal (game_of game.now))) }
{
    let count = game.rounds.len();
    if count == 0 || count > 4 {
        return Err(GameFault::Rounds {
            count: count as u64,
        });
    }
    if game.rounds[0].private == 0 {
        return Err(GameFault::NoPrivate);
    }
    let (own, public) = cards_over(&game.rounds);
    let all = own + public;
    if !ranks(game.ranking, own, all) {
        return Err(GameFault::RankingCards { own, all });
    }
    let need = 2 * u32::from(own) + u32::from(public);
    let have = all_copies(game.deck.counts());
    if have < need {
        return Err(GameFault::NotEnoughCards { need, have });
    }
    Ok(())
}
