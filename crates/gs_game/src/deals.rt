//! Checks the weight of a game's deals, and the numbers of its signals and deals.

ghost use Rattle.std.specs.Prelude.{◌≡◌, ◌≤◌, ◌<◌, ◌+◌, ◌*◌, None, IfOk, OnOk, MatchResult, All, length, map, min, sum, ◌++◌};
ghost use Rattle.gs_card.specs.Decks.{IsDeck};
ghost use Rattle.gs_model.specs.{Cards.{choose}, Deals.{deals}, Frame.{frame_of, total_weight}};
ghost use Rattle.gs_game.specs.{FaultOf.{IsErrorOf, IsFaultOf}, Games.{HasFewCards, game_of, round_rules}, Money.{first_of}};
ghost use Rattle.gs_game.specs.Refusals.{card_refusal, deal_refusal, deals_refusal, signals_refusal};
ghost use Rattle.gs_game.specs.Sequences.{count_sequences, deal_sizes, draws, power, privates, seen_sizes};

use crate::cards::{all_copies, are_single};
use crate::counting::count_sequences;
use crate::faults::{GameError, GameFault};
use crate::game::{Game, Round};
use std::alloc::{AllocError, Global};

/// Returns the number of ways to choose `size` of `n` things, in no order.
fn choose(n: u32, size: u8) -> u128
    requires few { n ≤ 468 }
    requires size { size ≤ 3 }
    ensures { result ≡ choose n size }
{
    let n = u128::from(n);
    match size {
        0 => 1,
        1 => n,
        2 => n * n.saturating_sub(1) / 2,
        _ => n * n.saturating_sub(1) * n.saturating_sub(2) / 6,
    }
}

/// Returns the number of ways to draw groups of these sizes, one after another, from `copies` cards.
fn draws(copies: u32, sizes: &[u8]) -> u128
    requires few { copies ≤ 468 }
    requires small { All (λ size. size ≤ 3) sizes.now }
    requires fits { sum sizes.now ≤ 14 }
    ensures ways { result ≡ draws copies sizes.now }
    ensures bound { result ≤ power 468 (sum sizes.now) }
{
    match sizes {
        [size, rest @ ..] => choose(copies, *size)
            * draws(copies.saturating_sub(u32::from(*size)), rest),
        [] => 1,
    }
}

/// Adds the sizes of the groups that a player sees, round by round.
fn push_seen(sizes: &mut Vec<u8>, rounds: &[Round]) -> Result<(), AllocError>
    ensures { OnOk result (sizes.new.items ≡ sizes.old.items ++ seen_sizes (map round_rules rounds.now)) }
{
    for round in rounds {
        sizes.push(round.private)?;
        sizes.push(round.public)?;
    }
    Ok(())
}

/// Adds the sizes of a player's own groups, round by round.
fn push_private(sizes: &mut Vec<u8>, rounds: &[Round]) -> Result<(), AllocError>
    ensures { OnOk result (sizes.new.items ≡ sizes.old.items ++ privates (map round_rules rounds.now)) }
{
    for round in rounds {
        sizes.push(round.private)?;
    }
    Ok(())
}

/// Returns the sizes of the groups of a deal: all that player 1 sees, then player 2's own groups.
fn sizes_of(alloc: Global, rounds: &[Round]) -> Result<Vec<u8>, AllocError>
    ensures { IfOk result (λ v. v.items ≡ deal_sizes (map round_rules rounds.now)) }
{
    let mut sizes = Vec::new(alloc);
    push_seen(&mut sizes, rounds)?;
    push_private(&mut sizes, rounds)?;
    Ok(sizes)
}

/// Checks that no round has more than 200,000 raw signals. Fails with the first round that has more. `left` is changed to count, and then restored.
#[tactic(auto, unfolding(crate::specs::Refusals::signals_refusal))]
fn check_signals(game: &Game, left: &mut [u8], sizes: &[u8]) -> Result<(), GameFault>
    requires few { length game.now.rounds.items ≤ 4 }
    requires left { left.old ≡ game.now.deck.counts }
    requires sizes { sizes.now ≡ deal_sizes (map round_rules game.now.rounds.items) }
    ensures refusal { MatchResult result (λ _. signals_refusal (game_of game.now) ≡ None) (IsFaultOf (signals_refusal (game_of game.now))) }
    ensures kept { left.new ≡ left.old }
{
    for round in 0..game.rounds.len() {
        let shown = &sizes[..2 * (round + 1)];
        if count_sequences(left, shown, 200_001) > 200_000 {
            return Err(GameFault::TooManySignals {
                round: round as u8 + 1,
            });
        }
    }
    Ok(())
}

/// Returns the number of sequences of groups of these sizes, 8,000,001 if there are more. `ways` is the number of ways to draw them: where no kind has more
/// than one copy, each sequence is drawn in one way.
fn count_deals(left: &mut [u8], sizes: &[u8], ways: u64) -> u64
    requires { ways ≡ draws (sum left.old) sizes.now }
    ensures count { result ≡ min (count_sequences left.old sizes.now) 8000001 }
    ensures kept { left.new ≡ left.old }
{
    if are_single(left) {
        ways.min(8_000_001)
    } else {
        count_sequences(left, sizes, 8_000_001)
    }
}

/// Returns the number of deals. Fails if some round has too many raw signals, or if there are too many deals. `weight` is the weight of all deals.
fn check_counts(game: &Game, left: &mut [u8], sizes: &[u8], weight: u64) -> Result<u32, GameFault>
    requires few { length game.now.rounds.items ≤ 4 }
    requires left { left.old ≡ game.now.deck.counts }
    requires sizes { sizes.now ≡ deal_sizes (map round_rules game.now.rounds.items) }
    requires weight { weight ≡ draws (sum game.now.deck.counts) sizes.now }
    ensures { MatchResult result (λ count. (first_of (signals_refusal (game_of game.now)) (deals_refusal (game_of game.now)) ≡ None)
        × (count ≡ length (deals (game_of game.now)))) (IsFaultOf (first_of (signals_refusal (game_of game.now)) (deals_refusal (game_of game.now)))) }
{
    check_signals(game, left, sizes)?;
    let count = count_deals(left, sizes, weight);
    if count > 8_000_000 {
        return Err(GameFault::TooManyDeals);
    }
    Ok(count as u32)
}

/// The number of a game's deals and the sum of their weights.
#[derive(Clone, Copy)]
pub struct DealTotals {
    pub count: u32,
    pub weight: u64,
}

/// Returns the number and the weight of all deals. Fails with the first refusal that applies to them: their weight, the raw signals of a round, their
/// number.
pub fn check_deals(alloc: Global, game: &Game) -> Result<DealTotals, GameError>
    requires cards { All HasFewCards game.now.rounds.items }
    requires checked { card_refusal (game_of game.now) ≡ None }
    ensures { MatchResult result (λ totals. (deal_refusal (game_of game.now) ≡ None) × (totals.weight ≡ total_weight (frame_of (game_of game.now)))
        × (totals.count ≡ length (deals (game_of game.now))) × IsDeck game.now.deck) (IsErrorOf (deal_refusal (game_of game.now))) }
{
    let counts = game.deck.counts();
    let sizes = sizes_of(alloc, &game.rounds)?;
    let weight = draws(all_copies(counts), &sizes);
    if weight > 67_108_864 {
        return Err(GameError::Fault(GameFault::TooHeavy { weight }));
    }
    let weight = weight as u64;
    let mut left = Vec::from_slice(alloc, counts)?;
    let count = check_counts(game, &mut left, &sizes, weight)?;
    Ok(DealTotals { count, weight })
}
