//! Last-round signals that show the same public cards.

ghost use Rattle.std.specs.Prelude.{◌≡◌, ◌≤◌, ◌<◌, All, ◌^◌, IfOk, IfSome, length, replicate, slice_set};
ghost use Rattle.gs_card.specs.{Decks.{kinds}, declared.faults.TheConstants.{MOST_KINDS}};
ghost use Rattle.gs_game.specs.Games.{game_of};
ghost use Rattle.gs_model.specs.{Game.{round_count}, Signals.{public_cards, signal_at}};
ghost use Rattle.gs_tree.specs.{Boards.{AreBoards, code_behind, first_on_board, linked, seen_last}, Kept.{AreHands}, Walk.{last_count}};

use crate::kept::{Hands, part};
use gs_card::Card;
use gs_game::ValidGame;
use std::alloc::{AllocError, Global};
use std::collections::HashMap;

/// For each last-round signal the first and the next signal that show the same public cards.
#[derive(Drop)]
pub(crate) struct Boards {
    // the first one
    pub(crate) firsts: Vec<u32>,
    // the next one, or the number of all signals if no other follows
    pub(crate) nexts: Vec<u32>,
}

/// Returns the numbers of cards.
fn numbers_of(alloc: Global, cards: &[Card]) -> Result<Vec<u8>, AllocError>
    ensures { IfOk result (λ v. v.items ≡ cards.now) }
{
    cards.iter().map(|card| card.number()).collect(alloc)
}

/// Returns the public cards that a last-round signal shows.
fn board_of(
    alloc: Global,
    valid: &ValidGame,
    hands: &Hands,
    signal: u32,
) -> Result<Vec<u8>, AllocError>
    requires hands { AreHands (game_of valid.now.game) (round_count (game_of valid.now.game)) hands.now }
    requires signal_in { signal < last_count (game_of valid.now.game) }
    ensures { IfOk result (λ v. v.items ≡ public_cards (signal_at (game_of valid.now.game) (round_count (game_of valid.now.game)) signal)) }
{
    let public = part(&hands.publics, hands.public, signal);
    numbers_of(alloc, public)
}

/// Returns the signal that an entry of a table names, none where the entry is not below `count`.
fn seen_last(count: u32, entry: u32) -> Option<u32>
    ensures { result ≡ seen_last count entry }
{
    if entry < count { Some(entry) } else { None }
}

/// Returns how many lists of this many cards there are.
fn code_count(kinds: usize, cards: usize) -> usize
    requires few_kinds { kinds ≤ MOST_KINDS }
    requires few_cards { cards ≤ 3 }
    ensures { result ≡ kinds ^ cards }
{
    let mut count = 1;
    for _ in 0..cards {
        count *= kinds;
    }
    count
}

/// Returns a table of last signals that names none: each entry is `count`.
fn none_seen(alloc: Global, count: u32, places: usize) -> Result<Vec<u32>, AllocError>
    ensures { IfOk result (λ v. v.items ≡ replicate places count) }
{
    vec![in alloc; count; places]
}

/// Returns the number of a list of cards among all lists of the same length.
fn code(kinds: usize, cards: &[Card]) -> usize
    requires few_kinds { kinds ≤ MOST_KINDS }
    requires few_cards { length cards.now ≤ 3 }
    requires of_deck { All (λ card. card < kinds) cards.now }
    ensures { result ≡ code_behind kinds 0 cards.now }
{
    match cards {
        [] => 0,
        [a] => usize::from(a.number()),
        [a, b] => usize::from(a.number()) * kinds + usize::from(b.number()),
        [a, b, c, ..] => {
            let front = usize::from(a.number()) * kinds + usize::from(b.number());
            front * kinds + usize::from(c.number())
        }
    }
}

/// Returns the number of the public cards that a last-round signal shows.
fn board_code(valid: &ValidGame, hands: &Hands, signal: u32) -> usize
    requires hands { AreHands (game_of valid.now.game) (round_count (game_of valid.now.game)) hands.now }
    requires few { hands.now.public ≤ 3 }
    requires signal_in { signal < last_count (game_of valid.now.game) }
    ensures { result ≡ code_behind (kinds valid.now.game.deck) 0 (public_cards (signal_at (game_of valid.now.game) (round_count (game_of valid.now.game))
        signal)) }
{
    let kinds = usize::from(valid.game.deck.kinds());
    code(kinds, part(&hands.publics, hands.public, signal))
}

/// Returns boards without links, with a place for each signal.
fn none_linked(alloc: Global, count: u32) -> Result<Boards, AllocError>
    ensures firsts { IfOk result (λ b. b.firsts.items ≡ replicate count count) }
    ensures nexts { IfOk result (λ b. b.nexts.items ≡ replicate count count) }
{
    Ok(Boards {
        firsts: none_seen(alloc, count, count as usize)?,
        nexts: none_seen(alloc, count, count as usize)?,
    })
}

/// Links the next signal to the last one before it that shows the same public cards.
fn link(boards: &mut Boards, before: Option<u32>, signal: u32)
    requires long { length boards.old.nexts.items ≡ length boards.old.firsts.items }
    requires signal_in { signal < length boards.old.firsts.items }
    requires before_in { IfSome before (λ last. last < signal) }
    ensures firsts { boards.new.firsts.items ≡ slice_set boards.old.firsts.items signal (first_on_board before signal boards.old.firsts.items) }
    ensures nexts { boards.new.nexts.items ≡ linked before signal boards.old.nexts.items }
{
    let first = match before {
        Some(last) => {
            boards.nexts[last as usize] = signal;
            boards.firsts[last as usize]
        }
        None => signal,
    };
    boards.firsts[signal as usize] = first;
}

/// Links the last-round signals that show the same public cards, at most three. A table has a place for each list of that many cards.
fn link_by_table(alloc: Global, valid: &ValidGame, hands: &Hands) -> Result<Boards, AllocError>
    requires hands { AreHands (game_of valid.now.game) (round_count (game_of valid.now.game)) hands.now }
    requires few { hands.now.public ≤ 3 }
    ensures { IfOk result (λ b. AreBoards (game_of valid.now.game) b.firsts.items b.nexts.items) }
{
    let count = hands.paths.len() as u32;
    let kinds = usize::from(valid.game.deck.kinds());
    let mut boards = none_linked(alloc, count)?;
    // for each list of cards the last signal so far that shows it, or the number of all signals if none does
    let mut last = none_seen(alloc, count, code_count(kinds, hands.public))?;
    for signal in 0..count {
        let code = board_code(valid, hands, signal);
        let before = seen_last(count, last[code]);
        last[code] = signal;
        link(&mut boards, before, signal);
    }
    Ok(boards)
}

/// Links the last-round signals that show the same public cards, by a map from boards to the last signal on each.
fn link_by_map(alloc: Global, valid: &ValidGame, hands: &Hands) -> Result<Boards, AllocError>
    requires hands { AreHands (game_of valid.now.game) (round_count (game_of valid.now.game)) hands.now }
    ensures { IfOk result (λ b. AreBoards (game_of valid.now.game) b.firsts.items b.nexts.items) }
{
    let count = hands.paths.len() as u32;
    let mut boards = none_linked(alloc, count)?;
    let mut seen = HashMap::new(alloc);
    for signal in 0..count {
        let board = board_of(alloc, valid, hands, signal)?;
        let before = seen.insert(board, signal)?;
        link(&mut boards, before, signal);
    }
    Ok(boards)
}

/// Links the last-round signals that show the same public cards. Fails only if memory runs out.
pub(crate) fn link_boards(
    alloc: Global,
    valid: &ValidGame,
    hands: &Hands,
) -> Result<Boards, AllocError>
    requires hands { AreHands (game_of valid.now.game) (round_count (game_of valid.now.game)) hands.now }
    ensures { IfOk result (λ b. AreBoards (game_of valid.now.game) b.firsts.items b.nexts.items) }
{
    if hands.public <= 3 {
        link_by_table(alloc, valid, hands)
    } else {
        link_by_map(alloc, valid, hands)
    }
}
