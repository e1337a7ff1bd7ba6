//! What is kept of the last-round signals to weigh deals: the ways to take what each shows, and their cards.

ghost use Rattle.std.specs.Prelude.{◌≡◌, ◌≤◌, ◌<◌, ◌+◌, ◌*◌, ◌++◌, ◌∷◌, ℕ, [], suc, All, IfOk, OnOk, drop, flat_map, length, map, slice_index, take};
ghost use Rattle.gs_game.specs.Games.{game_of, round_rules};
ghost use Rattle.gs_model.specs.{Deals.{path_weight}, Game.{round_count}, Signals.{signal_at, signals}};
ghost use Rattle.gs_tree.specs.{Kept.{AreHands}, Layers.{last_seen}, Shown.{cards_on, seen_on, shown_by}, Tables.{AreTables}};

use crate::layer::Pile;
use crate::tables::Tables;
use crate::ways::Ways;
use gs_card::Card;
use gs_game::{Round, ValidGame};
use std::alloc::{AllocError, Global};

/// The cards of a round's signals, and the ways to take all that each signal shows. The cards of the signals follow one another, and all signals have
/// equally many.
#[derive(Drop)]
pub(crate) struct Hands {
    pub(crate) paths: Ways,
    pub(crate) owns: Vec<Card>,
    pub(crate) publics: Vec<Card>,
    // how many own cards each has, and how many public ones
    pub(crate) own: usize,
    pub(crate) public: usize,
}

/// Returns the one way to take nothing, for the empty signal before round 1.
fn first_path(alloc: Global) -> Result<Ways, AllocError>
    ensures { IfOk result (λ w. w ≡ 1 ∷ []) }
{
    let mut paths = Ways::new(alloc);
    paths.push(1)?;
    Ok(paths)
}

/// Returns for each signal of a round the ways to take all that it shows, from the ways of the round before it.
fn next_paths(
    alloc: Global,
    valid: &ValidGame,
    tables: &Tables,
    round: usize,
    before: &Ways,
) -> Result<Ways, AllocError>
    requires tables { AreTables (game_of valid.now.game) tables.now.parents.items tables.now.layers.items }
    requires all { length tables.now.layers.items ≡ round_count (game_of valid.now.game) }
    requires round_in { round < length tables.now.layers.items }
    requires before { before.now ≡ map (path_weight (game_of valid.now.game).copies) (signals (game_of valid.now.game) round) }
    ensures { IfOk result (λ w. w ≡ map (path_weight (game_of valid.now.game).copies) (signals (game_of valid.now.game) (suc round))) }
{
    let parents = &tables.parents[round];
    let edges = &tables.layers[round].edges;
    if let (Some(_), Some(count)) = (before.ones(), edges.ones()) {
        return Ok(Ways::all_ones(alloc, count));
    }
    let mut paths = Ways::new(alloc);
    for signal in 0..edges.len() {
        let path = before.of(parents[signal] as usize);
        paths.push(path * edges.of(signal))?;
    }
    Ok(paths)
}

/// Returns one of the equal parts of some cards, by its place.
pub(crate) fn part(cards: &[Card], each: usize, place: u32) -> &[Card]
    requires { place * each + each ≤ length cards.now }
    ensures { result.now ≡ take each (drop (place * each) cards.now) }
{
    let start = place as usize * each;
    &cards[start..start + each]
}

/// Adds a few cards at the end of others, one by one.
#[inline(always)]
fn push_each(cards: &mut Vec<Card>, more: &[Card]) -> Result<(), AllocError>
    ensures { OnOk result (cards.new.items ≡ cards.old.items ++ more.now) }
{
    for card in more {
        cards.push(*card)?;
    }
    Ok(())
}

/// Returns the card of each signal's parent, where each signal of the round before has one card.
fn parent_cards(alloc: Global, parents: &[u32], before: &[Card]) -> Result<Vec<Card>, AllocError>
    requires { All (λ parent. parent < length before.now) parents.now }
    ensures { IfOk result (λ v. v.items ≡ map (slice_index before.now) parents.now) }
{
    let mut cards = Vec::with_capacity(alloc, parents.len())?;
    for parent in parents {
        cards.push(before[*parent as usize])?;
    }
    Ok(cards)
}

/// Returns the number of cards that a round shows in one pile.
fn cards_shown(round: &Round, pile: Pile) -> usize
    ensures { result ≡ shown_by pile (round_rules round.now) }
{
    match pile {
        Pile::Own => usize::from(round.private),
        Pile::Public => usize::from(round.public),
    }
}

/// Returns the cards in one pile of the signals of round `round + 1`. Each signal has the one card of its parent and shows one more.
fn paired_cards(
    alloc: Global,
    valid: &ValidGame,
    tables: &Tables,
    round: usize,
    before: &[Card],
    pile: Pile,
) -> Result<Vec<Card>, AllocError>
    requires tables { AreTables (game_of valid.now.game) tables.now.parents.items tables.now.layers.items }
    requires round_in { round < length tables.now.layers.items }
    requires before { before.now ≡ flat_map (cards_on pile) (signals (game_of valid.now.game) round) }
    requires each { (i : ℕ) → i < length (signals (game_of valid.now.game) round) → length (cards_on pile (signal_at (game_of valid.now.game) round i)) ≡ 1 }
    requires more { (i : ℕ) → i < length (signals (game_of valid.now.game) (suc round))
        → length (seen_on pile (last_seen (signal_at (game_of valid.now.game) (suc round) i))) ≡ 1 }
    ensures { IfOk result (λ v. v.items ≡ flat_map (cards_on pile) (signals (game_of valid.now.game) (suc round))) }
{
    let parents = &tables.parents[round];
    let shown = &tables.layers[round].shown;
    let mut cards = Vec::with_capacity(alloc, shown.len().saturating_mul(2))?;
    for (signal, last) in shown.iter().enumerate() {
        cards.push(before[parents[signal] as usize])?;
        cards.push(last.on(pile)[0])?;
    }
    Ok(cards)
}

/// Returns the cards in one pile of the signals of round `round + 1`, from those of the round before. Each signal has its parent's cards and those that its
/// last round shows.
/// One own card and one more card have loops of their own: a loop over parts of any length takes three times as long for each signal.
fn next_cards(
    alloc: Global,
    valid: &ValidGame,
    tables: &Tables,
    round: usize,
    before: &[Card],
    each: usize,
    pile: Pile,
) -> Result<Vec<Card>, AllocError>
    requires tables { AreTables (game_of valid.now.game) tables.now.parents.items tables.now.layers.items }
    requires all { length tables.now.layers.items ≡ round_count (game_of valid.now.game) }
    requires round_in { round < length tables.now.layers.items }
    requires before { before.now ≡ flat_map (cards_on pile) (signals (game_of valid.now.game) round) }
    requires each { (i : ℕ) → i < length (signals (game_of valid.now.game) round) → length (cards_on pile (signal_at (game_of valid.now.game) round i)) ≡ each }
    ensures { IfOk result (λ v. v.items ≡ flat_map (cards_on pile) (signals (game_of valid.now.game) (suc round))) }
{
    let parents = &tables.parents[round];
    let shown = &tables.layers[round].shown;
    let now = &valid.game.rounds[round];
    let more = cards_shown(now, pile);
    if each == 1 && more == 0 {
        return parent_cards(alloc, parents, before);
    }
    if each == 1 && more == 1 {
        return paired_cards(alloc, valid, tables, round, before, pile);
    }
    let room = shown.len().saturating_mul(each.saturating_add(more));
    let mut cards = Vec::with_capacity(alloc, room)?;
    for (signal, last) in shown.iter().enumerate() {
        let parent = part(before, each, parents[signal]);
        push_each(&mut cards, parent)?;
        push_each(&mut cards, last.on(pile))?;
    }
    Ok(cards)
}

/// Returns the hands of the signals of round `round + 1`, from the hands of the round before.
fn next_hands(
    alloc: Global,
    valid: &ValidGame,
    tables: &Tables,
    round: usize,
    before: &Hands,
) -> Result<Hands, AllocError>
    requires tables { AreTables (game_of valid.now.game) tables.now.parents.items tables.now.layers.items }
    requires all { length tables.now.layers.items ≡ round_count (game_of valid.now.game) }
    requires round_in { round < length tables.now.layers.items }
    requires before { AreHands (game_of valid.now.game) round before.now }
    ensures { IfOk result (AreHands (game_of valid.now.game) (suc round)) }
{
    let paths = next_paths(alloc, valid, tables, round, &before.paths)?;
    let owns = next_cards(
        alloc,
        valid,
        tables,
        round,
        &before.owns,
        before.own,
        Pile::Own,
    )?;
    let publics = next_cards(
        alloc,
        valid,
        tables,
        round,
        &before.publics,
        before.public,
        Pile::Public,
    )?;
    let each = paths.len().max(1);
    let own = owns.len() / each;
    let public = publics.len() / each;
    Ok(Hands {
        paths,
        owns,
        publics,
        own,
        public,
    })
}

/// Returns the hands of the last-round signals, made round by round from the empty hand. Fails only if memory runs out.
pub(crate) fn gather(alloc: Global, valid: &ValidGame, tables: &Tables) -> Result<Hands, AllocError>
    requires tables { AreTables (game_of valid.now.game) tables.now.parents.items tables.now.layers.items }
    requires all { length tables.now.layers.items ≡ round_count (game_of valid.now.game) }
    ensures { IfOk result (AreHands (game_of valid.now.game) (round_count (game_of valid.now.game))) }
{
    let paths = first_path(alloc)?;
    let owns = Vec::new(alloc);
    let publics = Vec::new(alloc);
    let mut hands = Hands {
        paths,
        owns,
        publics,
        own: 0,
        public: 0,
    };
    for round in 0..tables.layers.len() {
        hands = next_hands(alloc, valid, tables, round, &hands)?;
    }
    Ok(hands)
}
