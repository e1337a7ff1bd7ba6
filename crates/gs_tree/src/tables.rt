//! The tables of all signals of a game.

ghost use Rattle.std.specs.Prelude.{◌≡◌, ◌≤◌, ◌<◌, ◌+◌, suc, [], ◌++◌, ◌/◌, ◌∷◌, All, IfOk, OnOk, length, map, string_bytes};
ghost use Rattle.gs_game.specs.Games.{game_of, round_rules};
ghost use Rattle.gs_model.specs.{Game.{round_count}, Signals.{signals, signal_at, left_by}};
ghost use Rattle.gs_model.specs.{Signals.{edge, parents as parents_in, showings}, Cards.{ways, left_after}};
ghost use Rattle.gs_card.specs.Decks.{IsDeck, kinds};
ghost use Rattle.gs_tree.specs.{Layers.{AreFew}, Texts.{signal_text}, Tables.{AreTables, IsLayer, IsNext, shown_in}};

use crate::layer::{Layer, push_showings, take_cards};
use crate::texts::push_seen;
use crate::ways::Ways;
use gs_card::{Card, Deck, times};
use gs_game::{Round, ValidGame};
use std::alloc::{AllocError, Global};

/// The signals of one round, each with its parent.
#[derive(Drop)]
pub(crate) struct Grown {
    pub(crate) parents: Vec<u32>,
    pub(crate) layer: Layer,
}

/// Returns an empty table of signals, with room for those of a round.
/// The room is reserved once: a list that doubles is copied.
fn none_grown(alloc: Global, room: usize, parents: usize) -> Result<Grown, AllocError>
    ensures parents { IfOk result (λ grown. grown.parents.items ≡ []) }
    ensures shown { IfOk result (λ grown. grown.layer.shown.items ≡ []) }
    ensures edges { IfOk result (λ grown. grown.layer.edges ≡ []) }
    ensures firsts { IfOk result (λ grown. grown.layer.firsts.items ≡ []) }
{
    Ok(Grown {
        parents: Vec::with_capacity(alloc, room)?,
        layer: Layer {
            shown: Vec::with_capacity(alloc, room)?,
            edges: Ways::new(alloc),
            firsts: Vec::with_capacity(alloc, parents)?,
        },
    })
}

/// Returns how many signals a round that shows one card may have, 200,000 at most. `count` is the number of signals before it.
fn room_for(count: u32, kinds: u8) -> usize {
    let all = u64::from(count) * u64::from(kinds);
    all.min(200_000) as usize
}

/// Adds the children of a signal, and the place of the first one. `left` has the copies that the signal leaves, and `parent` is its place.
fn push_children(
    alloc: Global,
    deck: &Deck,
    left: &[u8],
    next: &Round,
    parent: u32,
    grown: &mut Grown,
) -> Result<(), AllocError>
    requires counted { length left.now ≡ kinds deck.now }
    requires few_left { AreFew left.now }
    requires private { next.now.private ≤ 3 }
    requires public { next.now.public ≤ 3 }
    requires long { length grown.old.parents.items ≡ length grown.old.layer.shown.items }
    requires few { length grown.old.layer.shown.items ≤ 200000 }
    ensures shown { OnOk result (shown_in grown.new.layer ≡ shown_in grown.old.layer ++ showings left.now (round_rules next.now)) }
    ensures edges { OnOk result (grown.new.layer.edges ≡ grown.old.layer.edges ++ map (edge left.now) (showings left.now (round_rules next.now))) }
    ensures firsts { OnOk result (grown.new.layer.firsts.items ≡ grown.old.layer.firsts.items ++ length grown.old.layer.shown.items ∷ []) }
    ensures parents { OnOk result (grown.new.parents.items ≡ grown.old.parents.items ++ map (λ _. parent) (showings left.now (round_rules next.now))) }
    ensures long { OnOk result (length grown.new.parents.items ≡ length grown.new.layer.shown.items) }
{
    grown.layer.firsts.push(grown.layer.shown.len() as u32)?;
    push_showings(alloc, deck, left, next, &mut grown.layer)?;
    grown.parents.resize(grown.layer.shown.len(), parent)
}

/// The signals of all rounds, round by round.
#[derive(Drop)]
pub(crate) struct Tables {
    pub(crate) parents: Vec<Vec<u32>>,
    pub(crate) layers: Vec<Layer>,
}

impl Tables {
    /// Returns the tables of all signals of a game. Fails only if memory runs out.
    pub(crate) fn of(alloc: Global, valid: &ValidGame) -> Result<Tables, AllocError>
        ensures tables { IfOk result (λ t. AreTables (game_of valid.now.game) t.parents.items t.layers.items) }
        ensures all { IfOk result (λ t. length t.layers.items ≡ round_count (game_of valid.now.game)) }
    {
        let mut tables = Tables {
            parents: Vec::new(alloc),
            layers: Vec::new(alloc),
        };
        let mut count = 1u32;
        for next in &valid.game.rounds {
            let Grown { parents, layer } = tables.grow(alloc, valid, count, next)?;
            count = parents.len() as u32;
            tables.parents.push(parents)?;
            tables.layers.push(layer)?;
        }
        Ok(tables)
    }

    /// Returns the copies left once all cards of a signal are taken. Round 0 has the empty signal.
    fn copies_left(
        &self,
        alloc: Global,
        valid: &ValidGame,
        round: usize,
        signal: u32,
    ) -> Result<Vec<u8>, AllocError>
        requires tables { AreTables (game_of valid.now.game) self.now.parents.items self.now.layers.items }
        requires round_in { round ≤ length self.now.layers.items }
        requires signal_in { signal < length (signals (game_of valid.now.game) round) }
        ensures left { IfOk result (λ left. left.items ≡ left_by (game_of valid.now.game).copies (signal_at (game_of valid.now.game) round signal)) }
        ensures few { IfOk result (λ left. All (λ n. n ≤ 9) left.items) }
        ensures len { IfOk result (λ left. length left.items ≡ length (game_of valid.now.game).copies) }
    {
        if round == 0 {
            return Vec::from_slice(alloc, valid.game.deck.counts());
        }
        let shown = &self.layers[round - 1].shown[signal as usize];
        let parent = self.parents[round - 1][signal as usize];
        let mut left = self.copies_left(alloc, valid, round - 1, parent)?;
        take_cards(&mut left, shown.own.cards());
        take_cards(&mut left, shown.public.cards());
        Ok(left)
    }

    /// Adds the signals of the round after those in the tables to `grown`, which has none yet; `count` is the number of signals of the last one.
    fn push_round(
        &self,
        alloc: Global,
        valid: &ValidGame,
        count: u32,
        next: &Round,
        grown: &mut Grown,
    ) -> Result<(), AllocError>
        requires tables { AreTables (game_of valid.now.game) self.now.parents.items self.now.layers.items }
        requires next { IsNext (game_of valid.now.game) (length self.now.layers.items) count (round_rules next.now) }
        requires no_parents { grown.old.parents.items ≡ [] }
        requires no_shown { grown.old.layer.shown.items ≡ [] }
        requires no_edges { grown.old.layer.edges ≡ [] }
        requires no_firsts { grown.old.layer.firsts.items ≡ [] }
        ensures parents { OnOk result (grown.new.parents.items ≡ parents_in (game_of valid.now.game) (suc (length self.now.layers.items))) }
        ensures layer { OnOk result (IsLayer (game_of valid.now.game) (length self.now.layers.items) grown.new.layer) }
    {
        let round = self.layers.len();
        for parent in 0..count {
            let left = self.copies_left(alloc, valid, round, parent)?;
            push_children(alloc, &valid.game.deck, &left, next, parent, grown)?;
        }
        grown.layer.firsts.push(grown.layer.shown.len() as u32)?;
        Ok(())
    }

    /// Returns the signals of the round after those in the tables; `count` is the number of signals of the last one.
    fn grow(
        &self,
        alloc: Global,
        valid: &ValidGame,
        count: u32,
        next: &Round,
    ) -> Result<Grown, AllocError>
        requires tables { AreTables (game_of valid.now.game) self.now.parents.items self.now.layers.items }
        requires next { IsNext (game_of valid.now.game) (length self.now.layers.items) count (round_rules next.now) }
        ensures parents { IfOk result (λ grown. grown.parents.items ≡ parents_in (game_of valid.now.game) (suc (length self.now.layers.items))) }
        ensures layer { IfOk result (λ grown. IsLayer (game_of valid.now.game) (length self.now.layers.items) grown.layer) }
    {
        let room = room_for(count, valid.game.deck.kinds());
        let mut grown = none_grown(alloc, room, count as usize + 1)?;
        self.push_round(alloc, valid, count, next, &mut grown)?;
        Ok(grown)
    }

    /// Adds the text of a signal to `text`: a part for each round, joined by `/`.
    pub(crate) fn push_signal(
        &self,
        text: &mut String,
        valid: &ValidGame,
        round: usize,
        signal: u32,
    ) -> Result<(), AllocError>
        requires tables { AreTables (game_of valid.now.game) self.now.parents.items self.now.layers.items }
        requires some { 0 < round }
        requires round_in { round ≤ length self.now.layers.items }
        requires signal_in { signal < length (signals (game_of valid.now.game) round) }
        ensures { OnOk result (string_bytes text.new ≡ string_bytes text.old ++ signal_text valid.now.game.deck
            (signal_at (game_of valid.now.game) round signal)) }
    {
        let layer = &self.layers[round - 1];
        let shown = &layer.shown[signal as usize];
        if round == 1 {
            return push_seen(text, &valid.game.deck, shown);
        }
        let parent = self.parents[round - 1][signal as usize];
        self.push_signal(text, valid, round - 1, parent)?;
        text.push('/')?;
        push_seen(text, &valid.game.deck, shown)
    }
}

/// Returns the product divided by `again + 1`: the order of equal cards in a group does not count.
fn shared(product: u64, again: u64) -> u64
    requires few { again ≤ 3 }
    ensures { result ≡ product / (again + 1) }
{
    if again == 0 {
        product
    } else {
        product / (again + 1)
    }
}

/// Returns the number of ways to take an own group. The other player's own cards, the public cards and earlier own cards have been taken before.
pub(crate) fn ways_beside(
    deck: &Deck,
    held: &[Card],
    board: &[Card],
    before: &[Card],
    own: &[Card],
) -> u64
    requires deck { IsDeck deck.now }
    requires own_in { All (λ card. card < kinds deck.now) own.now }
    requires own_few { length own.now ≤ 3 }
    ensures value { result ≡ ways (left_after (left_after (left_after deck.now.counts held.now) board.now) before.now) own.now }
    ensures small { result ≤ 729 }
{
    let mut ways: u64 = 1;
    for (i, card) in own.iter().enumerate() {
        let again = times(&own[..i], *card);
        let rest = u64::from(deck.count(*card))
            .saturating_sub(times(held, *card))
            .saturating_sub(times(board, *card))
            .saturating_sub(times(before, *card))
            .saturating_sub(again);
        ways = shared(ways * rest, again);
    }
    ways
}
