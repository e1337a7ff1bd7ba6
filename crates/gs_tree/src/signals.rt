//! The raw signals of a game, round by round.

ghost use Rattle.std.specs.{Prelude.{◌≡◌, ◌==◌, if◌then◌else◌, All, IfOk, IsTrue, MatchBool, MatchOption, map, length}, List.{range_with_len}};
ghost use Rattle.std.proofs.Props.{props};
ghost use Rattle.gs_model.specs.{Game.{round_count}, Signals.{parents as parents_in, signals}, ViewTree.{signal_strength}};
ghost use Rattle.gs_card.specs.Rankings.{ranking_of};
ghost use Rattle.gs_rank.specs.Hands.{IsStrength};
ghost use Rattle.gs_game.specs.Games.{game_of};
ghost use Rattle.gs_tree.specs.{Signals.{AreSignals}};

use crate::boards::{Boards, link_boards};
use crate::deal::Deal;
use crate::deals::Deals;
use crate::kept::{Hands, gather, part};
use crate::masks::{apart, masks_of};
use crate::ranked::{is_plain, strengths};
use crate::reading::is_text_of;
use crate::tables::{Tables, ways_beside};
use crate::texts::push_seen;
use gs_card::{Card, Deck};
use gs_game::ValidGame;
use gs_rank::outcome;
use std::alloc::{AllocError, Global};

/// Returns the weight of the deal of two signals that show the same public cards, where any two different ones are equally likely: 0 for a signal with
/// itself, else 1.
fn pair_weight(one: u32, two: u32) -> u64
    ensures { result ≡ if two == one then 0 else 1 }
{
    if one == two { 0 } else { 1 }
}

/// The raw signals of a game.
///
/// A raw signal of round `j` is what one player sees up to that round: the own groups and the public groups of rounds 1 to `j`. Rounds count from 1. The
/// signals of a round are named by their places, from 0. They are in lexicographic order of what they show, round by round and the own group first.
#[derive(Drop)]
pub struct Signals<'g> {
    pub game: &'g ValidGame,
    tables: Tables,
    // of the hands of the last round's signals
    strengths: Vec<u32>,
    boards: Boards,
    hands: Hands,
    // whether any two different signals that show the same public cards are equally likely
    plain: bool,
    // the own cards of each last-round signal as bits, if no kind of card has more than one copy and each player is dealt more than one private card
    masks: Option<Vec<u64>>,
    ghost sound: { AreSignals game.now.game tables strengths.items boards hands plain masks } by { Prim.hlevel props },
}

/// Returns for each round of a game the parent of each signal, as a place in the round before; in round 1 these are zeros. Fails only if memory runs out.
pub fn parents_of(alloc: Global, game: &ValidGame) -> Result<Vec<Vec<u32>>, AllocError>
    ensures { IfOk result (λ v. map (λ p. p.items) v.items
        ≡ map (parents_in (game_of game.now.game)) (range_with_len 1 (round_count (game_of game.now.game)))) }
{
    Ok(Tables::of(alloc, game)?.parents)
}

impl<'g> Signals<'g> {
    ghost use Rattle.std.specs.Prelude.{◌≡◌, ◌≤◌, ◌<◌, ◌+◌, ◌-◌, ◌++◌, ◌*◌, ◌==◌, ◌↔◌, ℕ, true, EachIndex, IfOk, IfSome, IsTrue, MatchOption, OnOk};
    ghost use Rattle.std.specs.Prelude.{slice_index, filter, map, length, string_bytes};
    ghost use Rattle.std.specs.List.{range_with_len};
    ghost use Rattle.gs_model.specs.Game.{round_count};
    ghost use Rattle.gs_model.specs.Signals.{signals, parents as parents_in, signal_at, child_count, first_child, last_edge, left_by, own_cards, public_cards};
    ghost use Rattle.gs_model.specs.{ViewTree.{signal_strength}, Deals.{Deal as Dealt, deals, own_ways, path_weight}};
    ghost use Rattle.gs_tree.specs.{Boards.{AreBoards}, Masks.{AreMasks, HasMasks}, Plain.{IsPlain}, Texts.{signal_text}, Trees.{rules_of, deck_of}};
    ghost use Rattle.gs_tree.specs.Walk.{deal_at, last_count, IsNextPair, IsPair, IsRowStart};

    /// Returns the signals of a valid game. Fails only if memory runs out.
    pub fn of(alloc: Global, game: &'g ValidGame) -> Result<Signals<'g>, AllocError>
        ensures { IfOk result (λ s. s.game.now ≡ game.entry.now) }
    {
        let tables = Tables::of(alloc, game)?;
        let hands = gather(alloc, game, &tables)?;
        let strengths = strengths(alloc, game, &hands)?;
        let boards = link_boards(alloc, game, &hands)?;
        let plain = is_plain(game, &hands);
        let masks = masks_of(alloc, game, &hands)?;
        Ok(Signals {
            game,
            tables,
            strengths,
            boards,
            hands,
            plain,
            masks,
        })
    }

    // Returns the deck of the game.
    fn deck(&self) -> &'g Deck
        ensures { result.now ≡ deck_of self.now }
    {
        &self.game.game().deck
    }

    /// Returns the game whose signals these are.
    pub fn game(&self) -> &'g ValidGame
        ensures { result.now ≡ self.now.game.now }
    {
        self.game
    }

    /// Returns the number of rounds of the game, 1 to 4.
    pub fn rounds(&self) -> u8
        ensures value { result ≡ round_count (rules_of self.now) }
        ensures some { 0 < result }
        ensures few { result ≤ 4 }
    {
        self.tables.layers.len() as u8
    }

    /// Returns the number of raw signals of a round, at most 200,000.
    pub fn count(&self, round: u8) -> u32
        requires some { 0 < round }
        requires in_range { round ≤ round_count (rules_of self.now) }
        ensures value { result ≡ length (signals (rules_of self.now) round) }
        ensures few { result ≤ 200000 }
    {
        self.tables.layers[usize::from(round) - 1].shown.len() as u32
    }

    /// Returns for each round the parent of each signal, as a place in the round before; in round 1 these are zeros.
    pub fn parents(&self) -> &[Vec<u32>]
        ensures { map (λ v. v.items) result.now ≡ map (parents_in (rules_of self.now)) (range_with_len 1 (round_count (rules_of self.now))) }
    {
        &self.tables.parents
    }

    /// Returns the parent of each signal of a round, as a place in the round before; in round 1 these are zeros.
    pub fn parents_in(&self, round: u8) -> &[u32]
        requires some { 0 < round }
        requires last { round ≤ round_count (rules_of self.now) }
        ensures { result.now ≡ parents_in (rules_of self.now) round }
    {
        &self.tables.parents[usize::from(round) - 1]
    }

    /// Returns the children of a signal of a round before the last: the place of the first one in the next round, and one past the last.
    pub fn children(&self, round: u8, signal: u32) -> (u32, u32)
        requires some { 0 < round }
        requires before_last { round < round_count (rules_of self.now) }
        requires in_range { signal < length (signals (rules_of self.now) round) }
        ensures first { result.0 ≡ first_child (rules_of self.now) round signal }
        ensures end { result.1 ≡ first_child (rules_of self.now) round signal + child_count (rules_of self.now) round signal }
    {
        let firsts = &self.tables.layers[usize::from(round)].firsts;
        (firsts[signal as usize], firsts[signal as usize + 1])
    }

    /// Returns the number of ways to take a signal's last own and public groups from the copies that its parent leaves.
    pub fn edge(&self, round: u8, signal: u32) -> u64
        requires some { 0 < round }
        requires last { round ≤ round_count (rules_of self.now) }
        requires in_range { signal < length (signals (rules_of self.now) round) }
        ensures { result ≡ last_edge (rules_of self.now).copies (signal_at (rules_of self.now) round signal) }
    {
        self.tables.layers[usize::from(round) - 1]
            .edges
            .of(signal as usize)
    }

    /// Returns whether the edge to each signal of a round weighs 1.
    pub fn are_light(&self, round: u8) -> bool
        requires some { 0 < round }
        requires last { round ≤ round_count (rules_of self.now) }
        ensures { IsTrue result ↔ EachIndex (signals (rules_of self.now) round)
            (λ signal. last_edge (rules_of self.now).copies (signal_at (rules_of self.now) round signal) ≡ 1) }
    {
        self.tables.layers[usize::from(round) - 1].edges.are_ones()
    }

    /// Returns the number of ways to take all that a last-round signal shows: the product of the edge weights on the way to it.
    /// Isomorphism divides the weights of deals by it.
    pub fn path_weight(&self, signal: u32) -> u64
        requires { signal < length (signals (rules_of self.now) (round_count (rules_of self.now))) }
        ensures value { result ≡ path_weight (rules_of self.now).copies (signal_at (rules_of self.now) (round_count (rules_of self.now)) signal) }
        ensures some { 0 < result }
    {
        self.hands.paths.of(signal as usize)
    }

    /// Returns the strength of the hand that a last-round signal holds: the greater strength wins.
    pub fn strength(&self, signal: u32) -> u32
        requires { signal < length (signals (rules_of self.now) (round_count (rules_of self.now))) }
        ensures value { result ≡ signal_strength (rules_of self.now) (signal_at (rules_of self.now) (round_count (rules_of self.now)) signal) }
        ensures within { IsStrength (ranking_of self.now.game.now.game.ranking) result }
    {
        self.strengths[signal as usize]
    }

    /// Returns the strengths of the hands of all last-round signals.
    pub fn strengths(&self) -> &[u32]
        ensures { result.now ≡ map (signal_strength (rules_of self.now)) (signals (rules_of self.now) (round_count (rules_of self.now))) }
    {
        &self.strengths
    }

    /// Returns, for each last-round signal, the first signal that shows the same public cards, and the next one. If no other follows, the next one is the
    /// number of all signals.
    pub fn boards(&self) -> (&[u32], &[u32])
        ensures { AreBoards (rules_of self.now) result.0.now result.1.now }
    {
        (&self.boards.firsts, &self.boards.nexts)
    }

    /// Returns the own cards of each last-round signal as bits, if no kind of card has more than one copy and each player is dealt more than one private card.
    pub fn masks(&self) -> Option<&[u64]>
        ensures { MatchOption result (HasMasks (rules_of self.now) → last_count (rules_of self.now) ≡ 0)
            (λ masks. AreMasks (rules_of self.now) masks.now) }
    {
        match &self.masks {
            Some(masks) => Some(masks.as_slice()),
            None => None,
        }
    }

    /// Returns whether no kind of card has more than one copy and each player is dealt one private card.
    pub fn is_plain(&self) -> bool
        ensures { MatchBool result (IsPlain (rules_of self.now)) (IsPlain (rules_of self.now) → last_count (rules_of self.now) ≡ 0) }
    {
        is_plain(self.game, &self.hands)
    }

    /// Returns the text of a signal: a part for each round, joined by `/`. A part has the own cards and then, if there are any, `+` and the public cards.
    /// Fails only if memory runs out.
    pub fn text(&self, alloc: Global, round: u8, signal: u32) -> Result<String, AllocError>
        requires some { 0 < round }
        requires last { round ≤ round_count (rules_of self.now) }
        requires in_range { signal < length (signals (rules_of self.now) round) }
        ensures { IfOk result (λ t. string_bytes t ≡ signal_text (deck_of self.now) (signal_at (rules_of self.now) round signal)) }
    {
        let mut text = String::new(alloc);
        self.tables
            .push_signal(&mut text, self.game, usize::from(round), signal)?;
        Ok(text)
    }

    /// Adds the text of a signal of round 2 or later to `text`: `parent`, the text of its parent, then `/` and what the signal shows last. Fails only if
    /// memory runs out.
    /// So the parents of a signal are not walked again for its text.
    pub fn push_text_below(
        &self,
        text: &mut String,
        round: u8,
        signal: u32,
        parent: &str,
    ) -> Result<(), AllocError>
        requires later { 1 < round }
        requires last { round ≤ round_count (rules_of self.now) }
        requires in_range { signal < length (signals (rules_of self.now) round) }
        requires parent { parent.now ≡ signal_text (deck_of self.now) (signal_at (rules_of self.now) (round - 1)
            (slice_index (parents_in (rules_of self.now) round) signal)) }
        ensures { OnOk result (string_bytes text.new ≡ string_bytes text.old ++ signal_text (deck_of self.now) (signal_at (rules_of self.now) round signal)) }
    {
        let deck = self.deck();
        let layer = &self.tables.layers[usize::from(round) - 1];
        let shown = &layer.shown[signal as usize];
        text.push_str(parent)?;
        text.push('/')?;
        push_seen(text, deck, shown)
    }

    /// Returns the signal of a round with this text, none where no signal has it. It takes no memory, and may read all signals of the round.
    /// A query asks once, so no table is kept for it.
    pub fn index_of(&self, round: u8, text: &str) -> Option<u32>
        requires some { 0 < round }
        requires last { round ≤ round_count (rules_of self.now) }
        ensures found { IfSome result (λ i. (i < length (signals (rules_of self.now) round))
            × (text.now ≡ signal_text (deck_of self.now) (signal_at (rules_of self.now) round i))) }
        ensures only { (i : ℕ) → i < length (signals (rules_of self.now) round)
            → text.now ≡ signal_text (deck_of self.now) (signal_at (rules_of self.now) round i) → result ≡ Some i }
    {
        let bytes = text.as_bytes();
        for signal in 0..self.count(round) {
            if is_text_of(bytes, self.game, &self.tables, usize::from(round), signal) {
                return Some(signal);
            }
        }
        None
    }

    /// Returns the number of raw signals of the last round, at most 200,000.
    pub(crate) fn last_count(&self) -> u32
        ensures value { result ≡ last_count (rules_of self.now) }
        ensures few { result ≤ 200000 }
    {
        self.count(self.rounds())
    }

    // Returns the deal of two last-round signals that show the same public cards; it weighs 0 where it is impossible.
    pub(crate) fn deal(&self, one: u32, two: u32) -> Deal
        requires { IsPair (rules_of self.now) one two }
        ensures { result ≡ deal_at (rules_of self.now) one two }
    {
        let game = self.game.game();
        let outcome = outcome(
            &game.bonus,
            game.ranking,
            self.strength(one),
            self.strength(two),
        );
        let weight = self.weight(one, two);
        Deal {
            one,
            two,
            weight,
            outcome,
        }
    }

    // Returns the own cards of a last-round signal.
    fn own(&self, signal: u32) -> &[Card]
        requires { signal < last_count (rules_of self.now) }
        ensures { result.now ≡ own_cards (signal_at (rules_of self.now) (round_count (rules_of self.now)) signal) }
    {
        part(&self.hands.owns, self.hands.own, signal)
    }

    // Returns the public cards of a last-round signal.
    fn public(&self, signal: u32) -> &[Card]
        requires { signal < last_count (rules_of self.now) }
        ensures { result.now ≡ public_cards (signal_at (rules_of self.now) (round_count (rules_of self.now)) signal) }
    {
        part(&self.hands.publics, self.hands.public, signal)
    }

    // Returns the number of ways to take the own groups of the last-round signal `two` from the copies that `one` leaves.
    fn own_ways(&self, one: u32, two: u32) -> u64
        requires one_in { one < last_count (rules_of self.now) }
        requires two_in { two < last_count (rules_of self.now) }
        ensures { result ≡ own_ways (left_by (rules_of self.now).copies (signal_at (rules_of self.now) (round_count (rules_of self.now)) one))
            (signal_at (rules_of self.now) (round_count (rules_of self.now)) two) }
    {
        let deck = self.deck();
        let held = self.own(one);
        let board = self.public(one);
        let own = self.own(two);
        // one card needs no look at the rounds
        if own.len() == 1 {
            return ways_beside(deck, held, board, &[], own);
        }
        let mut ways = 1u64;
        let mut start = 0;
        for round in &self.game.game().rounds {
            let end = start + usize::from(round.private);
            ways *= ways_beside(deck, held, board, &own[..start], &own[start..end]);
            start = end;
        }
        ways
    }

    // Returns the number of ways to deal these two last-round signals.
    fn weight(&self, one: u32, two: u32) -> u64
        requires { IsPair (rules_of self.now) one two }
        ensures { result ≡ (deal_at (rules_of self.now) one two).weight }
    {
        if self.plain {
            return pair_weight(one, two);
        }
        if let Some(masks) = &self.masks {
            return apart(masks[one as usize], masks[two as usize]);
        }
        self.path_weight(one) * self.own_ways(one, two)
    }

    // Returns the first last-round signal that shows the same public cards; 0 for a number past the last signal.
    pub(crate) fn first_beside(&self, one: u32) -> u32
        ensures { IsRowStart (rules_of self.now) one result }
    {
        if (one as usize) < self.boards.firsts.len() {
            self.boards.firsts[one as usize]
        } else {
            0
        }
    }

    // Returns the next pair of signals that show the same public cards, row by row.
    pub(crate) fn next_pair(&self, one: u32, two: u32) -> (u32, u32)
        requires { IsPair (rules_of self.now) one two }
        ensures { IsNextPair (rules_of self.now) one two result.0 result.1 }
    {
        let next = self.boards.nexts[two as usize];
        if (next as usize) < self.boards.nexts.len() {
            (one, next)
        } else {
            (one + 1, self.first_beside(one + 1))
        }
    }

    /// Returns all deals, each once, in the order of player 1's signal and then of player 2's.
    pub fn deals(&self) -> Deals<'_>
        ensures { result ≡ deals (rules_of self.now) }
    {
        Deals::rows(self, 0, self.last_count())
    }

    /// Returns the deals in which player 1 has this last-round signal, in the order of player 2's signal.
    pub fn deals_of(&self, signal: u32) -> Deals<'_>
        requires { signal < last_count (rules_of self.now) }
        ensures { result ≡ filter (λ (d : Dealt). d.one == signal) (deals (rules_of self.now)) }
    {
        Deals::rows(self, signal, signal + 1)
    }
}
