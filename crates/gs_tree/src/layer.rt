//! The signals of one round.

ghost use Rattle.std.specs.Prelude.{◌≡◌, ◌≤◌, ◌<◌, ◌++◌, ◌*◌, ◌-◌, slice_set, slice_index, All, IfOk, OnOk, map, length};
ghost use Rattle.gs_card.specs.Decks.{kinds};
ghost use Rattle.gs_tree.specs.{Shown.{cards_of, seen_of}, Layers.{AreFew, showing}};
ghost use Rattle.gs_model.specs.{Cards.{left_after}, Cards.{groups, groups_above, groups_with, ways}, Signals.{showings, edge}};
ghost use Rattle.gs_game.specs.Games.{round_rules};

use crate::few::FewCards;
use crate::ways::Ways;
use gs_card::{Card, Deck, Group, ways};
use gs_game::Round;
use std::alloc::{AllocError, Global};

/// The own group and the public group that the last round of a signal shows.
#[derive(Clone, Copy)]
pub(crate) struct Shown {
    pub(crate) own: FewCards,
    pub(crate) public: FewCards,
}

/// One of the two piles that a signal shows: the own cards, or the public ones.
#[derive(Clone, Copy)]
pub(crate) enum Pile {
    Own,
    Public,
}

impl Shown {
    ghost use Rattle.std.specs.Prelude.{◌≡◌};
    ghost use Rattle.gs_tree.specs.Shown.{seen_of, seen_on};

    /// Returns the cards in one pile.
    #[inline(always)]
    pub(crate) fn on(&self, pile: Pile) -> &[Card]
        ensures { result.now ≡ seen_on pile (seen_of self.now) }
    {
        match pile {
            Pile::Own => self.own.cards(),
            Pile::Public => self.public.cards(),
        }
    }
}

/// Returns the number of ways to take a small group from the copies that are left.
fn few_ways(left: &[u8], group: &Group) -> u64
    requires in_range { All (λ card. card < length left.now) group.now }
    requires few_cards { length group.now ≤ 3 }
    requires few_copies { All (λ copies. copies ≤ 9) left.now }
    ensures value { result ≡ ways left.now group.now }
    ensures few { result ≤ 729 }
{
    ways(left, group)
}

/// Takes one copy of a kind, if one is left.
fn take_copy(rest: &mut Vec<u8>, kind: usize)
    ensures { rest.new.items ≡ slice_set rest.old.items kind (slice_index rest.old.items kind - 1) }
{
    if kind < rest.len() {
        rest[kind] = rest[kind].saturating_sub(1);
    }
}

/// Takes one copy of the kind of each of these cards, if one is left.
pub(crate) fn take_cards(rest: &mut Vec<u8>, cards: &[Card])
    requires { All (λ copies. copies ≤ 9) rest.old.items }
    ensures value { rest.new.items ≡ left_after rest.old.items cards.now }
    ensures few { All (λ copies. copies ≤ 9) rest.new.items }
    ensures len { length rest.new.items ≡ length rest.old.items }
{
    for card in cards {
        take_copy(rest, usize::from(card.number()));
    }
}

/// What the signals of one round add to their parents, in order: the groups that they show, and the number of ways to take these.
#[derive(Drop)]
pub(crate) struct Layer {
    pub(crate) shown: Vec<Shown>,
    pub(crate) edges: Ways,
    // for each signal of the round before, the place of its first child; at the end the number of all signals
    pub(crate) firsts: Vec<u32>,
}

/// Adds what the signal with these own cards and a public card of this kind shows, if a copy of the kind is left.
fn push_card(
    rest: &[u8],
    kind: usize,
    own: &FewCards,
    own_ways: u64,
    layer: &mut Layer,
) -> Result<(), AllocError>
    requires kind_in { kind < length rest.now }
    requires few_left { AreFew rest.now }
    requires few_ways { own_ways ≤ 729 }
    ensures shown { OnOk result (map seen_of layer.new.shown.items ≡ map seen_of layer.old.shown.items
        ++ map (showing (cards_of own.now)) (groups_with (groups_above 0) rest.now kind)) }
    ensures firsts { layer.new.firsts.items ≡ layer.old.firsts.items }
    ensures edges { OnOk result (layer.new.edges ≡ layer.old.edges ++ map (λ g. own_ways * ways rest.now g) (groups_with (groups_above 0) rest.now kind)) }
{
    let copies = rest[kind];
    if copies == 0 {
        return Ok(());
    }
    layer.shown.push(Shown {
        own: *own,
        public: FewCards::one(Card::new(kind as u8)),
    })?;
    layer.edges.push(own_ways * u64::from(copies))
}

/// Adds what the signals with these own cards and one public card show, in order.
fn push_cards(
    rest: &[u8],
    own: &FewCards,
    own_ways: u64,
    layer: &mut Layer,
) -> Result<(), AllocError>
    requires few_left { AreFew rest.now }
    requires few_ways { own_ways ≤ 729 }
    ensures shown { OnOk result (map seen_of layer.new.shown.items ≡ map seen_of layer.old.shown.items
        ++ map (showing (cards_of own.now)) (groups rest.now 1)) }
    ensures firsts { layer.new.firsts.items ≡ layer.old.firsts.items }
    ensures edges { OnOk result (layer.new.edges ≡ layer.old.edges ++ map (λ g. own_ways * ways rest.now g) (groups rest.now 1)) }
{
    for kind in 0..rest.len() {
        push_card(rest, kind, own, own_ways, layer)?;
    }
    Ok(())
}

/// Adds what the signals with these own cards show: with them each public group that the copies left allow, in order.
fn push_publics(
    alloc: Global,
    deck: &Deck,
    rest: &[u8],
    own: FewCards,
    own_ways: u64,
    size: u8,
    layer: &mut Layer,
) -> Result<(), AllocError>
    requires counted { length rest.now ≡ kinds deck.now }
    requires few_left { AreFew rest.now }
    requires small { size ≤ 3 }
    requires few_ways { own_ways ≤ 729 }
    ensures shown { OnOk result (map seen_of layer.new.shown.items ≡ map seen_of layer.old.shown.items
        ++ map (showing (cards_of own)) (groups rest.now size)) }
    ensures firsts { layer.new.firsts.items ≡ layer.old.firsts.items }
    ensures edges { OnOk result (layer.new.edges ≡ layer.old.edges ++ map (λ g. own_ways * ways rest.now g) (groups rest.now size)) }
{
    if size == 1 {
        return push_cards(rest, &own, own_ways, layer);
    }
    for public in &deck.groups(alloc, rest, size)? {
        layer.shown.push(Shown {
            own,
            public: FewCards::of(public),
        })?;
        layer.edges.push(own_ways * few_ways(rest, public))?;
    }
    Ok(())
}

/// Adds what a signal's children show, in order: each own group that the copies left allow, and with it each public group that the rest allows.
pub(crate) fn push_showings(
    alloc: Global,
    deck: &Deck,
    left: &[u8],
    round: &Round,
    layer: &mut Layer,
) -> Result<(), AllocError>
    requires counted { length left.now ≡ kinds deck.now }
    requires few_left { AreFew left.now }
    requires small_private { round.now.private ≤ 3 }
    requires small_public { round.now.public ≤ 3 }
    ensures shown { OnOk result (map seen_of layer.new.shown.items ≡ map seen_of layer.old.shown.items ++ showings left.now (round_rules round.now)) }
    ensures firsts { layer.new.firsts.items ≡ layer.old.firsts.items }
    ensures edges { OnOk result (layer.new.edges ≡ layer.old.edges ++ map (edge left.now) (showings left.now (round_rules round.now))) }
{
    if round.private == 0 {
        return push_publics(alloc, deck, left, FewCards::none(), 1, round.public, layer);
    }
    for own in &deck.groups(alloc, left, round.private)? {
        let mut rest = Vec::from_slice(alloc, left)?;
        take_cards(&mut rest, own.cards());
        let own_ways = few_ways(left, own);
        push_publics(
            alloc,
            deck,
            &rest,
            FewCards::of(own),
            own_ways,
            round.public,
            layer,
        )?;
    }
    Ok(())
}
