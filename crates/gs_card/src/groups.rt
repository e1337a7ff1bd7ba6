//! Groups of cards, and all groups of a size.

ghost use Rattle.std.specs.{Prelude.{◌≡◌, ◌<◌, ◌≤◌, ◌++◌, ◌∷◌, [], All, IfOk, OnOk, length, map, vec_len}, List.Sorted.{IsNonDecreasing}};
ghost use Rattle.gs_model.specs.Cards.{groups, groups_above, groups_with};
ghost use Rattle.gs_card.specs.declared.faults.TheConstants.{MOST_KINDS};

use crate::cards::Card;
use std::alloc::{AllocError, Global};
use std::marker::Model;

/// A group of cards, in ascending order. A card occurs in it as often as the group has copies of it.
#[derive(Drop)]
pub struct Group {
    cards: Vec<Card>,
}

impl Model for Group {
    ghost use Rattle.std.specs.{Prelude.{ℕ, List}, List.Sorted.{IsNonDecreasing}};

    ghost Value = { List ℕ };

    ghost view = { λ g. g.cards.items };

    ghost invariant = { λ g. IsNonDecreasing g.cards.items };
}

impl Group {
    /// Returns the group of these cards, which are in ascending order. Fails only if memory runs out.
    pub fn of(alloc: Global, cards: &[Card]) -> Result<Group, AllocError>
        requires { IsNonDecreasing cards.now }
        ensures { IfOk result (λ group. group ≡ cards.now) }
    {
        let cards = Vec::from_slice(alloc, cards)?;
        Ok(Group { cards })
    }

    /// Returns the cards, in ascending order.
    pub fn cards(&self) -> &[Card]
        ensures cards { result.now ≡ self.now }
        ensures ascending { IsNonDecreasing self.now }
    {
        self.cards.as_slice()
    }
}

/// Adds to `out` the group of these cards.
fn push_group(alloc: Global, cards: &[Card], out: &mut Vec<Group>) -> Result<(), AllocError>
    requires { IsNonDecreasing cards.now }
    ensures { OnOk result (out.new.items ≡ out.old.items ++ cards.now ∷ []) }
{
    let group = Group::of(alloc, cards)?;
    out.push(group)?;
    Ok(())
}

/// Adds to `out` the cards of `front` followed by each group of `size` cards of the kinds from `least` on that `left` allows, in order.
#[cycle(lister)]
fn push_groups(
    alloc: Global,
    left: &mut Vec<u8>,
    least: usize,
    size: u8,
    front: &mut Vec<Card>,
    out: &mut Vec<Group>,
) -> Result<(), AllocError>
    requires few { vec_len left.old ≤ MOST_KINDS }
    requires within { least ≤ vec_len left.old }
    requires ascending { IsNonDecreasing front.old.items }
    requires below { All (λ card. card ≤ least) front.old.items }
    ensures found { OnOk result (out.new.items ≡ out.old.items ++ map (λ g. front.old.items ++ g) (groups_above size left.old.items least)) }
    ensures kept { OnOk result (front.new.items ≡ front.old.items) }
    ensures left_kept { OnOk result (left.new.items ≡ left.old.items) }
    ensures same_len { vec_len left.new ≡ vec_len left.old }
{
    if size == 0 {
        return push_group(alloc, front, out);
    }
    for card in least..left.len() {
        push_with(alloc, left, card, size - 1, front, out)?;
    }
    Ok(())
}

/// Adds to `out` the cards of `front` followed by this card and then each group of `size` cards of the kinds from it on that the rest of `left` allows, in
/// order: none if no copy of the card is left.
#[cycle(lister)]
fn push_with(
    alloc: Global,
    left: &mut Vec<u8>,
    card: usize,
    size: u8,
    front: &mut Vec<Card>,
    out: &mut Vec<Group>,
) -> Result<(), AllocError>
    requires few { vec_len left.old ≤ MOST_KINDS }
    requires within { card < vec_len left.old }
    requires ascending { IsNonDecreasing front.old.items }
    requires below { All (λ other. other ≤ card) front.old.items }
    ensures found { OnOk result (out.new.items ≡ out.old.items
        ++ map (λ g. front.old.items ++ g) (groups_with (groups_above size) left.old.items card)) }
    ensures kept { OnOk result (front.new.items ≡ front.old.items) }
    ensures left_kept { OnOk result (left.new.items ≡ left.old.items) }
    ensures same_len { vec_len left.new ≡ vec_len left.old }
{
    if left[card] == 0 {
        return Ok(());
    }
    left[card] -= 1;
    front.push(Card::new(card as u8))?;
    push_groups(alloc, left, card, size, front, out)?;
    front.pop();
    left[card] += 1;
    Ok(())
}

/// Returns all groups of `size` cards that `left` allows, in lexicographic order. `left` has the number of copies of each kind, `MOST_KINDS` kinds at most.
pub(crate) fn all_groups(alloc: Global, left: &[u8], size: u8) -> Result<Vec<Group>, AllocError>
    requires { length left.now ≤ MOST_KINDS }
    ensures { IfOk result (λ found. found.items ≡ groups left.now size) }
{
    let mut out = Vec::new(alloc);
    let mut front = Vec::with_capacity(alloc, usize::from(size))?;
    let mut rest = Vec::from_slice(alloc, left)?;
    push_groups(alloc, &mut rest, 0, size, &mut front, &mut out)?;
    Ok(out)
}
