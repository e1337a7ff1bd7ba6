//! Cards, groups of cards and decks: the kinds of cards of a game, the number of copies of each, all groups of a size and the ways to take one.
//!
//! A card is the number of its kind. Kinds are numbered from 0, rank by rank and within a rank by suit.
#![tactic(auto)]

ghost use Rattle.gs_card.specs.Groups.{GroupsAreAll, GroupsAscend};

mod cards;
mod counting;
mod decks;
mod faults;
mod groups;
mod rankings;

pub use cards::{Card, Cards};
pub use counting::{times, ways};
pub use decks::Deck;
pub use faults::{DeckError, DeckFault, MOST_KINDS};
pub use groups::Group;
pub use rankings::Ranking;

/// The list of groups has exactly the groups of the size that the copies allow.
pub fn groups_are_all()
    ensures { GroupsAreAll }
{}

/// The list of groups ascends strictly, so each group occurs in it once.
pub fn groups_ascend()
    ensures { GroupsAscend }
{}
