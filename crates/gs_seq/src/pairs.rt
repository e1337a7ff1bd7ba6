//! An iterator over the pairs of a class.

ghost use Rattle.std.specs.{Iterator.{YieldsFirst, item_count}, Prelude.{◌≡◌, ◌≤◌, All, MatchOption}};
ghost use Rattle.gs_seq.specs.Singles.{IsFirstAfter, IsSlight, deal_pair};

use crate::pair::Pair;
use crate::rows::weighed_outcome;
use gs_tree::{Deal, Deals};
use std::marker::Model;

/// An iterator over the pairs of a class: its value is the pairs still to come.
///
/// The pairs of a class with one signal need not be listed: each is made from a deal when it is asked for. The iterator allocates no memory.
#[derive(Drop)]
pub struct Pairs<'s> {
    // the listed pairs still to come
    listed: &'s [Pair],
    // the deals from which the pairs behind the listed ones are made
    deals: Option<Deals<'s>>,
}

impl<'s> Model for Pairs<'s> {
    ghost use Rattle.std.specs.Prelude.{List, All, map, ◌++◌};
    ghost use Rattle.gs_seq.specs.{Singles.{IsSlight, deal_pair, deals_left}, declared.pair.Pair.{Pair as Paired}};

    ghost Value = { List Paired };

    ghost view = { λ p. p.listed.now ++ map deal_pair (deals_left p.deals) };

    ghost invariant = { λ p. All IsSlight (deals_left p.deals) };
}

/// Returns the pair of the classes of a deal's signals, when each signal is a class of its own.
fn pair_of(deal: Deal) -> Pair
    requires { IsSlight deal }
    ensures { result ≡ deal_pair deal }
{
    let weight = deal.weight as u32;
    Pair {
        two: deal.two + 1,
        weight,
        signed: weighed_outcome(weight, deal.outcome),
    }
}

impl<'s> Pairs<'s> {
    ghost use Rattle.std.specs.Prelude.{◌≡◌, All, map};
    ghost use Rattle.gs_seq.specs.Singles.{IsSlight, deal_pair};

    // Returns the pairs of a list.
    pub(crate) fn listed(listed: &'s [Pair]) -> Pairs<'s>
        ensures { result ≡ listed.entry.now }
    {
        Pairs {
            listed,
            deals: None,
        }
    }

    // Returns the pairs of the classes of these deals' signals, when each signal is a class of its own.
    pub(crate) fn made(deals: Deals<'s>) -> Pairs<'s>
        requires { All IsSlight deals }
        ensures { result ≡ map deal_pair deals.entry }
    {
        Pairs {
            listed: &[],
            deals: Some(deals),
        }
    }
}

impl<'s> Iterator for Pairs<'s> {
    type Item = Pair;

    ghost next_gives = { YieldsFirst (λ s. s) };

    ghost remaining = { item_count (λ s. s) };

    fn next(&mut self) -> Option<Pair> {
        if !self.listed.is_empty() {
            let pair = self.listed[0];
            self.listed = &self.listed[1..];
            return Some(pair);
        }
        let Some(deals) = &mut self.deals else {
            return None;
        };
        let deal = deals.next()?;
        Some(pair_of(deal))
    }
}

/// Returns the first pair whose class is above `after`.
pub(crate) fn first_after(pairs: Pairs<'_>, after: u32) -> Option<Pair>
    ensures { MatchOption result (All (λ p. p.two ≤ after) pairs.entry) (IsFirstAfter pairs.entry after) }
{
    for pair in pairs {
        if pair.two > after {
            return Some(pair);
        }
    }
    None
}
