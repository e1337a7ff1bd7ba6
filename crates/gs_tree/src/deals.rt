//! An iterator over the deals of a game.

ghost use Rattle.std.specs.Iterator.{YieldsFirst, item_count};

use crate::deal::Deal;
use crate::signals::Signals;
use std::marker::Model;

/// The deals that are still to come, in the order of player 1's signal and then of player 2's.
///
/// No list of deals is kept: each deal is made when it is asked for, and none takes memory. Only pairs of signals that show the same public cards are looked
/// at.
#[derive(Drop)]
pub struct Deals<'s> {
    signals: &'s Signals<'s>,
    // the next pair of signals that show the same public cards
    one: u32,
    two: u32,
    // one past player 1's last signal
    end: u32,
}

impl<'s> Model for Deals<'s> {
    ghost use Rattle.std.specs.Prelude.{List, ◌*◌};
    ghost use Rattle.gs_model.specs.Deals.{Deal as Dealt};

    ghost Value = { List Dealt };

    ghost use Rattle.gs_tree.specs.{Trees.{rules_of}, Walk.{deals_between, last_count, pair_number, IsOnWalk}};

    ghost view = { λ d. deals_between (rules_of d.signals.now) (pair_number (rules_of d.signals.now) d.one d.two)
        (d.end * last_count (rules_of d.signals.now)) };

    ghost invariant = { λ d. IsOnWalk (rules_of d.signals.now) d.one d.two d.end };
}

impl<'s> Deals<'s> {
    ghost use Rattle.std.specs.Prelude.{◌≡◌, ◌*◌, ◌≤◌};
    ghost use Rattle.gs_tree.specs.{Trees.{rules_of}, Walk.{deals_between, last_count}};

    // Returns the deals in which player 1 has one of the signals from `from` up to, but not including, `end`.
    pub(crate) fn rows(signals: &'s Signals<'s>, from: u32, end: u32) -> Deals<'s>
        requires { end ≤ last_count (rules_of signals.now) }
        ensures { result ≡ deals_between (rules_of signals.entry.now) (from * last_count (rules_of signals.entry.now))
            (end * last_count (rules_of signals.entry.now)) }
    {
        Deals {
            signals,
            one: from,
            two: signals.first_beside(from),
            end,
        }
    }
}

impl<'s> Iterator for Deals<'s> {
    type Item = Deal;

    ghost next_gives = { YieldsFirst (λ s. s) };

    ghost remaining = { item_count (λ s. s) };

    fn next(&mut self) -> Option<Deal> {
        while self.one < self.end {
            let deal = self.signals.deal(self.one, self.two);
            let (one, two) = self.signals.next_pair(self.one, self.two);
            self.one = one;
            self.two = two;
            if deal.weight > 0 {
                return Some(deal);
            }
        }
        None
    }
}
