//! The tallies of the classes of a list, where single members are counted.

ghost use Rattle.std.specs.Prelude.{◌≡◌, ◌+◌, ◌↔◌, ◌<◌, ◌≤◌, ◌^◌, length, map, slice_index, EachIndex, IfErr, IfOk, IsTrue, OnOk};
ghost use Rattle.gs_model.specs.{Numbering.{IsNumbered}, Rows.{rows}};
ghost use Rattle.gs_filter.specs.{Tallies.{tallies_of, IsErrorOf}, Filter.{AreShort}, Faults.{AllNumbered, IsUnseen}};

use crate::fault::{ClassError, ClassFault};
use crate::rows::of_round;
use crate::tally::{Tally, TallyError, count_members};
use std::alloc::Global;
use std::marker::Model;

/// The tallies of the classes of a list. Where each class has one member they are counted and not stored.
/// Over raw signals a list of them would take 8 bytes a class and tell nothing.
#[derive(Drop)]
pub(crate) struct Tallies {
    // how many classes come first that have one member each, the signal one below their number
    singles: u32,
    // the tallies of those behind them
    rest: Vec<Tally>,
}

impl Model for Tallies {
    ghost use Rattle.std.specs.Prelude.{List, ◌++◌};
    ghost use Rattle.gs_filter.specs.declared.tally.Tally.{Tally};
    ghost use Rattle.gs_filter.specs.Tallies.{single_tallies};

    ghost Value = { List Tally };

    ghost view = { λ t. single_tallies t.singles ++ t.rest.items };
}

impl Tallies {
    ghost use Rattle.std.specs.Prelude.{◌≡◌, ◌<◌, get_or, length};
    ghost use Rattle.gs_filter.specs.declared.tally.Tally.{Tally};

    /// Returns the number of classes.
    pub(crate) fn len(&self) -> usize
        ensures { result ≡ length self.now }
    {
        self.singles as usize + self.rest.len()
    }

    /// Returns the tally of the class at a place.
    pub(crate) fn at(&self, place: usize) -> Tally
        requires { place < length self.now }
        ensures { (default : Tally) → result ≡ get_or self.now place default }
    {
        let singles = self.singles as usize;
        if place < singles {
            Tally {
                size: 1,
                first: place as u32,
            }
        } else {
            self.rest[place - singles]
        }
    }
}

/// Returns whether a list counts 1, 2, .. up to its length.
fn counts_up(list: &[u32]) -> bool
    ensures { IsTrue result ↔ EachIndex list.now (λ i. slice_index list.now i ≡ i + 1) }
{
    for (at, class) in list.iter().enumerate() {
        if *class as usize != at + 1 {
            return false;
        }
    }
    true
}

/// Returns the tally of each class of a list. Fails with the first place whose number is invalid, or if memory runs out.
pub(crate) fn tally_list(alloc: Global, list: &[u32]) -> Result<Tallies, TallyError>
    requires { length list.now < 2 ^ 32 }
    ensures tallied { IfOk result (λ tallies. tallies ≡ tallies_of list.now) }
    ensures numbered { OnOk result (IsNumbered list.now) }
    ensures unseen { IfErr result (IsErrorOf list.now) }
{
    if counts_up(list) {
        return Ok(Tallies {
            singles: list.len() as u32,
            rest: Vec::new(alloc),
        });
    }
    Ok(Tallies {
        singles: 0,
        rest: count_members(alloc, list)?,
    })
}

/// Returns the tallies of each list. Fails with the first invalid number, by round and place, or if memory runs out.
pub(crate) fn tally_lists(alloc: Global, lists: &[Vec<u32>]) -> Result<Vec<Tallies>, ClassError>
    requires few { length lists.now ≤ 4 }
    requires short { AreShort (rows lists.now) }
    ensures tallied { IfOk result (λ tallies. tallies.items ≡ map tallies_of (rows lists.now)) }
    ensures numbered { OnOk result (AllNumbered (rows lists.now)) }
    ensures unseen { IfErr result (IsUnseen (rows lists.now)) }
{
    let mut tallies = Vec::new(alloc);
    for round in 1..lists.len() as u32 + 1 {
        match tally_list(alloc, of_round(lists, round)) {
            Ok(list) => tallies.push(list)?,
            Err(TallyError::Memory) => return Err(ClassError::Memory),
            Err(TallyError::Fault(at)) => {
                return Err(ClassError::Fault(ClassFault::NotFirstSeen { round, at }));
            }
        }
    }
    Ok(tallies)
}
