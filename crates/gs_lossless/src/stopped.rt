//! The first signal of a round whose deals weigh differently from those of the first member of its class.
//!
//! After a round all pairs of signals continue in equally many ways. So the deals of the game that stops there are compared in place of all deals.

ghost use Rattle.std.specs.Prelude.{◌≡◌, ◌<◌, ◌≤◌, IfOk, IfSome, MatchOption, length};
ghost use Rattle.gs_game.specs.GoingOn.{StopsAfter};
ghost use Rattle.gs_model.specs.{Rows.{rows}, Classes.{IsClasses, list_of}, Frame.{frame_of, signal_count}, Game.{round_count}};
ghost use Rattle.gs_tree.specs.Trees.{rules_of};
ghost use Rattle.gs_lossless.specs.{Amounts.{HasAspect}, Scans.{IsFirstApart}, Stopped.{stopped_lists as lists_after}};
ghost use Rattle.gs_lossless.specs.declared.aspects.Aspect.TheVariants.{Deals};

use crate::aspects::Aspect;
use crate::grouped::Grouped;
use crate::scan::first_apart;
use gs_filter::{ClassError, Classes};
use gs_tree::Signals;
use std::alloc::{AllocError, Global};

/// Returns the class lists of the first rounds, with the last of them repeated: nothing more is seen after it.
fn stopped_lists(alloc: Global, classes: &Classes, round: u8) -> Result<Vec<Vec<u32>>, AllocError>
    requires some { 0 < round }
    requires top { round ≤ length classes.now.lists }
    ensures { IfOk result (λ v. rows v.items ≡ lists_after classes.now.lists round) }
{
    let lists = classes.lists();
    let last = usize::from(round) - 1;
    let mut stopped = Vec::new(alloc);
    for place in 0..last + 2 {
        stopped.push(Vec::from_slice(alloc, &lists[place.min(last)])?)?;
    }
    Ok(stopped)
}

/// Returns the classes of the game that stops after a round, with the same classes in that round. `stopped` has the signals of that game.
/// Returns `None` if the lists are not classes of that game.
pub fn stopped_classes(
    alloc: Global,
    stopped: &Signals,
    classes: &Classes,
    round: u8,
) -> Result<Option<Classes>, AllocError>
    requires some { 0 < round }
    requires top { round ≤ length classes.now.lists }
    ensures parents { IfOk result (λ o. IfSome o (λ c. c.parents ≡ (frame_of (rules_of stopped.now)).parents)) }
    ensures same { IfOk result (λ o. IfSome o (λ c. list_of c.lists round ≡ list_of classes.now.lists round)) }
    // They are returned exactly if they are classes of the stopped game.
    ensures whenever { IfOk result (λ o. MatchOption o (IsClasses (frame_of (rules_of stopped.now)).parents (lists_after classes.now.lists round) → ⊥)
        (λ c. c.lists ≡ lists_after classes.now.lists round)) }
{
    let lists = stopped_lists(alloc, classes, round)?;
    match Classes::new(alloc, stopped.parents(), lists) {
        Ok(classes) => Ok(Some(classes)),
        Err(ClassError::Memory) => Err(AllocError),
        Err(ClassError::Fault(_)) => Ok(None),
    }
}

/// Returns the first signal of a round whose deals weigh differently from those of the first member of its class. `stopped` has the signals of the game that
/// stops after the round. If the class lists of the first rounds are classes of that game, the deals of that game are compared; otherwise all deals.
fn first_apart_over(
    alloc: Global,
    grouped: &Grouped<'_>,
    round: u8,
    stopped: &Signals,
) -> Result<Option<u32>, AllocError>
    requires aspect { HasAspect (frame_of (rules_of grouped.now.signals.now)) Deals round }
    requires before_last { round < round_count (rules_of grouped.now.signals.now) }
    requires stops { StopsAfter (rules_of grouped.now.signals.now) round (rules_of stopped.now) }
    ensures { let f = frame_of (rules_of grouped.now.signals.now) in
        IfOk result (IsFirstApart f grouped.now.classes.now.lists Deals round (signal_count f round)) }
{
    let Grouped { signals, classes } = *grouped;
    let end = signals.count(round);
    if let Some(seen) = stopped_classes(alloc, stopped, classes, round)? {
        let seen = Grouped {
            signals: stopped,
            classes: &seen,
        };
        return first_apart(alloc, &seen, Aspect::Deals, round, end);
    }
    first_apart(alloc, grouped, Aspect::Deals, round, end)
}

/// Returns the first signal of a round whose deals weigh differently from those of the first member of its class.
pub(crate) fn first_deals_apart(
    alloc: Global,
    grouped: &Grouped<'_>,
    round: u8,
) -> Result<Option<u32>, AllocError>
    requires { HasAspect (frame_of (rules_of grouped.now.signals.now)) Deals round }
    ensures { let f = frame_of (rules_of grouped.now.signals.now) in
        IfOk result (IsFirstApart f grouped.now.classes.now.lists Deals round (signal_count f round)) }
{
    let signals = grouped.signals;
    if round < signals.rounds() {
        if let Some(game) = signals.game().stopped(alloc, round)? {
            let stopped = Signals::of(alloc, &game)?;
            return first_apart_over(alloc, grouped, round, &stopped);
        }
    }
    first_apart(alloc, grouped, Aspect::Deals, round, signals.count(round))
}
