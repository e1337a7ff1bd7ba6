//! Lossless classes, and the check for them.

ghost use Rattle.std.specs.Prelude.{◌≡◌, ◌<◌, ◌≤◌, IfOk, IfErr, IsTrue};
ghost use Rattle.gs_model.specs.{Frame.{frame_of, last_round}, Lossless.{IsLossless}};
ghost use Rattle.gs_filter.specs.Filter.{single_classes};
ghost use Rattle.gs_tree.specs.Trees.{rules_of};
ghost use Rattle.gs_lossless.specs.Stops.{IsUnlike, IsUnlikeIn, MatchUnlike};

use crate::aspects::Aspect;
use crate::grouped::Grouped;
use crate::scan::first_apart;
use crate::stop::CheckStop;
use crate::stopped::first_deals_apart;
use gs_filter::Classes;
use gs_tree::Signals;
use std::alloc::{AllocError, Global};

/// Signals with lossless classes. Members of one class have parents of one class and the same number of children in each class.
/// They also have the same weight of deals against each class of the opponent; in the last round, the same weight for each outcome too.
#[derive(Clone, Copy)]
pub struct Lossless<'a> {
    pub signals: &'a Signals<'a>,
    pub classes: &'a Classes,
    ghost parents: { classes.now.parents ≡ (frame_of (rules_of signals.now)).parents },
    ghost lossless: { IsLossless (frame_of (rules_of signals.now)) classes.now.lists },
}

impl<'a> Lossless<'a> {
    /// Returns signals with classes that are known to be lossless, without a check.
    pub fn known(signals: &'a Signals<'a>, classes: &'a Classes) -> Lossless<'a>
        requires parents { classes.now.parents ≡ (frame_of (rules_of signals.now)).parents }
        requires lossless { IsLossless (frame_of (rules_of signals.now)) classes.now.lists }
        ensures held_signals { result.signals.now ≡ signals.entry.now }
        ensures held_classes { result.classes.now ≡ classes.entry.now }
    {
        Lossless { signals, classes }
    }

    /// Returns the signals.
    pub fn signals(&self) -> &'a Signals<'a>
        ensures held { result.now ≡ self.now.signals.now }
        ensures lossless { IsLossless (frame_of (rules_of self.now.signals.now)) self.now.classes.now.lists }
    {
        self.signals
    }

    /// Returns the classes.
    pub fn classes(&self) -> &'a Classes
        ensures held { result.now ≡ self.now.classes.now }
        ensures parents { result.now.parents ≡ (frame_of (rules_of self.now.signals.now)).parents }
        ensures lossless { IsLossless (frame_of (rules_of self.now.signals.now)) self.now.classes.now.lists }
    {
        self.classes
    }
}

/// Returns whether members of each class agree in the sums of the last round and in the children of all rounds. If so, the classes are lossless.
fn settles(alloc: Global, grouped: &Grouped<'_>) -> Result<bool, AllocError>
    ensures { IfOk result (λ b. IsTrue b → IsLossless (frame_of (rules_of grouped.now.signals.now)) grouped.now.classes.now.lists) }
{
    let last = grouped.signals.rounds();
    for round in 1..last {
        let end = grouped.signals.count(round);
        if first_apart(alloc, grouped, Aspect::Children, round, end)?.is_some() {
            return Ok(false);
        }
    }
    let end = grouped.signals.count(last);
    Ok(first_apart(alloc, grouped, Aspect::Deals, last, end)?.is_none())
}

/// Returns the first signal of a round that is not like the first member of its class. The last round has no children.
fn unlike_in(alloc: Global, grouped: &Grouped<'_>, round: u8) -> Result<Option<u32>, AllocError>
    requires some { 0 < round }
    requires top { round ≤ last_round (frame_of (rules_of grouped.now.signals.now)) }
    ensures { IfOk result (MatchUnlike (frame_of (rules_of grouped.now.signals.now)) grouped.now.classes.now.lists round) }
{
    let apart = first_deals_apart(alloc, grouped, round)?;
    if round == grouped.signals.rounds() {
        return Ok(apart);
    }
    let end = apart.unwrap_or(grouped.signals.count(round));
    let before = first_apart(alloc, grouped, Aspect::Children, round, end)?;
    Ok(before.or(apart))
}

/// Checks, round by round, that the classes are lossless. Errors: the first unlike pair, or `Memory` if memory runs out.
fn first_unlike(alloc: Global, grouped: &Grouped<'_>) -> Result<(), CheckStop>
    ensures lossless { IfOk result (λ _. IsLossless (frame_of (rules_of grouped.now.signals.now)) grouped.now.classes.now.lists) }
    ensures unlike { IfErr result (IsUnlikeIn (frame_of (rules_of grouped.now.signals.now)) grouped.now.classes.now.lists) }
    ensures refuted { IfErr result (λ e. IsUnlike e → IsLossless (frame_of (rules_of grouped.now.signals.now)) grouped.now.classes.now.lists → ⊥) }
    ensures single { IfErr result (λ e. IsUnlike e → grouped.now.classes.now.lists ≡ single_classes grouped.now.classes.now.parents → ⊥) }
{
    for before in 0..grouped.signals.rounds() {
        let round = before + 1;
        if let Some(second) = unlike_in(alloc, grouped, round)? {
            let class = grouped.classes.class_of(round, second);
            let first = grouped.classes.first(round, class);
            return Err(CheckStop::Unlike {
                round,
                first,
                second,
            });
        }
    }
    Ok(())
}

/// Checks that classes are lossless, and returns them with their signals. Classes of one signal each always pass.
/// Errors: the first unlike pair, or `Memory` if memory runs out.
///
/// The sums of the last round and the counts of children decide losslessness. The deals of earlier rounds are compared only to name the pair.
pub fn check<'a>(
    alloc: Global,
    signals: &'a Signals<'a>,
    classes: &'a Classes,
) -> Result<Lossless<'a>, CheckStop>
    requires { classes.now.parents ≡ (frame_of (rules_of signals.now)).parents }
    ensures held_signals { IfOk result (λ l. l.signals.now ≡ signals.entry.now) }
    ensures held_classes { IfOk result (λ l. l.classes.now ≡ classes.entry.now) }
    ensures lossless { IfOk result (λ _. IsLossless (frame_of (rules_of signals.entry.now)) classes.entry.now.lists) }
    ensures unlike { IfErr result (IsUnlikeIn (frame_of (rules_of signals.entry.now)) classes.entry.now.lists) }
    ensures refuted { IfErr result (λ e. IsUnlike e → IsLossless (frame_of (rules_of signals.entry.now)) classes.entry.now.lists → ⊥) }
    ensures single { IfErr result (λ e. IsUnlike e → classes.entry.now.lists ≡ single_classes classes.entry.now.parents → ⊥) }
{
    let grouped = Grouped { signals, classes };
    if !settles(alloc, &grouped)? {
        first_unlike(alloc, &grouped)?;
    }
    Ok(Lossless { signals, classes })
}
