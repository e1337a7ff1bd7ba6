//! The first signal of a round that differs from the first member of its class.

ghost use Rattle.std.specs.Prelude.{◌≡◌, ◌<◌, ◌≤◌, Decides, IfOk, IsTrue, OnOk, length};
ghost use Rattle.gs_model.specs.{Classes.{IsClass, class_of, list_of}, Frame.{frame_of}, Signals.{signals as signals_in}};
ghost use Rattle.gs_tree.specs.Trees.{rules_of};
ghost use Rattle.gs_lossless.specs.{Amounts.{AgreesWithFirst, HasAspect}, Scans.{AreAloneBelow, AreFirstsKept, IsFirstApart, IsFirstKept}};

use crate::aspect_keys::AspectKeys;
use crate::aspects::Aspect;
use crate::grouped::Grouped;
use crate::lists::empty_lists;
use crate::parts::{Part, are_same};
use crate::standing::{has_earlier, stand_ins_at};
use gs_filter::Classes;
use std::alloc::{AllocError, Global};

/// The number of signals from which on a few are compared before the boards are listed.
const MANY: u32 = 4096;

/// The number of signals that are compared before the boards are listed.
/// An unlike pair mostly stands early.
const FEW: u32 = 64;

/// Returns whether each class of a round has one member.
fn are_alone(classes: &Classes, round: u8) -> bool
    requires some { 0 < round }
    requires top { round ≤ length classes.now.lists }
    ensures { IsTrue result → AreAloneBelow classes.now.lists round (length (list_of classes.now.lists round)) }
{
    for signal in 0..classes.signals(round) {
        if classes.size(round, classes.class_of(round, signal)) != 1 {
            return false;
        }
    }
    true
}

/// Makes the sums of the first member of a class, unless they are kept.
fn keep_first(
    alloc: Global,
    at: &AspectKeys<'_>,
    class: u32,
    kept: &mut Vec<Vec<Part>>,
) -> Result<(), AllocError>
    requires class { IsClass at.now.classes.now.lists at.now.round class }
    requires within { class ≤ length kept.old.items }
    requires kept { AreFirstsKept (frame_of (rules_of at.now.signals.now)) at.now.classes.now.lists at.now.aspect at.now.round kept.old.items }
    ensures kept { OnOk result (AreFirstsKept (frame_of (rules_of at.now.signals.now)) at.now.classes.now.lists at.now.aspect at.now.round kept.new.items) }
    ensures first { OnOk result (IsFirstKept (frame_of (rules_of at.now.signals.now)) at.now.classes.now.lists at.now.aspect at.now.round class kept.new.items) }
    ensures long { OnOk result (length kept.new.items ≡ length kept.old.items) }
{
    let place = class as usize - 1;
    if !kept[place].is_empty() {
        return Ok(());
    }
    let mut sums = at.sums(alloc, at.classes.first(at.round, class))?;
    sums.shrink_to_fit();
    kept[place] = sums;
    Ok(())
}

/// Returns whether a signal agrees on the aspect with the first member of its class. Keeps the sums of that first member.
fn agrees(
    alloc: Global,
    at: &AspectKeys<'_>,
    signal: u32,
    kept: &mut Vec<Vec<Part>>,
) -> Result<bool, AllocError>
    requires in_range { signal < length (signals_in (rules_of at.now.signals.now) at.now.round) }
    requires within { class_of at.now.classes.now.lists at.now.round signal ≤ length kept.old.items }
    requires kept { AreFirstsKept (frame_of (rules_of at.now.signals.now)) at.now.classes.now.lists at.now.aspect at.now.round kept.old.items }
    ensures kept { OnOk result (AreFirstsKept (frame_of (rules_of at.now.signals.now)) at.now.classes.now.lists at.now.aspect at.now.round kept.new.items) }
    ensures long { OnOk result (length kept.new.items ≡ length kept.old.items) }
    ensures agrees { IfOk result (λ b. Decides b (AgreesWithFirst (frame_of (rules_of at.now.signals.now)) at.now.classes.now.lists at.now.aspect at.now.round
        signal)) }
{
    let class = at.classes.class_of(at.round, signal);
    keep_first(alloc, at, class, kept)?;
    let sums = at.sums(alloc, signal)?;
    Ok(are_same(&kept[class as usize - 1], &sums))
}

/// Returns the first signal before `end` that differs on the aspect from the first member of its class.
/// Makes the sums of a first member once another member is compared with it. The first `end` signals are in at most as many classes.
/// Once stand-ins are listed, makes no sums of a signal with an earlier stand-in.
fn apart_before(alloc: Global, at: &AspectKeys<'_>, end: u32) -> Result<Option<u32>, AllocError>
    requires { end ≤ length (signals_in (rules_of at.now.signals.now) at.now.round) }
    ensures { IfOk result (IsFirstApart (frame_of (rules_of at.now.signals.now)) at.now.classes.now.lists at.now.aspect at.now.round end) }
{
    let classes = at.classes;
    let round = at.round;
    let mut firsts = Vec::new(alloc);
    let mut kept = empty_lists(alloc, classes.classes(round).min(end))?;
    for signal in 0..end {
        firsts = stand_ins_at(alloc, at, signal, firsts)?;
        if has_earlier(&firsts, signal) {
            continue;
        }
        if classes.first(round, classes.class_of(round, signal)) == signal {
            continue;
        }
        let same = agrees(alloc, at, signal, &mut kept)?;
        if !same {
            return Ok(Some(signal));
        }
    }
    Ok(None)
}

/// Returns the first signal before `end` that differs on one aspect from the first member of its class.
/// Makes no sums if each class of the round has one member. Of many signals compares a few before it lists the boards: where one of these differs,
/// listing the boards would take more time than it saves.
pub(crate) fn first_apart(
    alloc: Global,
    grouped: &Grouped<'_>,
    aspect: Aspect,
    round: u8,
    end: u32,
) -> Result<Option<u32>, AllocError>
    requires aspect { HasAspect (frame_of (rules_of grouped.now.signals.now)) aspect round }
    requires within { end ≤ length (signals_in (rules_of grouped.now.signals.now) round) }
    ensures { IfOk result (IsFirstApart (frame_of (rules_of grouped.now.signals.now)) grouped.now.classes.now.lists aspect round end) }
{
    let Grouped { signals, classes } = *grouped;
    if are_alone(classes, round) {
        return Ok(None);
    }
    let at = AspectKeys::without_tables(alloc, signals, classes, aspect, round)?;
    if MANY <= end {
        let apart = apart_before(alloc, &at, FEW)?;
        if apart.is_some() {
            return Ok(apart);
        }
    }
    let at = at.with_tables(alloc)?;
    apart_before(alloc, &at, end)
}
