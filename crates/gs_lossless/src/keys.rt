//! Keys: the classes by which the two aspects count.

ghost use Rattle.std.specs.Prelude.{◌≡◌, IfOk};
ghost use Rattle.gs_model.specs.Frame.{frame_of};
ghost use Rattle.gs_tree.specs.Trees.{rules_of};
ghost use Rattle.gs_lossless.specs.Amounts.{HasAspect, keys_of};

use crate::aspects::Aspect;
use crate::grouped::Grouped;
use crate::runs::ancestor;
use gs_filter::Classes;
use gs_tree::Signals;
use std::alloc::{AllocError, Global};

/// Returns the classes by which an aspect counts in a round.
/// `Aspect::Deals`: for each last-round signal the class of its ancestor in the round. `Aspect::Children`: for each signal of the next round its class.
pub(crate) fn aspect_keys(
    alloc: Global,
    signals: &Signals,
    classes: &Classes,
    aspect: Aspect,
    round: u8,
) -> Result<Vec<u32>, AllocError>
    requires parents { classes.now.parents ≡ (frame_of (rules_of signals.now)).parents }
    requires aspect { HasAspect (frame_of (rules_of signals.now)) aspect round }
    ensures { IfOk result (λ v. v.items ≡ keys_of (frame_of (rules_of signals.now)) classes.now.lists aspect round) }
{
    match aspect {
        Aspect::Children => Vec::from_slice(alloc, &classes.lists()[usize::from(round)]),
        Aspect::Deals => ancestor_classes(alloc, &Grouped { signals, classes }, round),
    }
}

/// Returns for each last-round signal the class of its ancestor in a round.
fn ancestor_classes(alloc: Global, grouped: &Grouped<'_>, round: u8) -> Result<Vec<u32>, AllocError>
    requires { HasAspect (frame_of (rules_of grouped.now.signals.now)) Aspect.Deals round }
    ensures { IfOk result (λ v. v.items ≡ keys_of (frame_of (rules_of grouped.now.signals.now)) grouped.now.classes.now.lists Aspect.Deals round) }
{
    let Grouped { signals, classes } = *grouped;
    let count = signals.count(signals.rounds());
    let mut keys = Vec::with_capacity(alloc, count as usize)?;
    for signal in 0..count {
        keys.push(classes.class_of(round, ancestor(signals, round, signal)))?;
    }
    Ok(keys)
}
