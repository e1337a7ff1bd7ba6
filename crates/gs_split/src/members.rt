//! The numbers of the members of a class.

ghost use Rattle.std.specs.Prelude.{◌≡◌, ◌<◌, ◌≤◌, ℕ, IfOk, OnOk, get_or, length};
ghost use Rattle.gs_model.specs.{Classes.{IsClass, class_of}, Frame.{frame_of}};
ghost use Rattle.gs_tree.specs.Trees.{rules_of};
ghost use Rattle.gs_lossless.specs.Amounts.{AreAspectFirsts};
ghost use Rattle.gs_filter.specs.Members.{AreNextMembers};
ghost use Rattle.gs_split.specs.Turns.{AreMemberNumbers};

use gs_filter::Classes;
use gs_lossless::AspectKeys;
use indexmap::IndexSet;
use std::alloc::{AllocError, Global};

/// Sets the numbers of the members of a class. Two members get equal numbers exactly if they agree on the aspect.
/// Makes sums only of members without an earlier stand-in, and keeps them until the class is done. `nexts` has the next member of the class of each signal.
/// The sums of a whole round would take 28 MB for 15,600 signals.
pub(crate) fn number_members(
    alloc: Global,
    at: &AspectKeys<'_>,
    firsts: &[u32],
    nexts: &[u32],
    class: u32,
    numbers: &mut [u32],
) -> Result<(), AllocError>
    requires firsts { AreAspectFirsts (frame_of (rules_of at.now.signals.now)) at.now.classes.now.lists at.now.aspect at.now.round firsts.now }
    requires nexts { AreNextMembers at.now.classes.now.lists at.now.round nexts.now }
    requires class { IsClass at.now.classes.now.lists at.now.round class }
    requires numbers { length numbers.old ≡ length nexts.now }
    ensures long { OnOk result (length numbers.new ≡ length numbers.old) }
    ensures others { OnOk result ((s : ℕ) → (class_of at.now.classes.now.lists at.now.round s ≡ class → ⊥) → get_or numbers.new s 0 ≡ get_or numbers.old s 0) }
    ensures members { let f = frame_of (rules_of at.now.signals.now) in
        OnOk result (AreMemberNumbers f at.now.classes.now.lists at.now.aspect at.now.round class numbers.new) }
{
    let mut seen = IndexSet::new(alloc);
    let mut next = at.classes.first(at.round, class);
    while (next as usize) < nexts.len() {
        let signal = next;
        next = nexts[signal as usize];
        let first = firsts[signal as usize];
        let number = if first < signal {
            numbers[first as usize]
        } else {
            let sums = at.sums(alloc, signal)?;
            seen.insert_full(sums)?.0 as u32 + 1
        };
        numbers[signal as usize] = number;
    }
    Ok(())
}
