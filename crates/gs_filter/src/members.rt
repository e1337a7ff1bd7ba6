//! The members of a class, each with the next one.

ghost use Rattle.std.specs.Prelude.{◌≡◌, ◌<◌, ◌≤◌, IfOk, length};
ghost use Rattle.gs_filter.specs.Members.{AreNextMembers};

use crate::classes::Classes;
use std::alloc::{AllocError, Global};

/// Returns for each signal of a round the next member of its class, or the number of signals of the round if no member follows.
pub fn next_members(alloc: Global, classes: &Classes, round: u8) -> Result<Vec<u32>, AllocError>
    requires some { 0 < round }
    requires top { round ≤ length classes.now.lists }
    ensures { IfOk result (λ v. AreNextMembers classes.now.lists round v.items) }
{
    let count = classes.signals(round);
    let mut heads = vec![in alloc; count; classes.classes(round) as usize]?;
    let mut nexts = vec![in alloc; count; count as usize]?;
    for signal in (0..count).rev() {
        let place = classes.class_of(round, signal) as usize - 1;
        nexts[signal as usize] = heads[place];
        heads[place] = signal;
    }
    Ok(nexts)
}
