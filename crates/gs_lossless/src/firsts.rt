//! The first item with each mark.

ghost use Rattle.std.specs.Prelude.{◌≡◌, ◌<◌, ◌≤◌, ◌^◌, ◌⊎◌, IfOk, length, slice_index, slice_set};
ghost use Rattle.gs_lossless.specs.Firsts.{AreFirsts};

use std::alloc::{AllocError, Global};

/// The mark of an item that has none. No item has this place.
pub(crate) const NONE: u32 = u32::MAX;

/// Returns the item that is kept for a mark if it is earlier than `item`. Otherwise returns `item`, and keeps it if the mark is the place of an item.
fn first_of(kept: &mut [u32], item: u32, mark: u32) -> u32
    ensures before { result ≤ item }
    ensures earlier { result < item → (mark < length kept.old) × (slice_index kept.old mark ≡ result) }
    ensures kept { (kept.new ≡ kept.old) ⊎ (kept.new ≡ slice_set kept.old mark item) }
{
    let place = mark as usize;
    if kept.len() <= place {
        return item;
    }
    let first = kept[place];
    if first < item {
        return first;
    }
    kept[place] = item;
    item
}

/// Returns for each item the first one with its mark, or the item itself if its mark is not the place of an item.
pub(crate) fn first_items(alloc: Global, mut marks: Vec<u32>) -> Result<Vec<u32>, AllocError>
    requires { length marks.items < 2 ^ 32 }
    ensures { IfOk result (λ v. AreFirsts marks.items v.items) }
{
    let mut kept = vec![in alloc; NONE; marks.len()]?;
    for item in 0..marks.len() {
        let first = first_of(&mut kept, item as u32, marks[item]);
        marks[item] = first;
    }
    Ok(marks)
}
