//! The classes of one round.

ghost use Rattle.std.specs.Prelude.{◌≡◌, ◌+◌, ◌≤◌, ◌<◌, ◌^◌, All, IfOk, IfSome, [], length};
ghost use Rattle.gs_iso.specs.{KeyNumbers.{HasClassOf, IsKeyClasses}, Numbers.{class_key}};

use crate::nodes::ClassKey;
use crate::numbers::number_of;
use indexmap::IndexSet;
use std::alloc::{AllocError, Global};
use std::mem;

/// Records the latest item for a number and returns the previous one. Returns the item itself if `last` has no place for the number.
fn noted(last: &mut [u32], number: u32, item: u32) -> u32 {
    match last.get_mut(number as usize) {
        Some(place) => mem::replace(place, item),
        None => item,
    }
}

/// The signals of a round as items: the classes of the round before, and for each item its parent and its number.
#[derive(Clone, Copy)]
pub(crate) struct RoundItems<'a> {
    pub above: &'a [u32],
    pub parents: &'a [u32],
    pub numbers: &'a [u32],
    pub ghost all: { length parents.now ≡ length numbers.now },
    pub ghost in_range: { All (λ p. p < length above.now) parents.now },
}

impl RoundItems<'_> {
    /// Returns the key that decides the class of an item.
    fn key(self, item: usize) -> ClassKey
        requires { item < length self.numbers.now }
        ensures { result ≡ class_key self.entry.above.now self.entry.parents.now self.entry.numbers.now item }
    {
        ClassKey {
            above: self.above[self.parents[item] as usize],
            number: self.numbers[item],
        }
    }

    /// Returns the class of an item if it already has one and its key is `key`.
    fn class_again(self, classes: &[u32], item: u32, key: ClassKey) -> Option<u32>
        requires { length classes.now ≤ length self.numbers.now }
        ensures { IfSome result (HasClassOf (class_key self.entry.above.now self.entry.parents.now self.entry.numbers.now) classes.now key) }
    {
        let class = *classes.get(item as usize)?;
        if self.key(item as usize) != key {
            return None;
        }
        Some(class)
    }
}

/// Returns the classes of a round, item by item. `last` has room for the latest item of each number, and `seen` must be empty.
fn classes_each(
    alloc: Global,
    items: RoundItems<'_>,
    last: &mut [u32],
    seen: &mut IndexSet<ClassKey>,
) -> Result<Vec<u32>, AllocError>
    requires few { length items.numbers.now + 1 < 2 ^ 32 }
    requires unseen { seen.old.keys ≡ [] }
    ensures long { IfOk result (λ v. length v.items ≡ length items.entry.numbers.now) }
    ensures classes { IfOk result (λ v. IsKeyClasses (class_key items.entry.above.now items.entry.parents.now items.entry.numbers.now) v.items) }
{
    let mut classes = Vec::with_capacity(alloc, items.numbers.len())?;
    for (at, number) in items.numbers.iter().enumerate() {
        let key = items.key(at);
        let item = noted(last, *number, at as u32);
        let class = match items.class_again(&classes, item, key) {
            Some(class) => class,
            None => number_of(seen, key)?,
        };
        classes.push(class)?;
    }
    Ok(classes)
}

/// Returns the classes of a round, numbered from 1 by first member.
/// Two signals are in one class if their parents are in one class of the round before and their numbers are equal.
/// Most keys just occurred, so a key is compared with the latest one of its number before the set is asked.
pub(crate) fn round_classes(alloc: Global, items: RoundItems<'_>) -> Result<Vec<u32>, AllocError>
    requires { length items.numbers.now + 1 < 2 ^ 32 }
    ensures long { IfOk result (λ v. length v.items ≡ length items.entry.numbers.now) }
    ensures classes { IfOk result (λ v. IsKeyClasses (class_key items.entry.above.now items.entry.parents.now items.entry.numbers.now) v.items) }
{
    let most = items.numbers.iter().max().copied().unwrap_or(0);
    let mut last = vec![in alloc; 0; most as usize + 1]?;
    let mut seen = IndexSet::new(alloc);
    classes_each(alloc, items, &mut last, &mut seen)
}
