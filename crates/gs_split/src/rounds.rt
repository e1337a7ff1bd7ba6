//! The new classes of one round.

ghost use Rattle.std.specs.Prelude.{◌≡◌, ◌+◌, ◌≤◌, ◌<◌, ◌^◌, All, IfOk, IfSome, length};
ghost use Rattle.gs_iso.specs.KeyNumbers.{HasClassOf, IsKeyClasses};
ghost use Rattle.gs_split.specs.Turns.{turn_key};

use indexmap::IndexSet;
use std::alloc::{AllocError, Global};
use std::marker::Model;
use std::mem;

/// The number of earlier items that are kept, to try before a key is looked up.
const KEPT: usize = 4096;

/// The key that decides a signal's new class: its old class, the new class of its parent, and the number of its sums.
#[derive(Clone, Copy, PartialEq, Eq, Hash)]
pub(crate) struct TurnKey {
    pub before: u32,
    pub above: u32,
    pub number: u32,
}

impl Model for TurnKey {
    ghost use Rattle.std.specs.Prelude.{ℕ};

    ghost Value = { ℕ × ℕ × ℕ };

    ghost view = { λ k. (k.before, k.above, k.number) };

    ghost inverse = { λ p. record { before = p.0; above = p.1; number = p.2 } };
}

/// What a turn compares in a round: for each signal its old class, its parent and the number of its sums; and the new classes of the round before.
#[derive(Clone, Copy)]
pub(crate) struct TurnKeys<'a> {
    pub before: &'a [u32],
    pub above: &'a [u32],
    pub parents: &'a [u32],
    pub numbers: &'a [u32],
    ghost old: { length before.now ≡ length numbers.now },
    ghost all: { length parents.now ≡ length numbers.now },
    ghost in_range: { All (λ p. p < length above.now) parents.now },
}

/// Returns the key that decides a signal's new class.
fn key_at(keys: &TurnKeys<'_>, at: usize) -> TurnKey
    requires { at < length keys.now.numbers.now }
    ensures { result ≡ turn_key keys.now.before.now keys.now.above.now keys.now.parents.now keys.now.numbers.now at }
{
    TurnKey {
        before: keys.before[at],
        above: keys.above[keys.parents[at] as usize],
        number: keys.numbers[at],
    }
}

/// Records an item at a place that its key chooses, and returns the item recorded there before.
fn noted(last: &mut [u32], key: TurnKey, item: u32) -> u32 {
    let mixed = key.before.wrapping_mul(31) ^ key.above.wrapping_mul(1021) ^ key.number;
    match last.get_mut(mixed as usize % KEPT) {
        Some(place) => mem::replace(place, item),
        None => item,
    }
}

/// Returns the class of an item if it already has one and its key is `key`.
fn class_again(keys: &TurnKeys<'_>, classes: &[u32], item: u32, key: TurnKey) -> Option<u32>
    requires { length classes.now ≤ length keys.now.numbers.now }
    ensures { IfSome result (HasClassOf (turn_key keys.now.before.now keys.now.above.now keys.now.parents.now keys.now.numbers.now) classes.now key) }
{
    let place = item as usize;
    if classes.len() <= place || key_at(keys, place) != key {
        return None;
    }
    Some(classes[place])
}

/// Returns the new classes of a round, numbered from 1 by first member: signals with equal keys are in one class.
/// Most keys just occurred, so the set is asked last. `gs_iso` has a loop of its own: one for both would take closures, with laws of theirs.
pub(crate) fn round_classes(alloc: Global, keys: &TurnKeys<'_>) -> Result<Vec<u32>, AllocError>
    requires { length keys.now.numbers.now + 1 < 2 ^ 32 }
    ensures long { IfOk result (λ v. length v.items ≡ length keys.now.numbers.now) }
    ensures classes { IfOk result (λ v. IsKeyClasses (turn_key keys.now.before.now keys.now.above.now keys.now.parents.now keys.now.numbers.now) v.items) }
{
    let mut last = vec![in alloc; 0; KEPT]?;
    let mut classes = Vec::with_capacity(alloc, keys.numbers.len())?;
    let mut seen = IndexSet::new(alloc);
    for at in 0..keys.numbers.len() {
        let key = key_at(keys, at);
        let item = noted(&mut last, key, at as u32);
        let class = match class_again(keys, &classes, item, key) {
            Some(class) => class,
            None => seen.insert_full(key)?.0 as u32 + 1,
        };
        classes.push(class)?;
    }
    Ok(classes)
}
