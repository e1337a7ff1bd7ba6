//! Numbers for keys and for lists, in order of first occurrence.

ghost use Rattle.std.specs.Prelude.{◌≡◌, ◌+◌, ◌-◌, ◌<◌, ◌≤◌, ◌^◌, IfOk, OnOk, Some, slice_get, true};
ghost use lib.Pointwise.{pointwise};
ghost use Rattle.indexmap.specs.IndexSet.{IsUnique, index_set_len, insert_key};
ghost use Rattle.gs_model.specs.Rows.{rows};
ghost use Rattle.gs_iso.specs.KeyNumbers.{IsNumberOf, StayIn, same_parts};

use indexmap::IndexSet;
use std::alloc::{AllocError, Global};
use std::hash::Hash;

/// Returns the number of a key: 1 plus its place among the distinct keys so far, in order of first occurrence. Adds a new key to `keys`.
pub(crate) fn number_of<K: Eq + Hash + Drop>(
    keys: &mut IndexSet<K>,
    key: K,
) -> Result<u32, AllocError>
    requires { index_set_len keys.old + 1 < 2 ^ 32 }
    ensures grown { OnOk result (keys.new.keys ≡ insert_key K.eq keys.old.keys key) }
    ensures some { IfOk result (λ n. 0 < n) }
    ensures stored { IfOk result (λ n. (k : K) × (slice_get keys.new.keys (n - 1) ≡ Some k) × (K.eq key k ≡ true)) }
    ensures few { OnOk result (index_set_len keys.new ≤ index_set_len keys.old + 1) }
    ensures unique { IsUnique K.eq keys.new }
{
    let (index, _) = keys.insert_full(key)?;
    Ok(index as u32 + 1)
}

/// Returns the number of a list: 1 plus its place among the distinct lists so far, in order of first occurrence.
/// Adds a copy of a new list to `lists`, and leaves `lists` as it is for a known one.
pub(crate) fn number_of_list<P: Copy + Eq + Hash + Drop>(
    alloc: Global,
    lists: &mut IndexSet<Vec<P>>,
    list: &[P],
) -> Result<u32, AllocError>
    requires few { index_set_len lists.old + 1 < 2 ^ 32 }
    requires unique { IsUnique (same_parts P.eq) lists.old }
    ensures grown { OnOk result (rows lists.new.keys ≡ insert_key (pointwise P.eq) (rows lists.old.keys) list.now) }
    ensures kept { OnOk result (StayIn lists.old.keys lists.new.keys) }
    ensures number { IfOk result (IsNumberOf P.eq lists.new.keys list.now) }
    ensures few { OnOk result (index_set_len lists.new ≤ index_set_len lists.old + 1) }
    ensures unique { OnOk result (IsUnique (same_parts P.eq) lists.new) }
{
    if let Some((index, _found)) = lists.get_full(list) {
        return Ok(index as u32 + 1);
    }
    let key = Vec::from_slice(alloc, list)?;
    number_of(lists, key)
}
