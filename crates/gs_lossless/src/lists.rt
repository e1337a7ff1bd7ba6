//! A list of empty lists.

ghost use Rattle.std.specs.Prelude.{◌≡◌, ◌<◌, ℕ, IfOk, Vec, [], get_or, length};
ghost use Rattle.std.specs.declared.alloc.Global.{Global};

use std::alloc::{AllocError, Global};

/// Returns `count` empty lists.
pub fn empty_lists<T: Drop>(alloc: Global, count: u32) -> Result<Vec<Vec<T>>, AllocError>
    ensures long { IfOk result (λ v. length v.items ≡ count) }
    ensures empty { IfOk result (λ v. (k : ℕ) (d : Vec T Global) → k < count → (get_or v.items k d).items ≡ []) }
{
    let mut lists = Vec::with_capacity(alloc, count as usize)?;
    for _n in 0..count {
        lists.push(Vec::new(alloc))?;
    }
    Ok(lists)
}
