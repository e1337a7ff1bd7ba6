//! Sums of weights by class and outcome.

ghost use Rattle.std.specs.Prelude.{◌≡◌, ◌↔◌, ◌+◌, ◌<◌, ◌^◌, All, IfOk, OnOk, IsTrue, sum_by};
ghost use Rattle.gs_lossless.specs.Sums.{AreSumsOf, put_last};

use std::alloc::{AllocError, Global};

/// A weight that counts at a class and an outcome.
#[derive(Clone, Copy, PartialEq, Eq, PartialOrd, Ord, Hash)]
pub struct Part {
    pub class: u32,
    pub outcome: i8,
    pub weight: u32,
}

/// Adds a part to sums with no greater class and outcome: to the last sum if it has the same class and outcome, otherwise as a new sum.
fn add(sums: &mut Vec<Part>, part: Part) -> Result<(), AllocError>
    requires { sum_by (λ p. p.weight) sums.old.items + part.weight < 2 ^ 32 }
    ensures { OnOk result (sums.new.items ≡ put_last part sums.old.items) }
{
    let count = sums.len();
    if 0 < count {
        let last = &mut sums[count - 1];
        if last.class == part.class && last.outcome == part.outcome {
            last.weight += part.weight;
            return Ok(());
        }
    }
    sums.push(part)?;
    Ok(())
}

/// Returns the total weight at each class and outcome that some part has, in ascending order.
/// It sorts: a map costs more, and a table has no bound.
pub(crate) fn sums_of(alloc: Global, mut parts: Vec<Part>) -> Result<Vec<Part>, AllocError>
    requires some { All (λ p. 0 < p.weight) parts.items }
    requires fits { sum_by (λ p. p.weight) parts.items < 2 ^ 32 }
    ensures { IfOk result (λ v. AreSumsOf parts.items v.items) }
{
    parts.sort_unstable();
    let mut sums = Vec::with_capacity(alloc, parts.len())?;
    for part in &parts {
        add(&mut sums, *part)?;
    }
    Ok(sums)
}

/// Returns whether two lists of sums are equal.
pub(crate) fn are_same(sums: &[Part], others: &[Part]) -> bool
    ensures { IsTrue result ↔ (sums.now ≡ others.now) }
{
    sums == others
}
