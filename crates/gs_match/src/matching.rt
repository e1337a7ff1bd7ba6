//! Perfect matchings of bipartite graphs.

ghost use Rattle.std.specs.Prelude.{◌≡◌, ◌<◌, ◌^◌, ℕ, Some, map, IfOk, IsPermutation, length, get_or};
ghost use Rattle.std.specs.List.Sorted.{IsNonDecreasing};
ghost use Rattle.gs_match.specs.{Adjacency.{AreEdgesInRange}, Search.{holder, lefts}, Refusal.{IsMatchAnswer}};

use crate::adjacency::adjacency;
use crate::augment::augment;
use crate::graph::{Graph, Match, MatchError, NoMatch};
use crate::search::Visit;
use std::alloc::{AllocError, Global};

/// Returns the right node of each left node, given the left node of each right node.
fn by_left(alloc: Global, holders: &[Option<u32>]) -> Result<Vec<u32>, AllocError>
    requires short { length holders.now < 2 ^ 32 }
    requires within { (b a : ℕ) → holder holders.now b ≡ Some a → a < length holders.now }
    requires once { (b c a : ℕ) → holder holders.now b ≡ Some a → holder holders.now c ≡ Some a → b ≡ c }
    ensures long { IfOk result (λ to. length to.items ≡ length holders.now) }
    ensures each { IfOk result (λ to. (b a : ℕ) → holder holders.now b ≡ Some a → get_or to.items a 0 ≡ b) }
{
    let mut to = vec![in alloc; 0u32; holders.len()]?;
    for (right, left) in holders.iter().enumerate() {
        if let Some(left) = *left {
            to[left as usize] = right as u32;
        }
    }
    Ok(to)
}

/// Returns the visited left nodes in ascending order.
fn visited(alloc: Global, visits: &[Visit]) -> Result<Vec<u32>, AllocError>
    ensures same { IfOk result (λ set. IsPermutation (lefts visits.now) set.items) }
    ensures sorted { IfOk result (λ set. IsNonDecreasing set.items) }
{
    let mut set: Vec<u32> = visits.iter().map(|visit| visit.left).collect(alloc)?;
    set.sort_unstable();
    Ok(set)
}

/// Returns a perfect matching, found by augmenting paths from each left node in turn.
/// Errors: `Sides` if the two sides differ in size, `Hall` with left nodes that have too few neighbours, `Memory` if memory runs out.
///
/// Source: the augmenting paths of Kuhn (1955) and Hall (1935).
pub fn perfect(alloc: Global, graph: &Graph) -> Result<Match, MatchError>
    requires { AreEdgesInRange graph.now }
    ensures { IsMatchAnswer graph.now result }
{
    if graph.left != graph.right {
        return Err(MatchError::Fault(NoMatch::Sides {
            left: graph.left,
            right: graph.right,
        }));
    }
    let adjacent = adjacency(alloc, graph)?;
    let mut holders: Vec<Option<u32>> = vec![in alloc; None; graph.right as usize]?;
    for root in 0..graph.left {
        if let Some(visits) = augment(alloc, &adjacent, &mut holders, root)? {
            return Err(MatchError::Fault(NoMatch::Hall {
                set: visited(alloc, &visits)?,
            }));
        }
    }
    Ok(Match {
        to: by_left(alloc, &holders)?,
    })
}
