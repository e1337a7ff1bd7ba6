//! Adjacency lists of a bipartite graph.

ghost use Rattle.std.specs.Prelude.{◌≡◌, ℕ, ◌<◌, IfOk, [], length};
ghost use Rattle.gs_model.specs.Rows.{rows};
ghost use Rattle.gs_match.specs.Adjacency.{AreEdgesInRange, AreNeighbours, row_of};

use crate::graph::Graph;
use std::alloc::{AllocError, Global};

/// Returns `count` empty lists.
/// `gs_lossless` has one of its own: no crate that runs is below both.
fn empty_lists(alloc: Global, count: u32) -> Result<Vec<Vec<u32>>, AllocError>
    ensures long { IfOk result (λ lists. length lists.items ≡ count) }
    ensures empty { IfOk result (λ lists. (k : ℕ) → row_of (rows lists.items) k ≡ []) }
{
    let mut lists = Vec::with_capacity(alloc, count as usize)?;
    for _n in 0..count {
        lists.push(Vec::new(alloc))?;
    }
    Ok(lists)
}

/// Returns for each left node the list of its neighbours.
pub(crate) fn adjacency(alloc: Global, graph: &Graph) -> Result<Vec<Vec<u32>>, AllocError>
    requires { AreEdgesInRange graph.now }
    ensures { IfOk result (λ lists. AreNeighbours graph.now (rows lists.items)) }
{
    let mut lists = empty_lists(alloc, graph.left)?;
    for edge in &graph.edges {
        lists[edge.0 as usize].push(edge.1)?;
    }
    Ok(lists)
}
