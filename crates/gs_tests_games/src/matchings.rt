//! Matchings of small graphs, worked by hand.

ghost use Rattle.std.specs.Prelude.{◌↔◌, ◌<◌, All, IsTrue};
ghost use Rattle.gs_match.specs.Adjacency.{AreEdgesInRange};

use gs_match::{Graph, MatchError, perfect};
use std::alloc::{AllocError, Global};
use std::test::Fail;

/// Returns whether each edge joins one of `left` left nodes and one of `right` right nodes.
fn are_in_range(left: u32, right: u32, edges: &[(u32, u32)]) -> bool
    ensures { IsTrue result ↔ All (λ e. (e.0 < left) × (e.1 < right)) edges.now }
{
    edges.iter().all(|edge| edge.0 < left && edge.1 < right)
}

/// Returns the text of the matching of a graph, or why there is none.
fn answer_of(alloc: Global, graph: &Graph) -> Result<String, AllocError>
    requires { AreEdgesInRange graph.now }
{
    match perfect(alloc, graph) {
        Ok(matching) => format!(in alloc; "{:?}", matching.to),
        Err(MatchError::Memory) => Err(AllocError),
        Err(MatchError::Fault(why)) => format!(in alloc; "{why}"),
    }
}

/// Returns the text of the matching of the graph of these edges, or why there is none; an empty text if an edge is out of range.
fn answer(
    alloc: Global,
    left: u32,
    right: u32,
    edges: &[(u32, u32)],
) -> Result<String, AllocError> {
    if !are_in_range(left, right, edges) {
        return Ok(String::new(alloc));
    }
    let edges = Vec::from_slice(alloc, edges)?;
    answer_of(alloc, &Graph { left, right, edges })
}

/// Graphs by the numbers of their left and right nodes and their edges, and the expected text of each.
const CASES: &[(u32, u32, &[(u32, u32)], &str)] = &[
    (2, 2, &[(0, 0), (0, 1), (1, 0)], "[1, 0]"),
    (
        2,
        2,
        &[(0, 0), (1, 0)],
        "too few neighbours of left nodes [0, 1]",
    ),
    (1, 2, &[(0, 0)], "1 left nodes and 2 right nodes"),
    (0, 0, &[], "[]"),
    (
        3,
        3,
        &[(0, 0), (1, 1), (1, 0), (2, 0)],
        "too few neighbours of left nodes [0, 2]",
    ),
    (3, 3, &[(0, 0), (0, 1), (1, 0), (1, 2), (2, 0)], "[1, 2, 0]"),
];

#[test]
fn worked_graphs(rt: HostRuntime) -> Result<(), Fail> {
    for &(left, right, edges, said) in CASES {
        assert_eq!(rt; answer(rt.alloc(), left, right, edges)?.as_str(), said);
    }
    Ok(())
}
