//! Perfect matchings of equal parts of two lists.

ghost use Rattle.std.specs.Prelude.{◌+◌, ◌<◌, ◌^◌, IfOk, OnOk, length};
ghost use Rattle.gs_iso.specs.Pairings.{AreEqualEdges, IsEqualGraph, IsPairingAnswer};

use gs_match::{Graph, Match, MatchError, perfect};
use std::alloc::{AllocError, Global};

/// Adds the edges from the place `left` of `ones` to all places of `twos` with an equal part.
fn join_equals<P: Eq>(
    edges: &mut Vec<(u32, u32)>,
    ones: &[P],
    left: u32,
    twos: &[P],
) -> Result<(), AllocError>
    requires in_range { left < length ones.now }
    requires few { length twos.now < 2 ^ 32 }
    requires before { AreEqualEdges P.eq ones.now twos.now left edges.old.items }
    ensures { OnOk result (AreEqualEdges P.eq ones.now twos.now (left + 1) edges.new.items) }
{
    let one = &ones[left as usize];
    for (right, two) in twos.iter().enumerate() {
        if one == two {
            edges.push((left, right as u32))?;
        }
    }
    Ok(())
}

/// Returns the bipartite graph whose edges join the places of equal parts.
fn equal_graph<P: Eq>(alloc: Global, ones: &[P], twos: &[P]) -> Result<Graph, AllocError>
    requires few_ones { length ones.now < 2 ^ 32 }
    requires few_twos { length twos.now < 2 ^ 32 }
    ensures { IfOk result (λ g. IsEqualGraph P.eq ones.now twos.now g) }
{
    let mut edges = Vec::new(alloc);
    for left in 0..ones.len() as u32 {
        join_equals(&mut edges, ones, left, twos)?;
    }
    Ok(Graph {
        left: ones.len() as u32,
        right: twos.len() as u32,
        edges,
    })
}

/// Returns for each part of `ones`, in order, the place of a different, equal part of `twos`. Returns `None` if there is no such matching of all parts.
pub(crate) fn match_equals<P: Eq>(
    alloc: Global,
    ones: &[P],
    twos: &[P],
) -> Result<Option<Match>, AllocError>
    requires few_ones { length ones.now < 2 ^ 32 }
    requires few_twos { length twos.now < 2 ^ 32 }
    ensures { IfOk result (IsPairingAnswer P.eq ones.now twos.now) }
{
    let graph = equal_graph(alloc, ones, twos)?;
    match perfect(alloc, &graph) {
        Ok(found) => Ok(Some(found)),
        Err(MatchError::Memory) => Err(AllocError),
        Err(MatchError::Fault(_)) => Ok(None),
    }
}
