//! Bipartite graphs, matchings, and why a graph has no perfect matching.

ghost use Rattle.std.specs.Prelude.{◌≡◌};
ghost use Rattle.gs_match.specs.declared.graph.MatchError.TheVariants.{Memory};

use std::alloc::AllocError;
use std::marker::Model;
use thiserror::Error;

/// A bipartite graph: two sides of nodes, each counted from 0, and edges from left to right.
#[derive(Drop)]
pub struct Graph {
    pub left: u32,
    pub right: u32,
    pub edges: Vec<(u32, u32)>,
}

impl Model for Graph {
    ghost use Rattle.gs_model.specs.Matching.{Edges};

    ghost Value = { Edges };

    ghost view = { λ g. record { left = g.left; right = g.right; edges = g.edges.items } };
}

/// For each left node the right node that it is matched with.
#[derive(Drop)]
pub struct Match {
    pub to: Vec<u32>,
}

impl Model for Match {
    ghost use Rattle.std.specs.Prelude.{ℕ, List};

    ghost Value = { List ℕ };

    ghost view = { λ m. m.to.items };
}

/// Why there is no perfect matching.
#[derive(Debug, Drop, Error)]
pub enum NoMatch {
    /// One side has more nodes than the other.
    #[error("{left} left nodes and {right} right nodes")]
    Sides { left: u32, right: u32 },
    /// A Hall violator: these left nodes, in ascending order, have fewer neighbours than members.
    #[error("too few neighbours of left nodes {set:?}")]
    Hall { set: Vec<u32> },
}

/// Why no matching is returned: memory ran out, or there is no perfect one.
#[derive(Drop)]
pub enum MatchError {
    Memory,
    Fault(NoMatch),
}

impl From<AllocError> for MatchError {
    ghost from_gives = { λ _ e. e ≡ Memory };

    fn from(_e: AllocError) -> MatchError {
        MatchError::Memory
    }
}
