//! Perfect matchings of bipartite graphs, found by augmenting paths. If there is none, a Hall violator: left nodes with fewer neighbours than members.
#![tactic(auto)]

mod adjacency;
mod augment;
mod graph;
mod matching;
mod search;

pub use graph::{Graph, Match, MatchError, NoMatch};
pub use matching::perfect;
