//! Betting trees, and the one text of each.
#![tactic(auto)]

mod fault;
mod laws;
mod limit;
mod reading;
mod shape;
mod writing;

pub use fault::{TreeError, TreeFault};
pub use laws::{one_cut, one_tree, trees_have_players};
pub use limit::limit_tree;
pub use reading::parse_tree;
pub use shape::{Act, BetTree, Move, Tree};
pub use writing::tree_text;
