//! Who wins a hand: the strength of own and public cards by each ranking, its category, and the outcome of two strengths.
#![tactic(auto)]

ghost use Rattle.gs_rank.specs.ThreeCards.{CategoriesAreGreatest};

mod outcomes;
mod ranker;
mod strengths;

pub use outcomes::{category, outcome};
pub use ranker::Ranker;
pub use strengths::strength;

/// The category of three cards is the greatest that applies to them.
pub fn categories_are_greatest()
    ensures { CategoriesAreGreatest }
{}
