//! Ordered game isomorphism of signals.
#![tactic(auto)]

mod children;
mod classes;
mod equals;
mod hands;
mod leaves;
mod nodes;
mod numbers;
mod pairings;
mod signal_classes;

pub use pairings::pairing;
pub use signal_classes::{last_classes, shrink};
