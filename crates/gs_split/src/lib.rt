//! The coarsest lossless refinement of given classes: every lossless refinement of the given classes refines it.
#![tactic(auto)]

mod aspects;
mod members;
mod parting;
mod proposal;
mod rounds;
mod splitting;
mod stays;
mod turns;

pub use splitting::split;
