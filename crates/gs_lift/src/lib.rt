//! Raw hands: the spot that a line and a raw signal name, and the mixture of a plan over classes there. Plans are realization plans in whole numbers.
#![tactic(auto)]

mod fault;
mod mixture;
mod query;
mod shares;
mod spot;

pub use fault::QueryFault;
pub use mixture::{Mixture, mix};
pub use query::locate;
pub use shares::weight;
pub use spot::Spot;
