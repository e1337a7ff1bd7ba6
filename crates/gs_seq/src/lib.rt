//! Games in sequence form over lossless classes: plans and their slots, sums over deals by pairs of classes, and what two plans pay.
#![tactic(auto)]

mod asking;
mod before;
mod earlier;
mod fault;
mod first;
mod flows;
mod form;
mod laws;
mod limits;
mod numbers;
mod pair;
mod pairs;
mod paying;
mod payoff;
mod plan;
mod rows;
mod single;
mod slots;
mod stop;
mod weighing;

pub use fault::PlanFault;
pub use flows::{MOST_TOTAL, StepSource, class_above, plan_fault};
pub use form::Abstract;
pub use laws::{pairs_are_exchanged, plans_have_no_fault};
pub use limits::Limits;
pub use numbers::{PlanAtEnd, end_step, plus, scaled, source_at_end};
pub use pair::Pair;
pub use pairs::Pairs;
pub use plan::Plan;
pub use rows::cell_total;
pub use stop::{SeqError, SeqFault};
