//! The check whether classes of signals are lossless: members of one class see the same weights of deals and have the same children, class by class.
//! And last-round signals that see the same deals, so that one may stand for the others.
#![tactic(auto)]

mod aspect_keys;
mod aspects;
mod board;
mod boards;
mod checking;
mod firsts;
mod grouped;
mod keys;
mod kinds;
mod lists;
mod marks;
mod parts;
mod rivals;
mod runs;
mod scan;
mod standing;
mod stop;
mod stopped;

pub use aspect_keys::AspectKeys;
pub use aspects::Aspect;
pub use boards::stand_ins;
pub use checking::{Lossless, check};
pub use grouped::Grouped;
pub use lists::empty_lists;
pub use parts::Part;
pub use runs::{Run, ancestor, descendants, descendants_in};
pub use stop::CheckStop;
pub use stopped::stopped_classes;
