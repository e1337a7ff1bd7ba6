//! What each last-round signal is paid at an end, summed board by board in the order of strength.
#![tactic(auto)]

mod board_order;
mod pays;
mod place;
mod remainders;
mod running;
mod walks;

pub use board_order::BoardOrder;
pub use pays::Pays;
pub use remainders::deal_remainders;
