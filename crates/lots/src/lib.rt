// The lot card, a record kind: what may be done with a lot, and from or until which day.
#![tactic(auto)]

mod lot_card;
mod shown;

pub use lot_card::{Day, LotCard, Reason};
