// What a hall is made of: the lines of its log, the seats of its clients, and what it refuses.
#![tactic(auto)]

mod fault;
mod operation;
mod seat;

pub use fault::{HallFault, StepFault};
pub use operation::Operation;
pub use seat::Seat;
