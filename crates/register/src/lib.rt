// The register: set up, marked and opened over tables that the caller lends, and the nine calls of its hall.
#![tactic(auto)]

mod begin;
mod deliver;
mod fitting;
mod hall;
mod issue;
mod lengths;
mod logging;
mod meddle;
mod open;
mod parties;
mod sets;
mod setup;
mod slip;
mod slips;
mod tables;

pub use hall::Hall;
pub use lengths::Lengths;
pub use setup::Setup;
pub use slip::{Kept, Slip};
pub use tables::Tables;
