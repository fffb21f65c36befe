// The step of a replica: it answers reads and writes, takes new configurations, and fetches its state.
#![tactic(auto)]

mod decision;
mod fault;
mod step;

pub use decision::{Decision, decide};
pub use fault::ReplicaFault;
pub use step::replica_step;
