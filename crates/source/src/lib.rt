// The source: the trusted party that decides which replicas make up the set of each epoch.
#![tactic(auto)]

mod fault;
mod state;

pub use fault::SourceFault;
pub use state::Source;
