// The step of a client: reads, writes and write-backs in rounds, through changes of configuration.
#![tactic(auto)]

mod fault;
mod line;
mod step;
mod turn;

pub use fault::ClientFault;
pub use line::{Line, Stage};
pub use step::{begin, client_step};
pub use turn::{Turn, decide};
