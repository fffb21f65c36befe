// Runs a script over a hall, and says what is printed.
#![tactic(auto)]

mod fault;
mod lines;
mod memory;
mod opening;
mod play;
mod running;

pub use fault::ScriptFault;
pub use lines::{LIMIT, Numbered, numbered};
pub use memory::Memory;
pub use play::{first_set_up, refuse_all, run};
pub use running::{Opening, Running};
