// The tape: a store over bytes, which writes one record for each save.
#![tactic(auto)]

mod record;
mod search;
mod tape;

pub use tape::Tape;
