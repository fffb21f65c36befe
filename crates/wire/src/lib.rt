// What parties pass to each other: who they are, sets of replicas, stamps, pairs, configurations, entries, sealed texts.
#![tactic(auto)]

mod entry;
mod pair;
mod party;
mod set;
mod text;

pub use entry::{Entry, EntryKind, UnknownKind};
pub use pair::{Configuration, Pair, Seal, Stamp};
pub use party::{Client, Numbered, Party, Replica, UnknownParty};
pub use set::ReplicaSet;
pub use text::Text;
