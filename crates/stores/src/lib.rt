// Where a replica keeps its card: the store by its meaning, and a cabinet of cards in memory.
#![tactic(auto)]

mod cabinet;
mod card;
mod fault;
mod store;

pub use cabinet::Cabinet;
pub use card::Card;
pub use fault::StoreFault;
pub use store::Store;
