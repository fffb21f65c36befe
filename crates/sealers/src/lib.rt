// Sealers: who gives seals for texts, and says which are genuine.
#![tactic(auto)]

mod book;
mod fault;
mod keyed;
mod parties;
mod sealer;

pub use book::Book;
pub use fault::SealerFault;
pub use keyed::{KeyRow, Keyed};
pub use sealer::Sealer;
