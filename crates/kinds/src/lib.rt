// Record kinds: what a register can hold of a bin, and the one number, its word, by which each value travels; and the first of them, the bin weight.
#![tactic(auto)]

mod bin_weight;
mod fault;
mod kind;
mod shown;
mod word;

pub use bin_weight::BinWeight;
pub use fault::KindFault;
pub use kind::Kind;
pub use word::Word;
