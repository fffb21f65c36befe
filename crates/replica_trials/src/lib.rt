// What parties pass to each other, what replicas keep, seals and hashes, by example.
#![tactic(auto)]

mod drawn;
#[cfg(test)]
mod hashing;
#[cfg(test)]
mod keeping;
#[cfg(test)]
mod passing;
#[cfg(test)]
mod sealing;

pub use drawn::{Dice, Drawn, Note};
