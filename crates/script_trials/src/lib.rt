// Scripts for a hall, and what is printed for each.
#![tactic(auto)]

pub mod calls;
pub mod case;
pub mod epochs;
pub mod liars;
pub mod lines;
pub mod openings;
pub mod operations;
#[cfg(test)]
mod running;
pub mod stages;
pub mod tables;
pub mod transfer;
