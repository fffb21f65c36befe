// Scripts for a hall: their lines, what a line asks for, and what is printed once a script has run.
#![tactic(auto)]

mod command;
mod line;
mod printed;
mod rows;

pub use command::{Command, SetUp};
pub use line::{EntryFields, Line, SetUpFields};
pub use printed::{report, section};
pub use rows::Row;
