// Sequence charts of a script's run: its lanes and rows, what is put on them, and the picture of all.
#![tactic(auto)]

mod caption;
mod chart;
mod layout;
mod look;
mod mark;
mod run;
mod seen;
mod sign;
mod watch;

pub use caption::{Caption, Size};
pub use run::chart_of;
pub use sign::Sign;
