// The rules of a hall that both steps share: who is in it, what is genuine, what is posted, what is objected to.
#![tactic(auto)]

mod judged;
mod objection;
mod posts;
mod rules;
mod sender;

pub use judged::Judged;
pub use objection::Objection;
pub use posts::{Heading, configured};
pub use rules::Rules;
pub use sender::{counted_from, sender_within};
