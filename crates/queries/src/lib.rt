// Questions about values and their words, one to a line, and the reply to each.
#![tactic(auto)]

mod fault;
mod query;
mod reply;

pub use fault::QueryFault;
pub use query::Query;
pub use reply::Reply;
