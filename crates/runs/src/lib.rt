//! What is planned in one call: a list of calls of a planner, and a message.

#![tactic(auto)]

mod planned;
mod requests;

pub use planned::plan_message;
pub use requests::{Request, replay};
