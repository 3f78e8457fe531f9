//! The one search: a depth-first branch and bound over the pairs of any source, in any measure of time, with any lower
//! bound. It goes on from call to call, and arms can be held and released in between.

#![tactic(auto)]

mod arms;
mod calls;
mod node;
mod place;
mod questions;
mod table;
mod walk;

pub use calls::{Planner, Searched};
