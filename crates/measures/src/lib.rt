//! What times are told in: whole seconds, or seconds with a place within the second.

#![tactic(auto)]

mod ordered;
mod seconds;

pub use ordered::OrderedSeconds;
pub use seconds::Seconds;
