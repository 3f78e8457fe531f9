//! Two bounds of a stranger, which go through the same calls as those of the crate `bounds`, with nothing changed there;
//! and the tests of bounds on examples.

#![tactic(auto)]

mod constant;
#[cfg(test)]
mod tests;
mod until;

pub use constant::RankZero;
pub use until::UntilDecided;
