//! Bounds: what a partial selection must still cost. A bound is one struct, its meaning, and the law that it is at most
//! the delay of every timetable that keeps the selection.

#![tactic(auto)]

mod ahead;
mod bound;
mod compare;
mod larger;
mod laws;
mod longest;
mod named;
mod trial;

pub use ahead::LookAhead;
pub use bound::Bound;
pub use compare::{earlier, later};
pub use larger::Larger;
pub use laws::bounds_laws_hold;
pub use longest::LongestPath;
pub use named::{NamedBound, UnknownBound};
