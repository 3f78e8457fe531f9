//! Railways as definitions with their laws: trains and their steps, the kinds of trains and the separation between
//! them, the case that a railway means, its check, and the faults by which a railway is refused.

#![tactic(auto)]

mod faults;
mod kind;
mod laws;
mod train;

pub use faults::RailwayFault;
pub use kind::{Kind, UnknownKind};
pub use laws::railway_laws_hold;
pub use train::{Step, Train};
