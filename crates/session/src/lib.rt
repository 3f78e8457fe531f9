//! What a session does with a case: take it as a message, choose arms, work out least times, write it back.

#![tactic(auto)]

mod cases;
mod open;

pub use open::{ArmsFault, CaseSize, OpenCase, RailwayRefusal};
