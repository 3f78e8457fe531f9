//! The format of messages, as definitions with their laws (specs and proofs), and the faults by which a case or a message
//! is refused.

#![tactic(auto)]

mod faults;

pub use faults::{CaseFault, MessageFault};
