//! A railway as a source of a case: its trains and their steps, checked, mean one case, with each answer looked up in
//! tables that are made once.

#![tactic(auto)]

mod check;
mod fixed;
mod pairs;
mod source;
mod table;
mod trip;

pub use source::{Railway, check_railway};
