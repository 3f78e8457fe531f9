//! The alternative graph: what a case is, where its arcs come from, what times are told in, and the least times of a
//! selection, worked out by one text for every source and every measure.

#![tactic(auto)]

mod arc;
mod measure;
mod refusal;
mod source;
mod times;

pub use arc::{Arc, Pair};
pub use measure::TimeMeasure;
pub use refusal::Refusal;
pub use source::CaseSource;
pub use times::{TooFewPlaces, clear_times, least_times};
