//! The search for a plan, as definitions with their laws: a depth-first branch and bound over the pairs of a case, which
//! is cut into searches with a budget, and in which arms can be held and released. And the faults by which its calls are
//! refused.

#![tactic(auto)]

mod examples;
mod faults;
mod laws;
mod more_walk_laws;
mod walk_laws;

pub use examples::examples_hold;
pub use faults::{PlanMessageFault, PlannerFault};
pub use laws::always_sound;
pub use more_walk_laws::more_walk_laws_hold;
pub use walk_laws::walk_laws_hold;
