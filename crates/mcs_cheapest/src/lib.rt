//! The cheapest diagnoses of a system, found by any evaluator. Of all minimal diagnoses, only these
//! are shown with a state.
#![tactic(auto)]

mod cheapest;
mod choosing;
mod laws;
mod least;
mod listing;
mod searching;
mod showing;

pub use cheapest::Cheapest;
pub use laws::cheapest_are_listed;
pub use least::list_least;
pub use listing::list_cheapest;
pub use mcs_costs::cost;
