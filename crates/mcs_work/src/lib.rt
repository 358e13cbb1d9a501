//! The tasks for a system: from an evaluator to the printed lines of the listing.
#![tactic(auto)]

mod cheapest;
mod extent;
mod laws;
mod line;
mod printing;
mod repairing;
mod states;
mod task;
mod working;

pub use laws::{
    cheapest_texts_are_unambiguous, cheapest_texts_exist, grounded_texts_are_unambiguous,
};
pub use printing::print_grounded;
pub use states::find_states;
pub use task::{Task, WorkStop};
pub use working::work;
