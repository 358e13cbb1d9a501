//! What the tables of all contexts say together: the minimal diagnoses with few marks, and the
//! equilibria of a system that a pair changes, all of them or the first.
#![tactic(auto)]

mod first;
mod order;
mod reduce;
mod repairs;
mod states;

pub use first::first_state_in;
pub use order::scopes;
pub use reduce::reduced;
pub use repairs::{few_repairs_in, marks_of, repairs_in};
pub use states::states_in;
