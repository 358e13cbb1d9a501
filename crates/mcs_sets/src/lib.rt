//! Finite sets of small numbers: their definitions, the orders in which they are listed, and one
//! type, of which the sets of the crates above are thin wrappers.
#![tactic(auto)]

mod members;
mod small_set;

pub use members::Members;
pub use small_set::{SmallSet, pair_before, state_before};
