//! The parts of the lines of proofs, written and read: sets of atoms and of defaults, numbers,
//! literals, steps.
#![tactic(auto)]

mod digits;
mod front;
mod numbers;
mod places;
mod sets;
mod steps;

pub use digits::{read_number, read_numbers};
pub use front::{find, strip};
pub use numbers::{push_chain, push_order, push_step};
pub use places::{push_atoms, push_defaults};
pub use sets::read_set;
pub use steps::read_step;
