//! Whether formulas follow from others in classical propositional logic, and what shows it.
#![tactic(auto)]

mod adding;
mod among;
mod assumptions;
mod beliefs;
mod bounds;
mod consequence;
mod consequences;
mod given;
mod refuting;
mod satisfying;

pub use adding::{add_formulas, add_meant};
pub use assumptions::{Assumption, assumed, assumptions_into, holding};
pub use beliefs::{outputs, outputs_from, outputs_in, outputs_with};
pub use consequence::{
    counterexample_in, entails, entails_beside, entails_from, entails_in, says_yes,
};
pub use consequences::Consequences;
pub use given::Given;
pub use refuting::true_places;
pub use satisfying::{Satisfied, satisfy, satisfy_from};
