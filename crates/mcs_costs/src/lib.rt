//! What repairs cost, and which cost least: definitions, their laws, the cost of a pair, and
//! evaluators that tell the cheapest diagnoses alone.
#![tactic(auto)]

mod choosing;
mod costing;
mod evaluator;
mod laws;

pub use choosing::{least_cost, of_cost};
pub use costing::{cost, least_weight};
pub use evaluator::{CheapestEvaluator, Settling};
pub use laws::{
    cheapest_are_minimal, costs_grow, stop_level_is_a_quotient, worked_costs, worked_stop_levels,
};
