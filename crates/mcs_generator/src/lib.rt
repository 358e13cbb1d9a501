//! A family of systems, one for each number, with growing numbers of contexts and growing lengths
//! of chains.
#![tactic(auto)]

mod bridges;
mod chain;
mod generating;
mod knowledge;
mod laws;
mod names;
mod numbers;

pub use generating::generate;
pub use laws::generated_systems_are_valid;
