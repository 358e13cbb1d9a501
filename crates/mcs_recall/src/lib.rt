//! Evaluators that keep what was told of a system, so that it is not found twice.
#![tactic(auto)]

mod recalling;
mod shown;
mod told;

pub use recalling::Recalling;
pub use told::Told;
