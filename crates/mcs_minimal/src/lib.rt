//! Whether a model of a program is an answer set: no smaller set of its atoms satisfies the reduct
//! by it.
#![tactic(auto)]

mod asked;
mod minimal;

pub use asked::LogicProgram;
pub use minimal::smaller_model;
