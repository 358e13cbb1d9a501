//! What a context is asked with: for any logic, for default theories and for programs.
#![tactic(auto)]

mod asked;
mod program;
mod theory;

pub use asked::Asked;
pub use program::AskedProgram;
pub use theory::AskedTheory;
