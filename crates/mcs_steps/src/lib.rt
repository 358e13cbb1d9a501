//! Traces in the lines of a text, judged step by step as they are read: of a step nothing is kept
//! but its clause.
#![tactic(auto)]

mod derived;
mod line;
mod step;
mod trace;
mod words;

pub use trace::{judge_trace, pass_trace};
pub use words::first_number;
