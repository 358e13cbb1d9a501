//! A SAT solver: searches for an assignment that satisfies clauses; if there is none, a trace shows
//! it.
#![tactic(auto)]

mod base;
mod flatten;
mod model;
mod outcome;
mod solver;
mod solving;

pub use base::{ClauseBase, solve};
pub use outcome::Outcome;
pub use solver::Solver;
