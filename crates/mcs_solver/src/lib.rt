//! The solver of one context of a system: what it accepts, by the logic of its kind.
#![tactic(auto)]

mod known;
mod parts;
mod question;
mod solver;
mod views;

pub use parts::accepted_parts;
pub use solver::LocalSolver;
