//! Writes the proof part of a report: the answers that the solvers keep, with their certificates.
#![tactic(auto)]

mod asking;
mod gathering;
mod proving;
mod writing;

pub use proving::write_proof;
