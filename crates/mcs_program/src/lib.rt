//! The answer sets of disjunctive programs, and certificates that they are all.
#![tactic(auto)]

mod answer;
mod atom_clauses;
mod listing;
mod once;
mod outputs;
mod placed;
mod placing;
mod putting;
mod search;
mod small;
mod splitting;
mod tight;
mod view;

pub use outputs::{answer_sets, answer_sets_from, list_answer_sets};
