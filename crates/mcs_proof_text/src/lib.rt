//! The proof part of a report: answers with their certificates, line by line.
#![tactic(auto)]

mod answer;
mod defaults;
mod laws;
mod programs;
mod traces;

pub use answer::answer_lines;
pub use laws::{
    reports_have_one_fault, right_answers_are_in_shape, spelled_reports_have_no_fault,
    whole_listings_are_listing_parts,
};
