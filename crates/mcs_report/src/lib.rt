//! The lines that a run prints of a system, its equilibria, its diagnoses, the cheapest of them, and
//! its explanations, and those of an edit session.
#![tactic(auto)]

mod cheapest_lines;
mod laws;
mod lines;
mod members;
mod repair_lines;
mod session_lines;

pub use cheapest_lines::{cheapest_end_line, cheapest_line};
pub use laws::{
    equilibria_texts_are_unambiguous, equilibria_texts_exist, reasons_are_diagnoses,
    summaries_are_one, summaries_end_as_listings, whole_listings_are_unambiguous,
    whole_listings_at_the_extremes, whole_listings_exist,
};
pub use lines::{
    equilibrium_line, grounded_end_line, grounded_line, heading, short_end_line, verdict_line,
};
pub use members::{Member, push_set};
pub use repair_lines::{diagnosis_line, end_line, explanation_line};
pub use session_lines::{answers_line, list_line, session_end_line};
