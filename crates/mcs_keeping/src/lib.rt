//! Answers of a context that are kept, each under its question, with a certificate.
#![tactic(auto)]

mod keeping;

pub use keeping::{Kept, absorb_answers, keep_answer};
