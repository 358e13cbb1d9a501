//! What a context is asked with, its heads and beliefs, and when a certificate of its answer is
//! accepted.
#![tactic(auto)]

mod asking;
mod certificate;
mod laws;

pub use asking::{at_places, beliefs_of, heads_into, parts_at};
pub use certificate::AnswerCert;
pub use laws::accepted_answers_are_right;
