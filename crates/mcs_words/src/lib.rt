//! The words of the command line, and the job that they ask for.
#![tactic(auto)]

mod asked;
mod given;
mod job;
mod kind;
mod laws;
mod line;
mod reading;
mod setting;
mod tally;
mod task;

pub use job::{Job, WordsFault};
pub use laws::one_job;
pub use reading::read_words;
