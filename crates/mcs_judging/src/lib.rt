//! Certificates in the lines of a report, judged as they are read: of a line nothing is kept once
//! it is judged. What is not accepted is read to its end all the same.
#![tactic(auto)]

mod absences;
mod classical;
mod entailments;
mod named;
mod order;
mod programs;
mod theory;
mod verdicts;

pub use classical::judge_classical;
pub use named::Named;
pub use programs::judge_program;
pub use verdicts::judge_verdicts;
