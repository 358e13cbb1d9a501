//! A reader of the lines of certificates.
#![tactic(auto)]

mod absences;
mod evidence;
mod fault;
mod lines;
mod programs;
mod theory;
mod verdicts;

pub use absences::{next_blocked, next_unsupported, number_after, take_absence, take_absences};
pub use evidence::{
    expect, is_next, next_atoms, out_of_place, take_all_no, take_all_yes, take_atoms,
    take_entailment, take_entailments, take_no, take_trace, take_yes,
};
pub use fault::ReportFault;
pub use lines::Lines;
pub use programs::take_program;
pub use theory::Theory;
pub use verdicts::{names_set, next_applied, next_defaults, take_verdicts};
