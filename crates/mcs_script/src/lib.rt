//! Scripts of edits: bridge rules that are added to a system and dropped from it, and listings
//! that are asked for.
#![tactic(auto)]

mod draft;
mod edit;
mod fits;
mod found;
mod laws;
mod reading;
mod rules;
mod script;
mod share;

pub use draft::Draft;
pub use edit::{Edit, edited, system_after};
pub use laws::{
    dropped_rules_leave_systems, rules_are_unambiguous, rules_have_one_fault,
    scripts_are_unambiguous, scripts_have_one_fault, spelled_rules_have_no_fault,
    spelled_scripts_have_no_fault, worked_edits,
};
pub use script::read_script;
