//! When certificates of default theories and of programs are accepted, and the clauses of the
//! formulas of a program.
#![tactic(auto)]

mod laws;
mod places;
mod program;
mod pushing;
mod support;
mod theory;

pub use laws::{
    answer_sets_are_supported, default_certificates_are_sound, extensions_are_generated,
    kinds_have_listings, program_certificates_are_sound,
};
pub use places::names_at;
pub use program::{push_beside, rest_clauses, smaller_clauses};
pub use support::push_support;
pub use theory::defaults_of;
