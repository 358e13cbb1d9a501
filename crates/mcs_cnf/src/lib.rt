//! The clauses of formulas, and when evidence is accepted that a formula follows from others or
//! does not.
#![tactic(auto)]

mod formulas;
mod laws;
mod literals;
mod model;
mod occurrences;
mod over;

pub use formulas::{atom_number, clauses, push_all, push_formula, push_negation};
pub use laws::{
    classical_certificates_are_sound, clauses_are_sets, clauses_mean_the_formulas,
    contexts_are_over_their_atoms, entailment_is_refutation, entailments_are_sound,
    formulas_are_over_their_atoms,
};
pub use literals::{push_clause, push_unit};
pub use model::model_shown;
pub use occurrences::{push_and, push_falsity, push_implies, push_not, push_or, push_truth};
pub use over::{are_different, are_over, is_over};
