//! Clauses by what they mean: their models, at the atoms, are those of formulas. They are fewer
//! than where each occurrence of a subformula has a variable of its own, as a certificate wants it.
#![tactic(auto)]

mod gates;
mod meant;

pub use meant::clauses_for;
