//! Whether certificates show that formulas follow from others, or do not, and what a classical
//! context believes: decided without a search, by checking traces and evaluating formulas.
#![tactic(auto)]

mod classical;
mod entailment;
mod premises;

pub use classical::{classical_views, one_view};
pub use entailment::{denies, deny, is_in_range, shown_places, shows};
pub use premises::{clauses_of, formulas_with, lend};
