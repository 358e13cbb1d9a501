//! Grounded equilibria of plain systems: those of the equilibria in which no belief only supports
//! itself. For each projected equilibrium the rules that apply in it are derived from nothing. The
//! answer sets of a program are listed only if what all of them have in common does not settle it.
#![tactic(auto)]

mod basis;
mod bounds;
mod cone;
mod derivation;
mod found;
mod listing;
mod normal;
mod placed;
mod places;
mod search;
mod views;

pub use listing::{grounded_among, list_grounded};
