//! Minimal transversals (hitting sets) of a hypergraph: the minimal sets of marks that meet each
//! edge.
#![tactic(auto)]

mod barred;
mod berge;
mod critical_edges;
mod laws;

pub use berge::minimal_transversals;
pub use critical_edges::{critical, first_critical_edges};
pub use laws::minimality_is_critical;
