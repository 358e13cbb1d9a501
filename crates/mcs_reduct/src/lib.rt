//! Grounded equilibria of plain systems, as definitions: those equilibria in which no belief only
//! supports itself. The notion is this project's own. A system is plain if its contexts are
//! classical or normal programs. A belief state of it is grounded if it is the least equilibrium of
//! a reduct: bridge rules with a negative read that it believes are dropped, so are the negative
//! reads of the others, and each program is replaced by its reduct.
#![tactic(auto)]

mod laws;
mod plain;

pub use laws::{
    blocked_rules_are_dropped, grounded_are_equilibria, grounded_equilibria_have_a_listing,
    plain_contexts, worked_systems,
};
pub use plain::not_plain;
