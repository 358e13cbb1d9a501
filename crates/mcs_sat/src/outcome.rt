//! The result of a search.

use mcs_trace::Trace;

/// An assignment that satisfies all clauses, with the value of variable v at the index v-1; or an
/// accepted trace that there is none.
#[derive(Drop)]
pub enum Outcome {
    Model(Vec<bool>),
    Refuted(Trace),
}
