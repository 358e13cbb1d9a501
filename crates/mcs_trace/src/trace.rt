//! Traces of resolution steps.

use crate::clause::Clause;

/// A resolution step: a clause, and its chain, the numbers of the clauses from which it is
/// resolved. The first is resolved with each next one in turn. Clauses are numbered from 1, and the
/// steps of a trace continue these numbers.
pub struct Step {
    pub clause: Clause,
    pub chain: Vec<u64>,
}

impl Drop for Step {
    fn drop(self) {
        let Step {
            clause: _,
            chain: _,
        } = self;
    }
}

/// A list of steps. In an accepted trace each chain names clauses of the list and earlier steps
/// alone.
pub struct Trace {
    pub steps: Vec<Step>,
}

impl Drop for Trace {
    fn drop(self) {
        let Trace { steps: _ } = self;
    }
}
