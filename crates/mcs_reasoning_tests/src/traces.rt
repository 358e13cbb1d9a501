//! Traces, and whether they are accepted.

use crate::searches::list;
use mcs_base::Memory;
use mcs_trace::{Clause, Cnf, Step, Trace, accepted_traces_refute, check};
use std::alloc::Global;

/// The trace of steps that resolve the empty clause, each from one of the chains.
fn trace_of(alloc: Global, chains: &[&[u64]]) -> Result<Trace, Memory> {
    let mut steps = Vec::new(alloc);
    for chain in chains {
        let chain = chain.to_vec(alloc)?;
        steps.push(Step {
            clause: Clause::empty(alloc),
            chain,
        })?;
    }
    Ok(Trace { steps })
}

/// Whether the trace of steps that resolve the empty clause is accepted exactly where it is said.
pub(crate) fn is_told(
    alloc: Global,
    cnf: &Cnf,
    chains: &[&[u64]],
    accepted: bool,
) -> Result<bool, Memory> {
    let trace = trace_of(alloc, chains)?;
    let is_accepted = check(alloc, cnf, &trace);
    drop(trace);
    Ok(is_accepted? == accepted)
}

/// Traces, the last of which has no steps.
static TRACES: [(&[&[u64]], bool); 7] = [
    (&[&[1, 2]], true),
    (&[&[2, 1]], true),
    (&[&[1, 1]], false),
    (&[&[1, 3]], false),
    (&[&[1]], false),
    (&[&[]], false),
    (&[], false),
];

/// Whether the list is of one variable and two clauses, and the traces of it are accepted where
/// that is said.
fn are_told(alloc: Global, cnf: &Cnf) -> bool {
    let mut are_right = cnf.vars() == 1 && cnf.clauses().len() == 2;
    for (chains, accepted) in &TRACES {
        are_right &= is_told(alloc, cnf, chains, *accepted) == Ok(true);
    }
    are_right
}

/// The same of two clauses that contradict one another.
fn are_units_told(alloc: Global) -> bool {
    let Some(cnf) = list(alloc, 1, &[&[1], &[-1]]) else {
        return false;
    };
    let are_told = are_told(alloc, &cnf);
    drop(cnf);
    are_told
}

#[test]
fn two_units_are_refuted_by_one_step(rt: HostRuntime) {
    assert!(rt; are_units_told(rt.alloc()));
    accepted_traces_refute();
}
