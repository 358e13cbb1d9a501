//! Laws over the definitions. The functions compute nothing: each contract is a law.

ghost use Rattle.mcs_trace.specs.Traces.{AcceptedTracesRefute};

/// No assignment satisfies the clauses of an accepted trace.
pub fn accepted_traces_refute()
    ensures { AcceptedTracesRefute }
{}
