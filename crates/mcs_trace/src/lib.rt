//! Propositional clauses, and traces of resolution steps. A trace that derives the empty clause
//! shows that no assignment satisfies the clauses from which it is derived.
#![tactic(auto)]

mod certificate;
mod checker;
mod clause;
mod cnf;
mod laws;
mod literal;
mod resolvent;
mod trace;

pub use certificate::{
    AnswerSetCert, ClassicalCert, DefaultCert, Entail, Outside, ProgramCert, SetCert,
};
pub use checker::{check, numbered};
pub use clause::Clause;
pub use cnf::Cnf;
pub use laws::accepted_traces_refute;
pub use literal::{is_literal, place};
pub use resolvent::resolve;
pub use trace::{Step, Trace};
