//! Certificates of what a context accepts, made by hand.

use crate::numbered::are_numbered;
use crate::programs::{program_in, shown};
use crate::systems::{first_knowledge, system_of};
use crate::theories::{beliefs_of, theory_in};
use crate::traces::trace_of;
use mcs_base::{Active, Memory, Vars};
use mcs_certificate::{AnswerCert, accepts};
use mcs_check::CertifiedOracle;
use mcs_cnf::{are_different, are_over};
use mcs_default::extensions;
use mcs_states::{Oracle, OracleStop};
use mcs_system::System;
use mcs_trace::{ClassicalCert, DefaultCert, Entail, Trace};
use std::alloc::Global;
use std::mem;
use std::sync::Arc;
use std::test::Fail;

/// The second context reads the one fact of the first.
const FACT: &str = "context c1 classical { a. } context c2 classical {} bridge r: c2:b if c1:a.";

/// The first context reads the one fact of the second.
const SECOND_FACT: &str =
    "context c1 classical {} context c2 classical { a. } bridge r: c1:b if c2:a.";

/// The rule tells the context what the context did not believe.
const TOLD: &str = "context c classical {} bridge r: c:a if not c:a.";

/// One fact, which is read.
const ONE: &str = "context c1 program { a. } context c2 classical {} bridge r: c2:b if c1:a.";

/// Two defaults, of which the first gives the prerequisite of the second, which has two
/// justifications; and what is read of the theory.
const BIRD: &str = "context c1 default { bird. bird : flies / flies. flies : wings, ~ill / wings. }
context c2 classical { flies. }
bridge r: c2:x if c1:flies.";

/// What a certificate of a context with one fact says of its one belief. Clause 1 is the fact;
/// clauses 2 and 3 say that variable 2 is the negation of variable 1, that of the fact; clause 4 is
/// that the negation holds.
enum Claim {
    /// It follows, by this trace.
    Follows(&'static str),
    /// It does not follow, since it does not hold where no atom does.
    Fails,
    /// Nothing: it is a certificate of a default theory.
    OfAnotherKind,
}

/// The certificate that says this of the one belief.
fn of_belief(alloc: Global, entail: Entail) -> Result<AnswerCert, Fail> {
    let mut entails = Vec::new(alloc);
    entails.push(entail)?;
    Ok(AnswerCert::Classical(ClassicalCert { entails }))
}

/// The certificate that says this.
fn certificate(alloc: Global, claim: &Claim) -> Result<AnswerCert, Fail> {
    match claim {
        Claim::Follows(lines) => of_belief(alloc, Entail::Yes(trace_of(alloc, lines)?)),
        Claim::Fails => of_belief(alloc, Entail::No(0)),
        Claim::OfAnotherKind => Ok(AnswerCert::Default(DefaultCert {
            sets: Vec::new(alloc),
        })),
    }
}

/// Whether the certificate is accepted of the context, with no rule, as showing the outputs.
fn is_accepted(
    alloc: Global,
    system: &System,
    context: u32,
    outputs: &[Vars],
    shown: &AnswerCert,
) -> Result<bool, Memory> {
    if context as usize >= system.contexts().len()
        || !Active::empty().within(system.rules_of(context))
    {
        return Ok(false);
    }
    accepts(alloc, system, context, Active::empty(), outputs, shown)
}

/// Whether the certificate that says this is accepted of the context as showing the state of this
/// number alone.
fn is_claimed(
    alloc: Global,
    system: &System,
    context: u32,
    claim: &Claim,
    state: u64,
) -> Result<bool, Fail> {
    let shown = certificate(alloc, claim)?;
    let accepted = is_accepted(alloc, system, context, &[Vars::numbered(state)], &shown);
    drop(shown);
    Ok(accepted?)
}

/// Of a context with one fact what a certificate says, the number of the state that it is to show,
/// and whether it is accepted: 1 where the fact is believed, and 0 where it is not.
const CLAIMS: &[(&str, u32, Claim, u64, bool)] = &[
    (FACT, 0, Claim::Follows("step by 1 2 4\n"), 1, true),
    (FACT, 0, Claim::Follows("step by 4 2 1\n"), 1, true),
    (SECOND_FACT, 1, Claim::Follows("step by 1 2 4\n"), 1, true),
    (FACT, 0, Claim::Follows("step by 1 2 4\n"), 0, false),
    (FACT, 0, Claim::Follows("step by 4 2 1\n"), 0, false),
    (SECOND_FACT, 1, Claim::Follows("step by 1 2 4\n"), 0, false),
    (FACT, 0, Claim::Follows("step by 1\n"), 1, false),
    (FACT, 0, Claim::Follows("step by 1\n"), 0, false),
    (FACT, 0, Claim::Follows("step by 1 2 5\n"), 1, false),
    (FACT, 0, Claim::Follows("step by 1 2 5\n"), 0, false),
    (FACT, 0, Claim::Fails, 1, false),
    (FACT, 0, Claim::Fails, 0, false),
    (FACT, 0, Claim::OfAnotherKind, 1, false),
    (FACT, 0, Claim::OfAnotherKind, 0, false),
];

#[test]
fn a_right_trace_alone_shows_what_is_believed(rt: HostRuntime) -> Result<(), Fail> {
    for (text, context, claim, state, is_right) in CLAIMS {
        let system = system_of(rt.alloc(), text)?;
        let accepted = is_claimed(rt.alloc(), &system, *context, claim, *state);
        drop(system);
        assert!(rt; accepted? == *is_right);
    }
    Ok(())
}

/// Whether what shows the answer sets of the program of the first context, through all its atoms,
/// is accepted as showing the state of the first atom alone: as it is, or where the trace that
/// refutes all others has no step any more.
fn is_program_shown(alloc: Global, system: &System, has_trace: bool) -> Result<bool, Memory> {
    if system.contexts().is_empty() {
        return Ok(false);
    }
    let (knowledge, atoms) = first_knowledge(system);
    let Some(rules) = program_in(knowledge, atoms) else {
        return Ok(false);
    };
    if !are_different(atoms) {
        return Ok(false);
    }
    let mut cert = shown(alloc, rules, atoms)?;
    if !has_trace {
        let steps = Vec::new(alloc);
        drop(mem::replace(&mut cert.none, Trace { steps }));
    }
    let shown = AnswerCert::Program(cert);
    let accepted = is_accepted(alloc, system, 0, &[Vars::one(0)], &shown);
    drop(shown);
    accepted
}

#[test]
fn a_program_is_shown_by_all_parts_of_its_certificate(rt: HostRuntime) -> Result<(), Fail> {
    let system = system_of(rt.alloc(), ONE)?;
    let whole = is_program_shown(rt.alloc(), &system, true);
    let without_trace = is_program_shown(rt.alloc(), &system, false);
    drop(system);
    assert!(rt; whole == Ok(true) && without_trace == Ok(false));
    Ok(())
}

/// Whether what shows the extensions of the theory of the first context, through the formulas of
/// the second, is accepted as showing that the first of these is believed.
fn is_theory_shown(alloc: Global, system: &System) -> Result<bool, Memory> {
    if system.contexts().is_empty() {
        return Ok(false);
    }
    let (knowledge, atoms) = first_knowledge(system);
    let beliefs = beliefs_of(system);
    let Some(items) = theory_in(knowledge, atoms) else {
        return Ok(false);
    };
    if beliefs.len() > 64 || !are_over(atoms, beliefs) || !are_different(atoms) {
        return Ok(false);
    }
    let (views, cert) = extensions(alloc, items, &[], beliefs, atoms)?;
    drop(views);
    let shown = AnswerCert::Default(cert);
    let accepted = is_accepted(alloc, system, 0, &[Vars::one(0)], &shown);
    drop(shown);
    accepted
}

#[test]
fn a_theory_is_shown_by_each_set_of_its_defaults(rt: HostRuntime) -> Result<(), Fail> {
    let system = system_of(rt.alloc(), BIRD)?;
    let is_shown = is_theory_shown(rt.alloc(), &system);
    drop(system);
    assert!(rt; is_shown == Ok(true));
    Ok(())
}

/// Whether an oracle that holds the answer for the rule alone, as the certificate shows it, tells
/// that the belief follows where the answer is held that it is asked for, and misses it where it is
/// not.
fn is_told(
    alloc: Global,
    system: &Arc<System>,
    shown: &AnswerCert,
    asked: Active,
    is_held: bool,
) -> Result<bool, Memory> {
    let rule = Active::one(0);
    if system.contexts().is_empty() {
        return Ok(false);
    }
    let own = system.rules_of(0);
    if !rule.within(own)
        || !asked.within(own)
        || !accepts(alloc, system, 0, rule, &[Vars::one(0)], shown)?
    {
        return Ok(false);
    }
    let mut outputs = Vec::new(alloc);
    outputs.push(Vars::one(0))?;
    let mut answers = Vec::new(alloc);
    answers.push((rule, outputs))?;
    let mut oracle = CertifiedOracle::new(alloc, system.clone()?, 0, answers);
    let is_right = match oracle.ask(alloc, asked) {
        Ok(states) => is_held && are_numbered(&states, &[1]),
        Err(stop) => !is_held && stop == OracleStop::Missing(asked),
    };
    let is_noted = oracle.journal() == [asked].as_slice();
    drop(oracle);
    Ok(is_right && is_noted == is_held)
}

/// Whether it tells the belief where it is asked with the rule, and has no answer where it is asked
/// with none.
fn are_told(alloc: Global, system: &Arc<System>) -> Result<[bool; 2], Fail> {
    let shown = certificate(alloc, &Claim::Follows("step by 1 2 4\n"))?;
    let with_rule = is_told(alloc, system, &shown, Active::one(0), true);
    let without = is_told(alloc, system, &shown, Active::empty(), false);
    drop(shown);
    Ok([with_rule?, without?])
}

#[test]
fn an_oracle_of_certificates_holds_its_answers_alone(rt: HostRuntime) -> Result<(), Fail> {
    let system = system_of(rt.alloc(), TOLD)?;
    let told = are_told(rt.alloc(), &system);
    drop(system);
    assert!(rt; told? == [true; 2]);
    Ok(())
}
