//! Lines of answers with certificates of each kind, made by hand, as they are written.

use crate::systems::system_of;
use crate::traces::trace_of;
use mcs_asking::AnswerCert;
use mcs_base::{Memory, Text, Vars};
use mcs_proof_text::{answer_lines, reports_have_one_fault, spelled_reports_have_no_fault};
use mcs_spelling::push_atoms;
use mcs_system::System;
use mcs_trace::{
    AnswerSetCert, ClassicalCert, DefaultCert, Entail, Outside, ProgramCert, SetCert, Trace,
};
use std::alloc::Global;
use std::test::Fail;

/// The first context has the atoms `a` and `b`, and is told by each of the rules.
const TOLD: &str = "context c1 classical { a | b. } context c2 classical {}
bridge r1: c1:b if c1:a. bridge r2: c1:a if not c1:b.";

/// By one step that it follows.
fn yes(alloc: Global) -> Result<Entail, Fail> {
    Ok(Entail::Yes(trace_of(alloc, "step by 1 2\n")?))
}

/// Appends that it follows, by one step.
fn push_yes(alloc: Global, entails: &mut Vec<Entail>) -> Result<(), Fail> {
    let entail = yes(alloc)?;
    entails.push(entail)?;
    Ok(())
}

/// By this set of atoms that it does not follow, alone.
fn only_no(alloc: Global, set: u64) -> Result<Vec<Entail>, Memory> {
    let mut entails = Vec::new(alloc);
    entails.push(Entail::No(set))?;
    Ok(entails)
}

/// Entailments, one that follows and one that does not.
fn of_formulas(alloc: Global) -> Result<AnswerCert, Fail> {
    let mut entails = only_no(alloc, 2)?;
    match push_yes(alloc, &mut entails) {
        Ok(()) => Ok(AnswerCert::Classical(ClassicalCert { entails })),
        Err(fail) => {
            drop(entails);
            Err(fail)
        }
    }
}

/// What shows of one of the sets of two defaults whether it generates an extension: each shows it
/// in its own way.
enum Verdict {
    Blocked,
    Applied,
    Ungrounded,
    Extension,
}

/// The verdicts on the sets in their order.
const VERDICTS: &[Verdict] = &[
    Verdict::Blocked,
    Verdict::Applied,
    Verdict::Ungrounded,
    Verdict::Extension,
];

/// The parts of a certificate that a set generates an extension.
#[derive(Drop)]
struct Parts {
    order: Vec<u32>,
    pres: Vec<Entail>,
    justs: Vec<Entail>,
    outside: Vec<Outside>,
    outputs: Vec<Entail>,
}

impl Parts {
    /// Fills the parts, which are empty, for the set of both defaults.
    fn fill(&mut self, alloc: Global) -> Result<(), Fail> {
        self.order.push(2)?;
        self.order.push(1)?;
        push_yes(alloc, &mut self.pres)?;
        self.justs.push(Entail::No(0))?;
        self.outside.push(Outside::Unsupported(1, Entail::No(1)))?;
        self.outputs.push(Entail::No(3))?;
        Ok(())
    }

    /// The certificate.
    fn shown(self) -> SetCert {
        SetCert::Extension {
            order: self.order,
            pres: self.pres,
            justs: self.justs,
            outside: self.outside,
            outputs: self.outputs,
        }
    }
}

/// That the set of both defaults generates an extension.
fn extension(alloc: Global) -> Result<SetCert, Fail> {
    let mut parts = Parts {
        order: Vec::new(alloc),
        pres: Vec::new(alloc),
        justs: Vec::new(alloc),
        outside: Vec::new(alloc),
        outputs: Vec::new(alloc),
    };
    match parts.fill(alloc) {
        Ok(()) => Ok(parts.shown()),
        Err(fail) => {
            drop(parts);
            Err(fail)
        }
    }
}

/// That the second default applies and is not in the set.
fn applied(alloc: Global) -> Result<SetCert, Fail> {
    let justs = only_no(alloc, 1)?;
    match yes(alloc) {
        Ok(pre) => Ok(SetCert::Applied {
            number: 2,
            pre,
            justs,
        }),
        Err(fail) => {
            drop(justs);
            Err(fail)
        }
    }
}

/// That the second default is not grounded in the first one.
fn ungrounded(alloc: Global) -> Result<SetCert, Memory> {
    let pres = only_no(alloc, 2)?;
    Ok(SetCert::Ungrounded { closed: 1, pres })
}

/// The verdict.
fn shown(alloc: Global, verdict: &Verdict) -> Result<SetCert, Fail> {
    match verdict {
        Verdict::Blocked => Ok(SetCert::Fails(Outside::Blocked(1, 2, yes(alloc)?))),
        Verdict::Applied => applied(alloc),
        Verdict::Ungrounded => Ok(ungrounded(alloc)?),
        Verdict::Extension => extension(alloc),
    }
}

/// Appends verdicts of each kind.
fn push_verdicts(alloc: Global, sets: &mut Vec<SetCert>) -> Result<(), Fail> {
    for verdict in VERDICTS {
        let set = shown(alloc, verdict)?;
        sets.push(set)?;
    }
    Ok(())
}

/// Verdicts of each kind.
fn of_defaults(alloc: Global) -> Result<AnswerCert, Fail> {
    let mut sets = Vec::new(alloc);
    match push_verdicts(alloc, &mut sets) {
        Ok(()) => Ok(AnswerCert::Default(DefaultCert { sets })),
        Err(fail) => {
            drop(sets);
            Err(fail)
        }
    }
}

/// Appends a model, with the trace that it is minimal.
fn push_model(alloc: Global, models: &mut Vec<AnswerSetCert>) -> Result<(), Fail> {
    let minimal = trace_of(alloc, "step 1 -2 by 3\n")?;
    models.push(AnswerSetCert { model: 1, minimal })?;
    Ok(())
}

/// Appends a model and two smaller sets; a last trace.
fn fill_program(
    alloc: Global,
    models: &mut Vec<AnswerSetCert>,
    smaller: &mut Vec<u64>,
) -> Result<Trace, Fail> {
    push_model(alloc, models)?;
    smaller.push(0)?;
    smaller.push(2)?;
    trace_of(alloc, "step by 4\n")
}

/// A model, two smaller sets, and a last trace.
fn of_program(alloc: Global) -> Result<AnswerCert, Fail> {
    let (mut models, mut smaller) = (Vec::new(alloc), Vec::new(alloc));
    match fill_program(alloc, &mut models, &mut smaller) {
        Ok(none) => Ok(AnswerCert::Program(ProgramCert {
            models,
            smaller,
            none,
        })),
        Err(fail) => {
            drop((models, smaller));
            Err(fail)
        }
    }
}

const FORMULAS: &str =
    "answer c1 {r1, r2}\nstate {c1:a, c1:b}\nstate {}\nno {b}\nyes\nstep by 1 2\ndone\n{b}";

const DEFAULTS: &str =
    "answer c1 {r1, r2}\nstate {c1:a, c1:b}\nstate {}\nset {}\nblocked 1 2\nyes\nstep by 1 2\n\
set {1}\napplied 2\nyes\nstep by 1 2\nno {a}\nset {2}\nungrounded {1}\nno {b}\nset {1, 2}\nextension 2 1\nyes\n\
step by 1 2\nno {}\nunsupported 1\nno {a}\nno {a, b}\ndone\n{b}";

const PROGRAM: &str =
    "answer c1 {r1, r2}\nstate {c1:a, c1:b}\nstate {}\nmodel {a}\nstep 1 -2 by 3\nsmaller {}\nsmaller {b}\nnone\n\
step by 4\ndone\n{b}";

/// Whether the lines of an answer, and then the set of the second atom, are this text: the answer
/// of the first context with each rule into it, where a state with all its variables and the empty
/// state are put out.
#[tactic(auto, using(mcs_system::proofs::ContextSets::rules_into_known))]
fn is_written(
    alloc: Global,
    system: &System,
    shown: AnswerCert,
    lines: &str,
) -> Result<bool, Memory> {
    if system.contexts().is_empty() {
        drop(shown);
        return Ok(false);
    }
    let outputs = [system.vars_of(0), Vars::empty()];
    let mut text = Text::new(alloc);
    let done = answer_lines(system, 0, system.rules_of(0), &outputs, &shown, &mut text);
    drop(shown);
    done?;
    push_atoms(&mut text, system.atoms_of(0), 2)?;
    Ok(text.bytes() == lines.as_bytes())
}

/// The kinds of certificates.
enum Kind {
    Formulas,
    Defaults,
    Program,
}

/// The certificate of the kind.
fn certificate(alloc: Global, kind: &Kind) -> Result<AnswerCert, Fail> {
    match kind {
        Kind::Formulas => of_formulas(alloc),
        Kind::Defaults => of_defaults(alloc),
        Kind::Program => of_program(alloc),
    }
}

/// Kinds of certificates, and the texts of answers with them.
const ANSWERS: &[(Kind, &str)] = &[
    (Kind::Formulas, FORMULAS),
    (Kind::Defaults, DEFAULTS),
    (Kind::Program, PROGRAM),
];

#[test]
fn answers_are_written(rt: HostRuntime) -> Result<(), Fail> {
    spelled_reports_have_no_fault();
    reports_have_one_fault();
    let system = system_of(rt.alloc(), TOLD)?;
    let mut are_written = true;
    for (kind, lines) in ANSWERS {
        let shown = certificate(rt.alloc(), kind)?;
        are_written &= is_written(rt.alloc(), &system, shown, lines) == Ok(true);
    }
    drop(system);
    assert!(rt; are_written);
    Ok(())
}
