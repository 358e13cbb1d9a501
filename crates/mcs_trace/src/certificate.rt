//! Certificates as data. What is said of them here is what they claim; a checker has to test it.

use crate::trace::Trace;

/// Whether a formula follows from others, and what shows it. `Yes` has a trace that refutes these
/// with its negation. `No` has an assignment under which these hold and it does not, as the set of
/// the true atoms. In the set, bit i is atom i+1.
pub enum Entail {
    Yes(Trace),
    No(u64),
}

impl Drop for Entail {
    fn drop(self) {
        match self {
            Entail::Yes(_) => {}
            Entail::No(_) => {}
        }
    }
}

/// For each belief of a classical context whether it follows, and what shows it.
#[derive(Drop)]
pub struct ClassicalCert {
    pub entails: Vec<Entail>,
}

/// Why a default does not apply to the beliefs that a set of defaults generates. Defaults and
/// justifications are numbered from 1.
pub enum Outside {
    /// The prerequisite of the default with this number does not follow: a `No`.
    Unsupported(u32, Entail),
    /// The negation of a justification of a default follows: the number of the default, that of the
    /// justification, and a `Yes`.
    Blocked(u32, u32, Entail),
}

impl Drop for Outside {
    fn drop(self) {
        match self {
            Outside::Unsupported(_, _) => {}
            Outside::Blocked(_, _, _) => {}
        }
    }
}

/// A verdict on a set of defaults: why it generates an extension of the theory, or why it does not.
pub enum SetCert {
    /// A default of the set does not apply.
    Fails(Outside),
    /// The default with this number is not in the set and applies: its prerequisite follows (`pre`,
    /// a `Yes`), and the negation of no justification does (`justs`, a `No` for each).
    Applied {
        number: u32,
        pre: Entail,
        justs: Vec<Entail>,
    },
    /// With the defaults of a proper subset, `closed`, the prerequisites of the others of the set
    /// do not follow (`pres`, a `No` for each, ascending). In `closed`, bit i is default i+1.
    Ungrounded {
        closed: u32,
        pres: Vec<Entail>,
    },
    /// The set generates an extension. In the order `order` each prerequisite follows by means of
    /// the defaults before it (`pres`, a `Yes` for each). The negation of no justification follows
    /// (`justs`, a `No` for each, by ascending default). No default outside the set applies
    /// (`outside`, ascending). For each belief it is shown whether it follows (`outputs`).
    Extension {
        order: Vec<u32>,
        pres: Vec<Entail>,
        justs: Vec<Entail>,
        outside: Vec<Outside>,
        outputs: Vec<Entail>,
    },
}

impl Drop for SetCert {
    fn drop(self) {
        match self {
            SetCert::Fails(_) => {}
            SetCert::Applied {
                number: _,
                pre: _,
                justs: _,
            } => {}
            SetCert::Ungrounded { closed: _, pres: _ } => {}
            SetCert::Extension {
                order: _,
                pres: _,
                justs: _,
                outside: _,
                outputs: _,
            } => {}
        }
    }
}

/// For each set of the defaults of a theory a verdict, ascending by the number of the set. In this
/// number, bit i is default i+1.
pub struct DefaultCert {
    pub sets: Vec<SetCert>,
}

impl Drop for DefaultCert {
    fn drop(self) {
        let DefaultCert { sets: _ } = self;
    }
}

/// A model of a program, and a trace that no proper subset of it satisfies its reduct. In the
/// model, bit i is atom i+1.
pub struct AnswerSetCert {
    pub model: u64,
    pub minimal: Trace,
}

impl Drop for AnswerSetCert {
    fn drop(self) {
        let AnswerSetCert {
            model: _,
            minimal: _,
        } = self;
    }
}

/// One answer set for each state of a program that is output; smaller sets, each of which satisfies
/// the reduct by some other model and is a proper subset of it; and a trace. The trace shows that
/// every other model either has one of these states, or is undone by one of the smaller sets.
pub struct ProgramCert {
    /// One for each state, in the order of states.
    pub models: Vec<AnswerSetCert>,
    /// The smaller sets. In each, bit i is atom i+1.
    pub smaller: Vec<u64>,
    /// The trace for all other models.
    pub none: Trace,
}

impl Drop for ProgramCert {
    fn drop(self) {
        let ProgramCert {
            models: _,
            smaller: _,
            none: _,
        } = self;
    }
}
