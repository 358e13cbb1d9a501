//! Whether a default outside a set applies by the facts and the consequents of the set, and what is
//! believed if not.

ghost use Rattle.std.specs.Prelude.{◌≡◌, ◌≤◌, ◌++◌, List, length, IfOk, OnOk};
ghost use Rattle.mcs_system.specs.Plain as plain;
ghost use Rattle.mcs_grounding.specs.Asked.{theory_names, theory_beliefs, theory_defaults};
ghost use Rattle.mcs_grounding.specs.Theories.{AreClausesOf, consequents};
ghost use Rattle.mcs_default.specs.Told.{IsToldOutside, IsToldOfRest, TellsOf};

use crate::asking::{Standing, ask_default};
use crate::theory::push_consequents;
use mcs_base::{Memory, Vars};
use mcs_classical::{Given, outputs_from};
use mcs_grounding::Theory;
use mcs_trace::{Cnf, Entail, Outside};
use std::alloc::Global;

/// What is told of the defaults outside a set.
#[derive(Drop)]
pub(crate) enum Others {
    /// The default of this number applies.
    Applied(u32, Entail, Vec<Entail>),
    /// None applies.
    Absent(Vec<Outside>),
}

/// What is told of the defaults outside a set, and of the beliefs.
#[derive(Drop)]
pub(crate) enum Rest {
    /// The default of this number applies.
    Applied(u32, Entail, Vec<Entail>),
    /// None applies, and exactly these beliefs follow.
    Complete(Vec<Outside>, Vars, Vec<Entail>),
}

/// Asks of each default outside the set whether it applies, up to the first that does.
fn ask_outside(
    alloc: Global,
    known: &mut Cnf,
    theory: &Theory<'_>,
    set: Vars,
) -> Result<Others, Memory>
    requires room { length (theory_names theory.now) ≤ known.old.vars }
    ensures { TellsOf (theory_names theory.now) known.old known.new result (λ told fs.
        IsToldOutside (theory_names theory.now) fs (theory_defaults theory.now) set told) }
{
    let defaults = theory.defaults;
    let mut absent = Vec::new(alloc);
    for (index, default) in defaults.iter().enumerate() {
        if !set.has(index as u32) {
            let number = index as u32 + 1;
            match ask_default(alloc, known, default, number, theory)? {
                Standing::Absent(absence) => absent.push(absence)?,
                Standing::Applies(pre, justs) => return Ok(Others::Applied(number, pre, justs)),
            }
        }
    }
    Ok(Others::Absent(absent))
}

/// Asks the defaults outside the set, and where none applies the beliefs.
fn ask_rest(alloc: Global, known: &mut Cnf, theory: &Theory<'_>, set: Vars) -> Result<Rest, Memory>
    requires room { length (theory_names theory.now) ≤ known.old.vars }
    ensures { TellsOf (theory_names theory.now) known.old known.new result (λ told fs.
        IsToldOfRest (theory_names theory.now) fs (theory_defaults theory.now) (theory_beliefs
        theory.now) set told) }
{
    let given = Given {
        asked: theory.asked,
        assumptions: &[],
    };
    match ask_outside(alloc, known, theory, set)? {
        Others::Applied(number, pre, justs) => Ok(Rest::Applied(number, pre, justs)),
        Others::Absent(absent) => match outputs_from(alloc, known, &given) {
            Ok((view, shown)) => Ok(Rest::Complete(absent, view, shown.entails)),
            Err(want) => {
                drop(absent);
                Err(want)
            }
        },
    }
}

/// The same by the facts, whose clauses are `known`, and the consequents of the set.
pub(crate) fn tell_rest(
    alloc: Global,
    known: &mut Cnf,
    theory: &Theory<'_>,
    set: Vars,
) -> Result<Rest, Memory>
    requires room { length (theory_names theory.now) ≤ known.old.vars }
    ensures kept { OnOk result (known.new ≡ known.old) }
    ensures told { IfOk result (λ told. (fs : List plain.Formula)
        → AreClausesOf (theory_names theory.now) fs known.old
        → IsToldOfRest (theory_names theory.now) (fs
        ++ consequents (theory_defaults theory.now) set) (theory_defaults theory.now)
        (theory_beliefs theory.now) set told) }
{
    let vars = known.vars();
    let count = known.clauses().len();
    push_consequents(alloc, known, theory, set)?;
    let told = ask_rest(alloc, known, theory, set)?;
    known.cut(vars, count);
    Ok(told)
}
