//! Whether a default of a set fails by the facts and the consequents of the set.

ghost use Rattle.std.specs.Prelude.{◌≡◌, ◌≤◌, ◌++◌, List, length, IfOk, OnOk};
ghost use Rattle.mcs_system.specs.Plain as plain;
ghost use Rattle.mcs_grounding.specs.Asked.{theory_names, theory_defaults};
ghost use Rattle.mcs_grounding.specs.Theories.{AreClausesOf, consequents};
ghost use Rattle.mcs_default.specs.Told.{IsToldInside, TellsOf};

use crate::asking::{Justs, ask_justs};
use crate::theory::push_consequents;
use mcs_base::{Memory, Vars};
use mcs_grounding::Theory;
use mcs_trace::{Cnf, Entail, Outside};
use std::alloc::Global;

/// What is told of the justifications of the defaults of a set.
#[derive(Drop)]
pub(crate) enum Inside {
    /// A default fails.
    Fails(Outside),
    /// No negation of a justification follows.
    Allowed(Vec<Entail>),
}

/// Asks of each default of the set whether the negation of a justification follows, up to the first
/// that fails.
fn ask_inside(
    alloc: Global,
    known: &mut Cnf,
    theory: &Theory<'_>,
    set: Vars,
) -> Result<Inside, Memory>
    requires room { length (theory_names theory.now) ≤ known.old.vars }
    ensures { TellsOf (theory_names theory.now) known.old known.new result (λ told fs.
        IsToldInside (theory_names theory.now) fs (theory_defaults theory.now) set told) }
{
    let defaults = theory.defaults;
    let mut allowed = Vec::new(alloc);
    for (index, default) in defaults.iter().enumerate() {
        if set.has(index as u32) {
            match ask_justs(alloc, known, &default.justs, theory)? {
                Justs::Allowed(mut justs) => allowed.append(&mut justs)?,
                Justs::Blocked(just, entail) => {
                    let number = index as u32 + 1;
                    return Ok(Inside::Fails(Outside::Blocked(number, just, entail)));
                }
            }
        }
    }
    Ok(Inside::Allowed(allowed))
}

/// The same by the facts, whose clauses are `known`, and the consequents of the set.
pub(crate) fn tell_inside(
    alloc: Global,
    known: &mut Cnf,
    theory: &Theory<'_>,
    set: Vars,
) -> Result<Inside, Memory>
    requires room { length (theory_names theory.now) ≤ known.old.vars }
    ensures kept { OnOk result (known.new ≡ known.old) }
    ensures told { IfOk result (λ told. (fs : List plain.Formula)
        → AreClausesOf (theory_names theory.now) fs known.old
        → IsToldInside (theory_names theory.now) (fs
        ++ consequents (theory_defaults theory.now) set) (theory_defaults theory.now) set told) }
{
    let vars = known.vars();
    let count = known.clauses().len();
    push_consequents(alloc, known, theory, set)?;
    let told = ask_inside(alloc, known, theory, set)?;
    known.cut(vars, count);
    Ok(told)
}
