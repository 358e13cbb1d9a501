//! Questions about one default.

ghost use Rattle.std.specs.Prelude.{◌≡◌, ◌≤◌, ◌+◌, ◌^◌, List, length, map, IfOk, OnErr};
ghost use Rattle.mcs_system.specs.Plain as plain;
ghost use Rattle.mcs_system.specs.Seen.{formula_of, default_of};
ghost use Rattle.mcs_cnf.specs.ClauseLists.{IsOver, AreOver};
ghost use Rattle.mcs_cnf.specs.Entailments.{entailment_of, says_yes, IsAcceptedEntailment};
ghost use Rattle.mcs_grounding.specs.Asked.{theory_names};
ghost use Rattle.mcs_grounding.specs.Theories.{AreClausesOf};
ghost use Rattle.mcs_evidence.specs.Theories.{IsOverDefault};
ghost use Rattle.mcs_default.specs.Told.{IsToldOfJusts, IsToldOfDefault, TellsOf};

use mcs_base::Memory;
use mcs_classical::{Given, entails_from, says_yes};
use mcs_grounding::Theory;
use mcs_system::{Default, Formula};
use mcs_trace::{Cnf, Entail, Outside};
use std::alloc::Global;

/// What is told of the justifications of a default.
#[derive(Drop)]
pub(crate) enum Justs {
    /// No negation of one follows.
    Allowed(Vec<Entail>),
    /// The negation of the one of this number follows.
    Blocked(u32, Entail),
}

/// What is told of a default.
#[derive(Drop)]
pub(crate) enum Standing {
    /// It does not apply.
    Absent(Outside),
    /// It applies: the prerequisite follows, and no negation of a justification does.
    Applies(Entail, Vec<Entail>),
}

/// The number, from 1, of what stands at the index. Certificates have no numbers from 2^32 on:
/// there, and only there, the answer is want of memory.
fn numbered(index: usize) -> Result<u32, Memory>
    ensures number { IfOk result (λ n. n ≡ index + 1) }
    ensures none { OnErr result (2 ^ 32 ≤ index + 1) }
{
    if index >= 0xffff_ffff {
        return Err(Memory);
    }
    Ok(index as u32 + 1)
}

/// Whether the negation of the formula follows, as `entails_from` tells it of the formula.
fn refutes_from(
    alloc: Global,
    known: &mut Cnf,
    formula: &Formula,
    theory: &Theory<'_>,
) -> Result<Entail, Memory>
    requires over { IsOver (theory_names theory.now) (formula_of formula.now) }
    requires room { length (theory_names theory.now) ≤ known.old.vars }
    ensures kept { known.new ≡ known.old }
    ensures accepted { IfOk result (λ e. (fs : List plain.Formula)
        → AreClausesOf (theory_names theory.now) fs known.old
        → IsAcceptedEntailment (theory_names theory.now) fs (plain.Not (formula_of formula.now))
        (entailment_of e)) }
{
    let goal = Formula::Not(Box::new(alloc, formula.copy(alloc)?)?);
    let given = Given {
        asked: theory.asked,
        assumptions: &[],
    };
    let entail = entails_from(alloc, known, &goal, &given);
    drop(goal);
    entail
}

/// Asks of each justification whether its negation follows, up to the first of which it does.
pub(crate) fn ask_justs(
    alloc: Global,
    known: &mut Cnf,
    justs: &[Formula],
    theory: &Theory<'_>,
) -> Result<Justs, Memory>
    requires over { AreOver (theory_names theory.now) (map formula_of justs.now) }
    requires room { length (theory_names theory.now) ≤ known.old.vars }
    ensures { TellsOf (theory_names theory.now) known.old known.new result (λ told fs.
        IsToldOfJusts (theory_names theory.now) fs (map formula_of justs.now) told) }
{
    let mut allowed = Vec::new(alloc);
    for (index, just) in justs.iter().enumerate() {
        let number = numbered(index)?;
        let entail = refutes_from(alloc, known, just, theory)?;
        if says_yes(&entail) {
            return Ok(Justs::Blocked(number, entail));
        }
        allowed.push(entail)?;
    }
    Ok(Justs::Allowed(allowed))
}

/// Asks whether the default, which has this number, applies.
pub(crate) fn ask_default(
    alloc: Global,
    known: &mut Cnf,
    default: &Default,
    number: u32,
    theory: &Theory<'_>,
) -> Result<Standing, Memory>
    requires over { IsOverDefault (theory_names theory.now) (default_of default.now) }
    requires room { length (theory_names theory.now) ≤ known.old.vars }
    ensures { TellsOf (theory_names theory.now) known.old known.new result (λ told fs.
        IsToldOfDefault (theory_names theory.now) fs (default_of default.now) number told) }
{
    let given = Given {
        asked: theory.asked,
        assumptions: &[],
    };
    let pre = entails_from(alloc, known, &default.pre, &given)?;
    if !says_yes(&pre) {
        return Ok(Standing::Absent(Outside::Unsupported(number, pre)));
    }
    match ask_justs(alloc, known, &default.justs, theory) {
        Ok(Justs::Allowed(justs)) => Ok(Standing::Applies(pre, justs)),
        Ok(Justs::Blocked(just, entail)) => {
            drop(pre);
            Ok(Standing::Absent(Outside::Blocked(number, just, entail)))
        }
        Err(want) => {
            drop(pre);
            Err(want)
        }
    }
}
