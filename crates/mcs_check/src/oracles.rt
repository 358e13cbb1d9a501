//! Oracles that answer with the answers of a report.

ghost use Rattle.std.specs.Prelude.{◌≡◌, ◌<◌, ℕ, List, [], length, IfOk, OnOk};
ghost use Rattle.std.specs.Arc.{arc_value};
ghost use Rattle.std.specs.List.{AllByRecursion};
ghost use Rattle.mcs_system.specs.Faults.{IsValid};
ghost use Rattle.mcs_proof_text.specs.Answers.{Answer};
ghost use Rattle.mcs_check.specs.Answers.{oracles_for};
ghost use Rattle.mcs_check.specs.Judging.{AreJudged, AreAllRight, AreSorted, HoldOneMore};

use crate::certified::CertifiedOracle;
use crate::judging::Judged;
use mcs_base::{Active, Memory, Vars};
use mcs_system::System;
use std::alloc::Global;
use std::sync::Arc;

/// As many lists as there are contexts, each without answers.
fn no_answers(alloc: Global, contexts: usize) -> Result<Vec<Vec<(Active, Vec<Vars>)>>, Memory>
    ensures many { IfOk result (λ lists. length lists.items ≡ contexts) }
    ensures empty { IfOk result (λ lists. AllByRecursion (λ own. own.items ≡ []) lists.items) }
{
    let mut lists = Vec::new(alloc);
    for _ in 0..contexts {
        lists.push(Vec::new(alloc))?;
    }
    Ok(lists)
}

/// Appends the answer to the list of its context.
fn put(lists: &mut Vec<Vec<(Active, Vec<Vars>)>>, answer: Judged) -> Result<(), Memory>
    requires { answer.context < length lists.old.items }
    ensures { OnOk result (HoldOneMore answer lists.old.items lists.new.items) }
{
    lists[answer.context as usize].push((answer.active, answer.outputs))?;
    Ok(())
}

/// For each context, in order, the answers to its questions, in their order: for each rule set the
/// states that are output. The context of each answer has to be below `contexts`.
fn by_context(
    alloc: Global,
    contexts: usize,
    answers: Vec<Judged>,
) -> Result<Vec<Vec<(Active, Vec<Vars>)>>, Memory>
    requires { AllByRecursion (λ a. a.context < contexts) answers.items }
    ensures { IfOk result (λ lists. AreSorted contexts answers.items lists.items) }
{
    let mut lists = no_answers(alloc, contexts)?;
    for answer in answers {
        put(&mut lists, answer)?;
    }
    Ok(lists)
}

/// An oracle for each context of the system, in order, with the answers to its questions. No
/// question was asked yet. The answers have to be right, and ordered by context and then by rule
/// set.
pub(crate) fn oracles_of(
    alloc: Global,
    system: &Arc<System>,
    answers: Vec<Judged>,
) -> Result<Vec<CertifiedOracle>, Memory>
    requires { AreAllRight (arc_value system.now) answers.items }
    ensures oracles { (n : ℕ) (as' : List Answer)
        → AreJudged (arc_value system.now) n as' answers.items
        → IfOk result (λ oracles. oracles.items ≡ oracles_for (arc_value system.now) as') }
    ensures valid { OnOk result (IsValid (arc_value system.now)) }
{
    let lists = by_context(alloc, system.contexts().len(), answers)?;
    let mut oracles = Vec::new(alloc);
    for own in lists {
        let shared = system.clone()?;
        let context = oracles.len() as u32;
        oracles.push(CertifiedOracle::new(alloc, shared, context, own))?;
    }
    Ok(oracles)
}
