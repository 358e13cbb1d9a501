//! What a context accepts, projected to its variables.

ghost use Rattle.std.specs.Prelude.{◌<◌, length, IfOk};
ghost use Rattle.mcs_sets.specs.Orders.{StateBefore};
ghost use Rattle.mcs_base.specs.Listings.{IsListing};
ghost use Rattle.mcs_system.specs.Systems.{IsAcceptedPart};
ghost use Rattle.mcs_asking.specs.Certificates.{IsAccepted};
ghost use Rattle.mcs_solver.specs.Kinds.{IsMadeOfContext};
ghost use Rattle.mcs_keeping.specs.Certified.{IsCertified};

use crate::known::Known;
use crate::question::Question;
use crate::views::accepted_views;
use mcs_asked::Asked;
use mcs_asking::{AnswerCert, beliefs_of, parts_at};
use mcs_base::{Active, Memory, Vars};
use mcs_classical::{Given, assumptions_into};
use mcs_system::System;
use std::alloc::Global;

/// The projected belief sets that the context accepts with the heads of the rules: each once, in
/// the order of states.
pub fn accepted_parts(
    alloc: Global,
    system: &System,
    context: u32,
    rules: Active,
) -> Result<Vec<Vars>, Memory>
    requires { context < length system.now.contexts }
    ensures { IfOk result (λ parts. IsListing (IsAcceptedPart system.now context rules) StateBefore
        parts.items) }
{
    let mut known = None;
    let (parts, cert) = parts_with(alloc, false, &mut known, system, context, rules)?;
    drop(cert);
    Ok(parts)
}

/// The same, with a certificate if `certify` holds. What helps with later questions is kept in
/// `known`. For a classical context these are the clauses of its formulas and what was found to
/// follow. For a default theory without a certificate they are the clauses of its facts and what
/// was found of it.
pub(crate) fn parts_with(
    alloc: Global,
    certify: bool,
    known: &mut Option<Known>,
    system: &System,
    context: u32,
    rules: Active,
) -> Result<(Vec<Vars>, Option<AnswerCert>), Memory>
    requires context { context < length system.now.contexts }
    requires made { IsMadeOfContext system.now context known.old }
    ensures made { IsMadeOfContext system.now context known.new }
    ensures exact { IfOk result (λ r. IsListing (IsAcceptedPart system.now context rules)
        StateBefore r.0.items) }
    ensures certified { IfOk result (λ r. IsCertified certify
        (IsAccepted system.now context rules r.0.items) r.1) }
{
    let assumptions = assumptions_into(alloc, system, context)?;
    let beliefs = beliefs_of(alloc, system, context)?;
    let knows = &system.contexts()[context as usize].kb;
    let asked = Asked {
        atoms: system.atoms_of(context),
        beliefs: &beliefs,
    };
    let given = Given {
        asked: &asked,
        assumptions: &assumptions,
    };
    let question = Question {
        given: &given,
        rules,
        certify,
    };
    let (views, cert) = accepted_views(alloc, known, knows, &question)?;
    match parts_at(alloc, system.vars_of(context), &views) {
        Ok(parts) => Ok((parts, cert)),
        Err(want) => {
            drop(cert);
            Err(want)
        }
    }
}
