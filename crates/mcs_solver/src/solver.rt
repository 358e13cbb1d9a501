//! The oracle of one context.

ghost use Rattle.std.specs.Prelude.{◌≡◌, ℕ, ◌<◌, ◌⊎◌, [], ◌∷◌, length, MatchOption, IfSome};
ghost use Rattle.std.specs.Arc.{arc_value};
ghost use Rattle.mcs_sets.specs.Orders.{StateBefore};
ghost use Rattle.mcs_base.specs.Listings.{IsAmong, IsListing};
ghost use Rattle.mcs_system.specs.Plain as plain;
ghost use Rattle.mcs_system.specs.Systems.{IsAcceptedPart};
ghost use Rattle.mcs_asking.specs.Certificates.{plain_of, IsAccepted};
ghost use Rattle.mcs_solver.specs.Kinds.{AreMadeOfContext, IsMadeOfContext};
ghost use Rattle.mcs_solver.specs.Solvers.{solver_with};

use crate::known::Known;
use crate::parts::parts_with;
use mcs_asking::AnswerCert;
use mcs_base::{Active, Memory, Vars};
use mcs_keeping::{Kept, absorb_answers, keep_answer};
use mcs_states::{Fork, Oracle, OracleStop};
use mcs_system::System;
use std::alloc::Global;
use std::collections::BTreeMap;
use std::marker::Model;
use std::mem;
use std::sync::Arc;

/// Answers what one context of a system accepts, by the logic of its kind. It never lacks an
/// answer. It keeps the journal of the questions asked. If it was made to, it keeps each answer
/// with a certificate. For later questions it keeps the clauses of the formulas of a classical
/// context. If it keeps no certificates, it also keeps what it found to follow, and of a default
/// theory the clauses of its facts and what it found. A fork of it begins with what an earlier fork
/// had found, if there is one that was absorbed and whose findings no other fork has. Of a context
/// that no rule goes into it keeps nothing: there is one question to it.
pub struct LocalSolver {
    system: Arc<System>,
    context: u32,
    known: Option<Known>,
    journal: Vec<Active>,
    keep: bool,
    kept: BTreeMap<Active, Kept>,
    // What forks that were absorbed have found, for the forks to come.
    spare: Vec<Known>,
}

impl Drop for LocalSolver {
    fn drop(self) {
        let LocalSolver {
            system: _,
            context: _,
            known: _,
            journal: _,
            keep: _,
            kept: _,
            spare: _,
        } = self;
    }
}

impl Model for LocalSolver {
    ghost use Rattle.std.specs.Prelude.{length, ◌<◌};
    ghost use Rattle.std.specs.Arc.{arc_value};
    ghost use Rattle.mcs_states.specs.Oracles.{OracleState};
    ghost use Rattle.mcs_states.specs.Codes.{coded_oracle};
    ghost use Rattle.mcs_solver.specs.Kinds.{AreMadeOfContext, IsMadeOfContext};
    ghost use Rattle.mcs_solver.specs.Solvers.{solver_with};
    ghost use Rattle.mcs_keeping.specs.Keeping.{AreAnswersKept};

    ghost Value = { OracleState };

    ghost coded = { coded_oracle };

    ghost view = { λ s. solver_with s.keep (arc_value s.system) s.context s.journal.items };

    ghost invariant = { λ s. (s.context < length (arc_value s.system).contexts)
        × IsMadeOfContext (arc_value s.system) s.context s.known
        × AreAnswersKept (arc_value s.system) s.context s.keep s.journal.items s.kept
        × AreMadeOfContext (arc_value s.system) s.context s.spare.items };
}

impl LocalSolver {
    /// The oracle of this context of the system. The context has to be one of the system's. No
    /// question was asked yet. If `keep` holds, it keeps each answer with a certificate, and its
    /// origin is the one empty string; otherwise its origin has no string.
    pub fn new(alloc: Global, system: Arc<System>, context: u32, keep: bool) -> LocalSolver
        requires { context < length (arc_value system).contexts }
        ensures { result ≡ solver_with keep (arc_value system) context [] }
    {
        LocalSolver::taking(alloc, system, context, keep, Vec::new(alloc))
    }

    /// The same, which takes over what others have found of the context: the last of it for itself,
    /// and the rest for its forks.
    fn taking(
        alloc: Global,
        system: Arc<System>,
        context: u32,
        keep: bool,
        found: Vec<Known>,
    ) -> LocalSolver
        requires context { context < length (arc_value system).contexts }
        requires made { AreMadeOfContext (arc_value system) context found.items }
        ensures { result ≡ solver_with keep (arc_value system) context [] }
    {
        let mut spare = found;
        let known = spare.pop();
        LocalSolver {
            system,
            context,
            known,
            journal: Vec::new(alloc),
            keep,
            kept: BTreeMap::new(alloc),
            spare,
        }
    }

    /// The answer to the question, with an accepted certificate: the outputs are what the context
    /// accepts with the heads of these rules. `None` is returned exactly if the solver keeps no
    /// answers or the question is not in its journal.
    pub fn certificate(&self, active: Active) -> Option<(&[Vars], &AnswerCert)>
        ensures told { MatchOption result ((self.now.origin ≡ [])
            ⊎ (¬ IsAmong active self.now.journal))
            (λ r. (self.now.origin ≡ [] ∷ []) × IsAmong active self.now.journal) }
        ensures accepted { IfSome result (λ r. IsAccepted self.now.system self.now.context active
            r.0.now (plain_of r.1.now)) }
        ensures answered { IfSome result (λ r. IsListing
            (IsAcceptedPart self.now.system self.now.context active) StateBefore r.0.now) }
    {
        let Some(kept) = self.kept.get(&active) else {
            return None;
        };
        Some((kept.outputs.as_slice(), &kept.cert))
    }

    /// The sets of rules for which it has answered, in the order of the questions.
    pub fn journal(&self) -> &[Active]
        ensures { result.now ≡ self.now.journal }
    {
        self.journal.as_slice()
    }
}

impl Oracle for LocalSolver {
    ghost stands = { λ o. o };

    fn ask(&mut self, alloc: Global, active: Active) -> Result<Vec<Vars>, OracleStop> {
        self.journal.reserve(1)?;
        let (parts, cert) = parts_with(
            alloc,
            self.keep,
            &mut self.known,
            &self.system,
            self.context,
            active,
        )?;
        forget_whole(&mut self.known, &self.system, self.context);
        keep_answer(alloc, &mut self.kept, active, &parts, cert)?;
        self.journal.push(active)?;
        Ok(parts)
    }
}

impl Fork for LocalSolver {
    fn fork(&mut self, alloc: Global) -> Result<LocalSolver, Memory> {
        let system = Arc::try_clone(&self.system)?;
        let found = self.spare.split_off(self.spare.len() / 2)?;
        Ok(LocalSolver::taking(alloc, system, self.context, self.keep, found))
    }

    fn absorb(&mut self, _alloc: Global, other: LocalSolver) -> Result<(), Memory> {
        let LocalSolver {
            system,
            context: _,
            known,
            journal,
            keep: _,
            kept,
            spare,
        } = other;
        drop(system);
        drop(mem::replace(&mut self.spare, with_known(spare, known)));
        absorb_answers(&mut self.journal, &mut self.kept, &journal, kept)
    }
}

/// Lets go what was found of a context that no rule goes into. Nothing more can be asked of it.
fn forget_whole(known: &mut Option<Known>, system: &System, context: u32)
    requires { context < length system.now.contexts }
    ensures { IsMadeOfContext system.now context known.old
        → IsMadeOfContext system.now context known.new }
{
    if system.rules_of(context).count() == 0 {
        drop(known.take());
    }
}

/// What was found, and what one more has found behind it. Want of memory lets the latter go.
fn with_known(found: Vec<Known>, known: Option<Known>) -> Vec<Known>
    ensures { (m : plain.System) (i : ℕ) → AreMadeOfContext m i found.items
        → IsMadeOfContext m i known → AreMadeOfContext m i result.items }
{
    let Some(known) = known else {
        return found;
    };
    let mut found = found;
    drop(found.push(known));
    found
}
