//! The oracle of one context whose answers are given beforehand.

ghost use Rattle.std.specs.Prelude.{◌≡◌, ◌<◌, ◌≤◌, [], length, IfErr, IfOk, MatchOption, OnOk};
ghost use Rattle.std.specs.Arc.{arc_value};
ghost use Rattle.mcs_base.specs.Listings.{IsAmong};
ghost use Rattle.mcs_states.specs.Oracles.{with_journal};
ghost use Rattle.mcs_states.specs.declared.stop.OracleStop.TheVariants as stops;
ghost use Rattle.mcs_check.specs.Certified.{certified_of, sets_of, AreAcceptedAnswers};
ghost use Rattle.mcs_check.specs.Certified.{AreAscendingSets, SetsEndAt, HasAnswer};

use mcs_base::{Active, Vars};
use mcs_states::{Oracle, OracleStop};
use mcs_system::System;
use std::alloc::Global;
use std::marker::Model;
use std::sync::Arc;

/// Answers what one context of a system accepts, from a list of answers with accepted certificates.
/// It misses the questions that are not in the list. It runs no solver.
pub struct CertifiedOracle {
    system: Arc<System>,
    context: u32,
    answers: Vec<(Active, Vec<Vars>)>,
    journal: Vec<Active>,
}

impl Drop for CertifiedOracle {
    fn drop(self) {
        let CertifiedOracle {
            system: _,
            context: _,
            answers: _,
            journal: _,
        } = self;
    }
}

impl Model for CertifiedOracle {
    ghost use Rattle.std.specs.Prelude.{length, ◌<◌};
    ghost use Rattle.std.specs.Arc.{arc_value};
    ghost use Rattle.mcs_states.specs.Oracles.{OracleState};
    ghost use Rattle.mcs_states.specs.Codes.{coded_oracle};
    ghost use Rattle.mcs_check.specs.Certified.{certified_of, sets_of, AreAcceptedAnswers};
    ghost use Rattle.mcs_check.specs.Certified.{AreAscendingSets};

    ghost Value = { OracleState };

    ghost coded = { coded_oracle };

    ghost view = { λ s. certified_of (arc_value s.system) s.context
        (sets_of s.answers.items) s.journal.items };

    ghost invariant = { λ s. (s.context < length (arc_value s.system).contexts)
        × AreAcceptedAnswers (arc_value s.system) s.context s.answers.items
        × AreAscendingSets s.answers.items };
}

/// How many of the answers are for a set that comes before this one.
fn place_of(answers: &[(Active, Vec<Vars>)], active: Active) -> usize
    requires { AreAscendingSets answers.now }
    ensures bound { result ≤ length answers.now }
    ensures point { SetsEndAt active answers.now result }
{
    answers.partition_point(|answer| answer.0 < active)
}

/// The answer for this set, if there is one.
fn answer_for(answers: &[(Active, Vec<Vars>)], active: Active) -> Option<&[Vars]>
    requires { AreAscendingSets answers.now }
    ensures { MatchOption result (¬ IsAmong active (sets_of answers.now))
        (λ states. HasAnswer answers.now active states.now) }
{
    let place = place_of(answers, active);
    if place >= answers.len() {
        return None;
    }
    let answer = &answers[place];
    if answer.0 != active {
        return None;
    }
    Some(answer.1.as_slice())
}

/// The answer for this set, or `Missing` if there is none.
fn held_answer(answers: &[(Active, Vec<Vars>)], active: Active) -> Result<&[Vars], OracleStop>
    requires { AreAscendingSets answers.now }
    ensures answer { IfOk result (λ states. HasAnswer answers.now active states.now) }
    ensures held { OnOk result (IsAmong active (sets_of answers.now)) }
    ensures missing { IfErr result (λ stop. (¬ IsAmong active (sets_of answers.now))
        × (stop ≡ stops.Missing active)) }
{
    match answer_for(answers, active) {
        Some(states) => Ok(states),
        None => Err(OracleStop::Missing(active)),
    }
}

impl CertifiedOracle {
    /// The oracle of this context with these answers. The context has to be one of the system's.
    /// Each answer has to be what the context accepts with the heads of a set of rules, as an
    /// accepted certificate shows it, and the sets have to be strictly ascending. No question was
    /// asked yet.
    pub fn new(
        alloc: Global,
        system: Arc<System>,
        context: u32,
        answers: Vec<(Active, Vec<Vars>)>,
    ) -> CertifiedOracle
        requires context { context < length (arc_value system).contexts }
        requires right { AreAcceptedAnswers (arc_value system) context answers.items }
        requires ascending { AreAscendingSets answers.items }
        ensures { result ≡ certified_of (arc_value system) context (sets_of answers.items) [] }
    {
        CertifiedOracle {
            system,
            context,
            answers,
            journal: Vec::new(alloc),
        }
    }

    /// The oracle with the same answers, of which no question was asked.
    pub(crate) fn renewed(mut self) -> CertifiedOracle
        ensures { result ≡ with_journal [] self }
    {
        self.journal.clear();
        self
    }

    /// The sets of rules for which it has answered, in the order of the questions.
    pub fn journal(&self) -> &[Active]
        ensures { result.now ≡ self.now.journal }
    {
        self.journal.as_slice()
    }
}

impl Oracle for CertifiedOracle {
    ghost stands = { λ o. o };

    fn ask(&mut self, alloc: Global, active: Active) -> Result<Vec<Vars>, OracleStop> {
        let states = held_answer(&self.answers, active)?;
        let copy = states.to_vec(alloc)?;
        self.journal.push(active)?;
        Ok(copy)
    }
}
