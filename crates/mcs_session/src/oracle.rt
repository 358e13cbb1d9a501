//! Oracles that keep their answers.

ghost use Rattle.std.specs.Prelude.{◌≡◌, ◌<◌, [], IfOk, OnErr, OnOk, count_by, false, length, map};
ghost use Rattle.std.specs.Arc.{arc_value};
ghost use Rattle.mcs_session.specs.Sessions.{kept_oracle, of_system, AreAnswersTo, HasAsker};
ghost use Rattle.mcs_session.specs.Sessions.{HasSettled};
ghost use Rattle.mcs_session.specs.Journalled.{HasSolved, IsKeptOn, IsToSolve};

use crate::asker::Asker;
use crate::kept::{Kept, push_within};
use crate::places::views_of;
use crate::table::place_of;
use crate::words::Words;
use mcs_asking::parts_at;
use mcs_base::{Active, Memory, Vars};
use mcs_states::{Oracle, OracleStop};
use mcs_system::System;
use std::alloc::Global;
use std::marker::Model;
use std::mem;
use std::sync::Arc;

/// The oracle of one context of a system of a session. It has an asker solve those questions for
/// whose keys no answer is kept, and keeps their answers. It never lacks an answer. Its origin is
/// the list of the keys whose answers were kept when it was lent, each as its text.
pub struct KeptOracle<A: Asker> {
    pub(crate) system: Arc<System>,
    pub(crate) context: u32,
    pub(crate) asker: A,
    pub(crate) kept: Kept,
    pub(crate) words: Words,
    pub(crate) journal: Vec<Active>,
    // How many keys were kept when it was lent.
    pub(crate) origin: usize,
    // For each key, whether it was asked since.
    pub(crate) seen: Vec<bool>,
    // The questions whose keys were new, each key once.
    pub(crate) solved: Vec<Active>,
}

impl<A: Asker> Drop for KeptOracle<A> {
    fn drop(self) {
        let KeptOracle {
            system: _,
            context: _,
            asker: _,
            kept: _,
            words: _,
            journal: _,
            origin: _,
            seen: _,
            solved: _,
        } = self;
    }
}

impl<A: Asker> Model for KeptOracle<A> {
    ghost use Rattle.std.specs.Prelude.{take};
    ghost use Rattle.std.specs.Arc.{arc_value};
    ghost use Rattle.mcs_states.specs.Codes.{coded_oracle};
    ghost use Rattle.mcs_states.specs.Oracles.{OracleState};
    ghost use Rattle.mcs_session.specs.Journalled.{IsOracleOf};
    ghost use Rattle.mcs_session.specs.Sessions.{kept_oracle};

    ghost Value = { OracleState };

    ghost coded = { coded_oracle };

    ghost view = { λ s. kept_oracle (arc_value s.system) s.context
        (take s.origin (A.journal s.asker)) s.journal.items };

    ghost invariant = { λ s. IsOracleOf (arc_value s.system) s.context (A.journal s.asker) s.kept
        s.words s.origin s.seen.items s.journal.items s.solved.items };
}

/// What an oracle was asked: the questions whose keys were new, each key once, and how many
/// different keys were kept before.
#[derive(Drop)]
pub(crate) struct Settled {
    pub(crate) solved: Vec<Active>,
    pub(crate) kept: u64,
}

/// How many of the flags are set.
fn count_seen(flags: &[bool]) -> u64
    ensures { result ≡ count_by (λ flag. flag) flags.now }
{
    let mut count = 0;
    for flag in flags {
        if *flag {
            count += 1;
        }
    }
    count
}

/// Sets none of the flags.
fn forget(flags: &mut [bool])
    ensures { flags.new ≡ map (λ _. false) flags.old }
{
    for flag in flags.iter_mut() {
        *flag = false;
    }
}

impl<A: Asker> KeptOracle<A> {
    /// The oracle of this context of the system, for which nothing is kept yet. The context has to
    /// be one of the system's, and the journal of the asker has to be empty.
    pub(crate) fn new(
        alloc: Global,
        system: Arc<System>,
        context: u32,
        asker: A,
    ) -> Result<KeptOracle<A>, Memory>
        requires there { context < length (arc_value system).contexts }
        requires empty { A.journal asker ≡ [] }
        ensures { IfOk result (λ o. o ≡ kept_oracle (arc_value system) context [] []) }
    {
        let mut kept = Kept::new(alloc);
        let words = kept.words(alloc, &system, context)?;
        Ok(KeptOracle {
            system,
            context,
            asker,
            kept,
            words,
            journal: Vec::new(alloc),
            origin: 0,
            seen: Vec::new(alloc),
            solved: Vec::new(alloc),
        })
    }

    /// Makes it the oracle of the same context of another system with the same contexts. Nothing
    /// may have been asked of it.
    pub(crate) fn renew(&mut self, alloc: Global, system: Arc<System>) -> Result<(), Memory>
        requires same { (arc_value system).contexts ≡ self.old.system.contexts }
        requires unasked { self.old.journal ≡ [] }
        ensures ok { OnOk result (self.new ≡ of_system (arc_value system) self.old) }
        ensures err { OnErr result (self.new ≡ self.old) }
    {
        let words = self.kept.words(alloc, &system, self.context)?;
        self.words = words;
        self.system = system;
        Ok(())
    }

    /// Ends what was asked of it: the keys that were new are kept keys from now on, and its journal
    /// is empty. Tells what was asked. No memory is needed.
    pub(crate) fn settle(&mut self) -> Settled
        ensures { HasSettled self.old self.new result.solved.items result.kept }
    {
        let kept = count_seen(&self.seen[..self.origin]);
        forget(&mut self.seen);
        self.origin = self.seen.len();
        self.journal.clear();
        let none = Vec::new(*self.solved.allocator());
        let solved = mem::replace(&mut self.solved, none);
        Settled { solved, kept }
    }

    /// The asker. Its journal has the keys of the origin, and then the different new keys of the
    /// journal of the oracle, each once.
    pub fn asker(&self) -> &A
        ensures { HasAsker self.now (A.journal result.now) }
    {
        &self.asker
    }
}

/// Solves a question whose key has no answer yet, and keeps its answer under these numbers.
fn solve_new<A: Asker>(
    alloc: Global,
    asker: &mut A,
    kept: &mut Kept,
    system: &Arc<System>,
    context: u32,
    active: Active,
    numbers: Vec<u32>,
) -> Result<Vec<Vars>, Memory>
    requires { IsToSolve (arc_value system.now) context active (A.journal asker.old) kept.old
        numbers.items }
    ensures answer { IfOk result (λ states. AreAnswersTo (arc_value system.now) context active
        states.items) }
    ensures solved { OnOk result (HasSolved (arc_value system.now) context active
        (A.journal asker.old) (A.journal asker.new) kept.old kept.new) }
    ensures unchanged { OnErr result ((A.journal asker.new ≡ A.journal asker.old)
        × IsKeptOn (arc_value system.now) context (A.journal asker.old) kept.old kept.new) }
{
    kept.reserve()?;
    let (states, copy) = asker.solve(alloc, system, context, active)?;
    kept.push(numbers, views_of(system.vars_of(context), copy));
    Ok(states)
}

impl<A: Asker> Oracle for KeptOracle<A> {
    ghost stands = { λ o. o };

    fn ask(&mut self, alloc: Global, active: Active) -> Result<Vec<Vars>, OracleStop> {
        let numbers = self.words.numbers(alloc, active)?;
        if let Some(place) = place_of(&self.kept.numbers, &numbers) {
            let own = self.system.vars_of(self.context);
            let states = parts_at(alloc, own, &self.kept.views[place])?;
            self.journal.push(active)?;
            self.seen[place] = true;
            return Ok(states);
        }
        self.journal.reserve(1)?;
        self.solved.reserve(1)?;
        self.seen.reserve(1)?;
        let states = solve_new(
            alloc,
            &mut self.asker,
            &mut self.kept,
            &self.system,
            self.context,
            active,
            numbers,
        )?;
        push_within(&mut self.journal, active);
        push_within(&mut self.solved, active);
        push_within(&mut self.seen, true);
        Ok(states)
    }
}
