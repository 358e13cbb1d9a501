//! The search for answer sets with a certificate.

ghost use Rattle.std.specs.Prelude.{◌≡◌, ◌<◌, ◌≤◌, List, false, length, IfOk, IsTrue};
ghost use Rattle.mcs_sets.specs.Orders.{StateBefore};
ghost use Rattle.mcs_base.specs.Listings.{IsAscending};
ghost use Rattle.mcs_system.specs.Plain as plain;
ghost use Rattle.mcs_trace.specs.Traces.{inferences_of};
ghost use Rattle.mcs_cnf.specs.Entailments.{IsModelAt};
ghost use Rattle.mcs_program.specs.Asked.{program_names, program_rules, program_beliefs};
ghost use Rattle.mcs_program.specs.Asked.{search_rest, search_left, HasFoundAll, IsSearchFor};
ghost use Rattle.mcs_program.specs.Searches.{IsFoundFor, IsProgramSearch, IsExcluded, IsPlaced};
ghost use Rattle.mcs_program.specs.Searches.{IsViewListed};

use crate::answer::find_model;
use crate::atom_clauses::{add_to, clauses_of_rules};
use crate::placed::PlacedProgram;
use crate::placing::Placing;
use crate::putting::put_view;
use crate::small::{is_possible, made_small};
use crate::view::all_places;
use mcs_base::{Memory, Vars};
use mcs_classical::Satisfied;
use mcs_evidence::push_beside;
use mcs_minimal::{LogicProgram, smaller_model};
use mcs_sat::ClauseBase;
use mcs_trace::{AnswerSetCert, Cnf, Trace};
use std::alloc::Global;

/// The state of the search. It has the clauses of what is known of the answer sets that are not
/// found yet. It has the smaller sets by which models were found to be no answer sets. It has the
/// views of the answer sets found, in the order of states, each with its model.
#[derive(Drop)]
pub struct Search {
    pub known: ClauseBase,
    pub smaller: Vec<Vars>,
    pub views: Vec<Vars>,
    pub models: Vec<AnswerSetCert>,
}

impl Search {
    /// The state at first: the rules are known.
    fn new(alloc: Global, program: &LogicProgram<'_>) -> Result<Search, Memory>
        ensures { IfOk result (λ s. (beliefs : List plain.Formula)
            → IsProgramSearch (program_names program.now) (program_rules program.now) beliefs s) }
    {
        let cnf = clauses_of_rules(alloc, program)?;
        let known = ClauseBase::of(alloc, &cnf);
        drop(cnf);
        let known = known?;
        Ok(Search {
            known,
            smaller: Vec::new(alloc),
            views: Vec::new(alloc),
            models: Vec::new(alloc),
        })
    }

    /// Adds that no answer set is undone by the atoms at these places, as a smaller set.
    fn exclude(
        &mut self,
        alloc: Global,
        program: &LogicProgram<'_>,
        less: Vars,
    ) -> Result<(), Memory>
        requires { length (program_names program.now) ≤ self.old.known.vars }
        ensures { IfOk result (λ _. IsExcluded (program_names program.now)
            (program_rules program.now) less self.old self.new) }
    {
        let mut more = Cnf::new(alloc, self.known.vars());
        push_beside(alloc, &mut more, program.atoms, program.rules, less)?;
        add_to(&mut self.known, more)?;
        self.smaller.push(less)?;
        Ok(())
    }

    /// Inserts the view of the model among the views, and adds that the remaining models have
    /// another one. Returns its index.
    fn put_view(
        &mut self,
        alloc: Global,
        placed: &PlacedProgram<'_>,
        model: Vars,
    ) -> Result<usize, Memory>
        requires room { length (program_names placed.now.program.now) ≤ self.old.known.vars }
        requires ascending { IsAscending StateBefore self.old.views.items }
        ensures { IfOk result (λ place. IsPlaced (program_names placed.now.program.now)
            (program_beliefs placed.now.program.now) model place self.old self.new) }
    {
        put_view(alloc, &mut self.known, &mut self.views, placed, model)
    }

    /// Lists the model, with the trace that it is an answer set.
    fn list(
        &mut self,
        alloc: Global,
        placed: &PlacedProgram<'_>,
        model: Vars,
        minimal: Trace,
    ) -> Result<(), Memory>
        requires { IsSearchFor placed.now.program.now self.old }
        ensures { IfOk result (λ _. IsViewListed (program_names placed.now.program.now)
            (program_beliefs placed.now.program.now) model
            (inferences_of minimal) self.old self.new) }
    {
        match self.put_view(alloc, placed, model) {
            Ok(place) => {
                let shown = AnswerSetCert {
                    model: model.number(),
                    minimal,
                };
                self.models.insert(place, shown)?;
                Ok(())
            }
            Err(want) => {
                drop(minimal);
                Err(want)
            }
        }
    }

    /// Takes a model of what is known. It is an answer set, or a smaller set that undoes it is
    /// excluded.
    fn take_up(
        &mut self,
        alloc: Global,
        placed: &PlacedProgram<'_>,
        model: Vars,
    ) -> Result<(), Memory>
        requires search { IsSearchFor placed.now.program.now self.old }
        requires model { IsModelAt (program_names placed.now.program.now)
            (search_rest placed.now.program.now self.old) model }
        ensures search { IfOk result (λ _. IsSearchFor placed.now.program.now self.new) }
        ensures less { IfOk result (λ _. search_left placed.now.program.now self.new
            < search_left placed.now.program.now self.old) }
    {
        let program = placed.program;
        match smaller_model(alloc, program, model)? {
            Satisfied::Model(less) => self.exclude(alloc, program, less),
            Satisfied::Refuted(minimal) => self.list(alloc, placed, model, minimal),
        }
    }

    /// A model of what is known, or `None` if there is none. If the set of all atoms is one, it is
    /// taken without a search. In a program without constraints this is so until a view with all
    /// beliefs is found.
    fn next_model(&mut self, placed: &PlacedProgram<'_>) -> Result<Option<Vars>, Memory>
        requires { IsSearchFor placed.now.program.now self.old }
        ensures same { self.new ≡ self.old }
        ensures found { IfOk result (IsFoundFor (program_names placed.now.program.now)
            (search_rest placed.now.program.now self.old)) }
    {
        let all = all_places(placed.program.atoms.len());
        if is_possible(placed, self, all) {
            return Ok(Some(all));
        }
        find_model(&mut self.known, placed.program)
    }

    /// Searches for one more model of what is known, minimizes it and takes it. Returns whether
    /// there was one.
    fn step(&mut self, alloc: Global, placed: &PlacedProgram<'_>) -> Result<bool, Memory>
        requires { IsSearchFor placed.now.program.now self.old }
        ensures search { IfOk result (λ _. IsSearchFor placed.now.program.now self.new) }
        ensures goes { IfOk result (λ goes. IsTrue goes
            → search_left placed.now.program.now self.new
            < search_left placed.now.program.now self.old) }
        ensures ends { IfOk result (λ goes. goes ≡ false
            → HasFoundAll placed.now.program.now self.new) }
    {
        match self.next_model(placed)? {
            Some(model) => {
                let small = made_small(placed, self, model);
                self.take_up(alloc, placed, small)?;
                Ok(true)
            }
            None => Ok(false),
        }
    }
}

/// Takes steps until all answer sets are found.
fn go_on(alloc: Global, placed: &PlacedProgram<'_>) -> Result<Search, Memory>
    ensures search { IfOk result (IsSearchFor placed.now.program.now) }
    ensures all { IfOk result (HasFoundAll placed.now.program.now) }
{
    let mut search = Search::new(alloc, placed.program)?;
    loop {
        match search.step(alloc, placed) {
            Ok(true) => {}
            Ok(false) => return Ok(search),
            Err(want) => {
                drop(search);
                return Err(want);
            }
        }
    }
}

/// Searches until all answer sets are found.
pub(crate) fn find_all(alloc: Global, program: &LogicProgram<'_>) -> Result<Search, Memory>
    ensures search { IfOk result (IsSearchFor program.now) }
    ensures all { IfOk result (HasFoundAll program.now) }
{
    let placing = Placing::of(alloc, program)?;
    let placed = PlacedProgram { program, placing };
    let found = go_on(alloc, &placed);
    drop(placed);
    found
}
