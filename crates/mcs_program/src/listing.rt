//! The search for answer sets without a certificate. It is guided by sets of atoms without external
//! support. For tight programs it splits on one belief after the other.

ghost use Rattle.std.specs.Prelude.{◌≡◌, ◌<◌, ◌≤◌, List, false, length, map, IfOk, IsTrue};
ghost use Rattle.mcs_system.specs.Logic.{holds_all};
ghost use Rattle.mcs_system.specs.Plain as plain;
ghost use Rattle.mcs_cnf.specs.Entailments.{IsModelAt};
ghost use Rattle.mcs_evidence.specs.Programs.{rule_formula};
ghost use Rattle.mcs_evidence.specs.Pushing.{AreNamesOf};
ghost use Rattle.mcs_evidence.specs.Supports.{support_formula};
ghost use Rattle.mcs_program.specs.Asked.{program_names, program_rules, AreAllViews, IsListingFor};
ghost use Rattle.mcs_program.specs.Asked.{IsTight, listing_left, listing_rest};
ghost use Rattle.mcs_meant.specs.Meanings.{AddsFormula, AreMeantBy};
ghost use Rattle.mcs_program.specs.Listings.{first_formulas, IsPartListing, IsUnfounded};
ghost use Rattle.mcs_program.specs.Listings.{IsSupported};

use crate::answer::find_model;
use crate::atom_clauses::{add_to, clauses_of_rules};
use crate::placed::PlacedProgram;
use crate::placing::Placing;
use crate::putting::put_view;
use crate::splitting::list_views;
use crate::tight::is_tight;
use mcs_base::{Memory, Vars};
use mcs_classical::Satisfied;
use mcs_evidence::{names_at, push_support};
use mcs_minimal::{LogicProgram, smaller_model};
use mcs_sat::ClauseBase;
use mcs_system::Name;
use mcs_trace::Cnf;
use std::alloc::Global;
use std::slice;

/// The state of the search. It has the clauses of what is known of the answer sets that are not
/// listed yet. It has the sets of places whose loop formulas are known, besides those of one atom.
/// It has the views of the answer sets found, in the order of states.
#[derive(Drop)]
pub struct Listing {
    pub known: ClauseBase,
    pub supported: Vec<Vars>,
    pub views: Vec<Vars>,
}

/// Adds the loop formula of the set of atoms: if one of them is true, the set has external support.
fn add_support(
    alloc: Global,
    known: &mut ClauseBase,
    program: &LogicProgram<'_>,
    set: &[Name],
) -> Result<(), Memory>
    requires over { AreNamesOf (program_names program.now) set.now }
    requires room { length (program_names program.now) ≤ known.old.vars }
    ensures { IfOk result (λ _. AddsFormula (program_names program.now)
        (support_formula (program_rules program.now) set.now) known.old known.new) }
{
    let mut more = Cnf::new(alloc, known.vars());
    push_support(alloc, &mut more, program.atoms, program.rules, set)?;
    add_to(known, more)
}

/// Adds that each true atom has support of its own.
fn add_own(alloc: Global, known: &mut ClauseBase, program: &LogicProgram<'_>) -> Result<(), Memory>
    requires { AreMeantBy (program_names program.now)
        (map rule_formula (program_rules program.now)) known.old }
    ensures { IfOk result (λ _. AreMeantBy (program_names program.now)
        (first_formulas (program_names program.now) (program_rules program.now)) known.new) }
{
    let atoms = program.atoms;
    for atom in atoms {
        add_support(alloc, known, program, slice::from_ref(atom))?;
    }
    Ok(())
}

/// A set of places without external support in the model, of which an atom is true in the model; or
/// `None` if there is none, so that the model is an answer set.
fn unfounded_in(
    alloc: Global,
    program: &LogicProgram<'_>,
    model: Vars,
) -> Result<Option<Vars>, Memory>
    requires { IsModelAt (program_names program.now)
        (map rule_formula (program_rules program.now)) model }
    ensures { IfOk result (IsUnfounded (program_names program.now)
        (program_rules program.now) model) }
{
    match smaller_model(alloc, program, model)? {
        Satisfied::Model(less) => Ok(Some(model.minus(less))),
        Satisfied::Refuted(_minimal) => Ok(None),
    }
}

/// The clauses that are known at first: the rules, and that each true atom has support of its own.
fn first_clauses(alloc: Global, program: &LogicProgram<'_>) -> Result<ClauseBase, Memory>
    ensures { IfOk result (AreMeantBy (program_names program.now)
        (first_formulas (program_names program.now) (program_rules program.now))) }
{
    let cnf = clauses_of_rules(alloc, program)?;
    let known = ClauseBase::of(alloc, &cnf);
    drop(cnf);
    let mut known = known?;
    match add_own(alloc, &mut known, program) {
        Ok(()) => Ok(known),
        Err(want) => {
            drop(known);
            Err(want)
        }
    }
}

impl Listing {
    /// The state at first: the rules are known, and that each true atom has support of its own.
    fn new(alloc: Global, program: &LogicProgram<'_>) -> Result<Listing, Memory>
        ensures { IfOk result (λ s. (beliefs : List plain.Formula)
            → IsPartListing (program_names program.now) (program_rules program.now) beliefs s) }
    {
        let known = first_clauses(alloc, program)?;
        Ok(Listing {
            known,
            supported: Vec::new(alloc),
            views: Vec::new(alloc),
        })
    }

    /// Adds the loop formula of the set of the atoms at these places.
    fn support(
        &mut self,
        alloc: Global,
        program: &LogicProgram<'_>,
        set: Vars,
    ) -> Result<(), Memory>
        requires { length (program_names program.now) ≤ self.old.known.vars }
        ensures { IfOk result (λ _. IsSupported (program_names program.now)
            (program_rules program.now) set self.old self.new) }
    {
        let names = names_at(alloc, program.atoms, set)?;
        add_support(alloc, &mut self.known, program, &names)?;
        self.supported.push(set)?;
        Ok(())
    }

    /// Takes a model of what is known. If it is an answer set, its view is listed; otherwise the
    /// loop formula of a set without external support becomes known.
    fn take_up(
        &mut self,
        alloc: Global,
        placed: &PlacedProgram<'_>,
        model: Vars,
    ) -> Result<(), Memory>
        requires listed { IsListingFor placed.now.program.now self.old }
        requires model { IsModelAt (program_names placed.now.program.now)
            (listing_rest placed.now.program.now self.old) model }
        ensures listed { IfOk result (λ _. IsListingFor placed.now.program.now self.new) }
        ensures less { IfOk result (λ _. listing_left placed.now.program.now self.new
            < listing_left placed.now.program.now self.old) }
    {
        match unfounded_in(alloc, placed.program, model)? {
            Some(set) => self.support(alloc, placed.program, set),
            None => {
                put_view(alloc, &mut self.known, &mut self.views, placed, model)?;
                Ok(())
            }
        }
    }

    /// Searches for one more model of what is known, and takes it. Returns whether there was one.
    fn step(&mut self, alloc: Global, placed: &PlacedProgram<'_>) -> Result<bool, Memory>
        requires { IsListingFor placed.now.program.now self.old }
        ensures listed { IfOk result (λ _. IsListingFor placed.now.program.now self.new) }
        ensures goes { IfOk result (λ goes. IsTrue goes
            → listing_left placed.now.program.now self.new
            < listing_left placed.now.program.now self.old) }
        ensures ends { IfOk result (λ goes. goes ≡ false → (a : List plain.Name)
            → ¬ IsTrue (holds_all a (listing_rest placed.now.program.now self.new))) }
    {
        match find_model(&mut self.known, placed.program)? {
            Some(model) => {
                self.take_up(alloc, placed, model)?;
                Ok(true)
            }
            None => Ok(false),
        }
    }
}

/// Takes steps until all answer sets are listed.
fn go_on(alloc: Global, placed: &PlacedProgram<'_>) -> Result<Listing, Memory>
    ensures listed { IfOk result (IsListingFor placed.now.program.now) }
    ensures all { IfOk result (λ s. (a : List plain.Name)
        → ¬ IsTrue (holds_all a (listing_rest placed.now.program.now s))) }
{
    let mut listing = Listing::new(alloc, placed.program)?;
    loop {
        match listing.step(alloc, placed) {
            Ok(true) => {}
            Ok(false) => return Ok(listing),
            Err(want) => {
                drop(listing);
                return Err(want);
            }
        }
    }
}

/// Lists the views of all answer sets, model by model.
fn list_by_models(alloc: Global, placed: &PlacedProgram<'_>) -> Result<Vec<Vars>, Memory>
    ensures { IfOk result (λ views. AreAllViews placed.now.program.now views.items) }
{
    let Listing {
        known,
        supported,
        views,
    } = go_on(alloc, placed)?;
    drop((known, supported));
    Ok(views)
}

/// Lists the views of all answer sets of a tight program, belief by belief: each model of the rules
/// in which each true atom has support of its own is an answer set (Fages 1994).
fn list_by_beliefs(alloc: Global, placed: &PlacedProgram<'_>) -> Result<Vec<Vars>, Memory>
    requires { IsTight placed.now.program.now }
    ensures { IfOk result (λ views. AreAllViews placed.now.program.now views.items) }
{
    let mut known = first_clauses(alloc, placed.program)?;
    let views = list_views(alloc, &mut known, placed);
    drop(known);
    views
}

/// Lists the views of all answer sets.
pub(crate) fn list_all(alloc: Global, program: &LogicProgram<'_>) -> Result<Vec<Vars>, Memory>
    ensures { IfOk result (λ views. AreAllViews program.now views.items) }
{
    let placing = Placing::of(alloc, program)?;
    let placed = PlacedProgram { program, placing };
    let views = if is_tight(&placed) {
        list_by_beliefs(alloc, &placed)
    } else {
        list_by_models(alloc, &placed)
    };
    drop(placed);
    views
}
