//! Heads of rules and beliefs of variables by the places of their atoms.

ghost use Rattle.std.specs.Prelude.{◌≡◌, ◌<◌};
ghost use Rattle.std.specs.List.{All};
ghost use Rattle.mcs_system.specs.Faults.{IsValid};
ghost use Rattle.mcs_system.specs.Seen.{formula_of};
ghost use Rattle.mcs_cnf.specs.ClauseLists.{IsOver};
ghost use Rattle.mcs_grounded.specs.Parts.{AreHeadsPlaced, AreNames, ArePlaced, AreReadsPlaced};
ghost use Rattle.mcs_grounded.specs.Parts.{IsPlaced, numbers_at, places_at};

use crate::normal::place_of;
use mcs_base::{Members, Vars};
use mcs_system::{Formula, Name, System};

/// The places of the heads of the rules, and of the beliefs of the variables, each by its number.
/// Only atoms have a place. It is one among the atoms of the context that it is of.
#[derive(Clone, Copy)]
pub(crate) struct Places {
    pub(crate) heads: [Vars; 64],
    pub(crate) reads: [Vars; 64],
}

/// The place of the formula, as a set, if it is an atom.
fn place(atoms: &[Name], formula: &Formula) -> Vars
    requires names { AreNames atoms.now }
    requires over { IsOver atoms.now (formula_of formula.now) }
    ensures { IsPlaced atoms.now (formula_of formula.now) result }
{
    match formula {
        Formula::Atom(name) => Vars::empty().with(place_of(atoms, name)),
        _ => Vars::empty(),
    }
}

/// The places of the heads of the rules.
pub(crate) fn heads_placed(system: &System) -> [Vars; 64]
    ensures valid { IsValid system.now }
    ensures placed { AreHeadsPlaced system.now result }
{
    let mut heads = [Vars::empty(); 64];
    for (number, rule) in system.bridges().iter().enumerate() {
        heads[number] = place(system.atoms_of(rule.target), &rule.head);
    }
    heads
}

/// The places of the beliefs of the variables.
pub(crate) fn reads_placed(system: &System) -> [Vars; 64]
    ensures { AreReadsPlaced system.now result }
{
    let mut reads = [Vars::empty(); 64];
    for (number, read) in system.variables().iter().enumerate() {
        reads[number] = place(system.atoms_of(read.context), &read.belief);
    }
    reads
}

/// The places in those of the sets that have these numbers.
pub(crate) fn places_at(sets: &[Vars; 64], numbers: Members) -> Vars
    requires { All (λ k. k < 64) numbers }
    ensures { result ≡ places_at sets.now 0 numbers }
{
    let mut places = Vars::empty();
    for number in numbers {
        places = places.union(sets[number as usize]);
    }
    places
}

/// Those of the numbers whose sets meet the places.
pub(crate) fn numbers_at(sets: &[Vars; 64], numbers: Members, places: Vars) -> Vars
    requires { All (λ k. k < 64) numbers }
    ensures { result ≡ numbers_at sets.now places 0 numbers }
{
    let mut chosen = Vars::empty();
    for number in numbers {
        if sets[number as usize].meets(places) {
            chosen = chosen.with(number);
        }
    }
    chosen
}
