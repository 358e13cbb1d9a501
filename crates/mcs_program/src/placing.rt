//! Rules and beliefs by the places of their atoms, and tests of sets of places.

ghost use Rattle.std.specs.Prelude.{◌≡◌, IfOk, IsTrue};
ghost use Rattle.std.specs.List.{AllZip, list_all};
ghost use Rattle.mcs_system.specs.Logic.{is_in};
ghost use Rattle.mcs_system.specs.Seen.{rule_of};
ghost use Rattle.mcs_evidence.specs.Programs.{IsOverRule};
ghost use Rattle.mcs_evidence.specs.Pushing.{AreNamesOf};
ghost use Rattle.mcs_program.specs.Asked.{program_names, program_rules, belief_names};
ghost use Rattle.mcs_program.specs.Placing.{places_within, do_meet, placed_holds, placed_blocked};
ghost use Rattle.mcs_program.specs.Placing.{lies_beside, IsPlaceOf, ArePlaces, IsPlacedRule};
ghost use Rattle.mcs_program.specs.Placing.{IsPlacing};

use mcs_base::{Memory, Vars};
use mcs_cnf::atom_number;
use mcs_minimal::LogicProgram;
use mcs_system::{Name, ProgRule};
use std::alloc::Global;

/// A rule, as three sets of places of atoms.
#[derive(Clone, Copy, PartialEq, Eq, PartialOrd, Ord)]
pub struct PlacedRule {
    pub head: Vars,
    pub pos: Vars,
    pub neg: Vars,
}

/// The rules of a program, and the places of the beliefs whose views are asked for.
pub struct Placing {
    pub rules: Vec<PlacedRule>,
    pub beliefs: Vec<u32>,
}

impl Drop for Placing {
    fn drop(self) {
        let Placing {
            rules: _,
            beliefs: _,
        } = self;
    }
}

/// Whether the first set lies within the second.
pub(crate) fn lies_within(places: Vars, others: Vars) -> bool
    ensures { result ≡ places_within places others }
{
    places.common(others) == places
}

/// Whether the two sets have a place in common.
fn do_meet(places: Vars, others: Vars) -> bool
    ensures { result ≡ do_meet places others }
{
    places.common(others) != Vars::empty()
}

/// The place of the name among the atoms.
fn place_of_name(program: &LogicProgram<'_>, name: &Name) -> u32
    requires { IsTrue (is_in name.now (program_names program.now)) }
    ensures { IsPlaceOf (program_names program.now) name.now result }
{
    atom_number(program.atoms, name) as u32 - 1
}

/// The places of the names among the atoms.
fn places_of(program: &LogicProgram<'_>, names: &[Name]) -> Vars
    requires { AreNamesOf (program_names program.now) names.now }
    ensures { ArePlaces (program_names program.now) names.now result }
{
    let mut places = Vars::empty();
    for name in names {
        places = places.with(place_of_name(program, name));
    }
    places
}

impl PlacedRule {
    /// The rule, by the places of its atoms.
    pub(crate) fn of(program: &LogicProgram<'_>, rule: &ProgRule) -> PlacedRule
        requires { IsOverRule (program_names program.now) (rule_of rule.now) }
        ensures { IsPlacedRule (program_names program.now) (rule_of rule.now) result }
    {
        PlacedRule {
            head: places_of(program, &rule.head),
            pos: places_of(program, &rule.pos),
            neg: places_of(program, &rule.neg),
        }
    }

    /// Whether the rule holds if exactly the atoms at these places are true.
    fn holds(&self, places: Vars) -> bool
        ensures { result ≡ placed_holds places self.now }
    {
        !lies_within(self.pos, places) || do_meet(self.neg, places) || do_meet(self.head, places)
    }

    /// Whether the reduct by the atoms at `places` does not have the rule, or the atoms at `less`
    /// satisfy it there.
    fn is_blocked(&self, less: Vars, places: Vars) -> bool
        ensures { result ≡ placed_blocked less places self.now }
    {
        !lies_within(self.pos, less) || do_meet(self.head, less) || do_meet(self.neg, places)
    }
}

/// Whether each of the rules holds if exactly the atoms at these places are true.
pub(crate) fn rules_hold(rules: &[PlacedRule], places: Vars) -> bool
    ensures { result ≡ list_all (placed_holds places) rules.now }
{
    rules.iter().all(|rule| rule.holds(places))
}

/// Whether the atoms at `less` satisfy each rule of the reduct by the atoms at `places`.
fn are_blocked(rules: &[PlacedRule], less: Vars, places: Vars) -> bool
    ensures { result ≡ list_all (placed_blocked less places) rules.now }
{
    rules.iter().all(|rule| rule.is_blocked(less, places))
}

/// Whether `less` is a proper subset of `places` and satisfies the reduct by them.
pub(crate) fn lies_beside(rules: &[PlacedRule], places: Vars, less: Vars) -> bool
    ensures { result ≡ lies_beside rules.now places less }
{
    lies_within(less, places) && !lies_within(places, less) && are_blocked(rules, less, places)
}

/// The rules, by the places of their atoms, in order.
fn placed_rules(alloc: Global, program: &LogicProgram<'_>) -> Result<Vec<PlacedRule>, Memory>
    ensures { IfOk result (λ placed. AllZip (IsPlacedRule (program_names program.now))
        (program_rules program.now) placed.items) }
{
    let rules = program.rules;
    let mut placed = Vec::new(alloc);
    for rule in rules {
        placed.push(PlacedRule::of(program, rule))?;
    }
    Ok(placed)
}

/// The places of the beliefs, in order.
fn places_in_order(alloc: Global, program: &LogicProgram<'_>) -> Result<Vec<u32>, Memory>
    ensures { IfOk result (λ places. AllZip (IsPlaceOf (program_names program.now))
        (belief_names program.now) places.items) }
{
    let beliefs = program.beliefs;
    let mut places = Vec::new(alloc);
    for belief in beliefs {
        places.push(place_of_name(program, belief))?;
    }
    Ok(places)
}

impl Placing {
    /// The rules and the beliefs, by the places of their atoms.
    pub(crate) fn of(alloc: Global, program: &LogicProgram<'_>) -> Result<Placing, Memory>
        ensures { IfOk result (IsPlacing (program_names program.now) (program_rules program.now)
            (belief_names program.now)) }
    {
        let beliefs = places_in_order(alloc, program)?;
        let rules = placed_rules(alloc, program)?;
        Ok(Placing { rules, beliefs })
    }
}
