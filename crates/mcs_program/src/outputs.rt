//! The answer sets of a program, as views of beliefs.

ghost use Rattle.std.specs.Prelude.{◌≡◌, ◌≤◌, ◌++◌, List, false, length, map, IfOk, IsTrue};
ghost use Rattle.std.specs.List.{AllByRecursion, filter_map};
ghost use Rattle.mcs_sets.specs.Orders.{StateBefore};
ghost use Rattle.mcs_base.specs.Listings.{IsListing};
ghost use Rattle.mcs_system.specs.Faults.{has_twins};
ghost use Rattle.mcs_system.specs.Logic.{is_in, fact_of, holds_all, with_heads};
ghost use Rattle.mcs_system.specs.Plain as plain;
ghost use Rattle.mcs_system.specs.Plain.{Atom, Program};
ghost use Rattle.mcs_system.specs.Seen.{rule_of};
ghost use Rattle.mcs_system.specs.Views.{IsAcceptedView};
ghost use Rattle.mcs_trace.specs.Traces.{inferences_of};
ghost use Rattle.mcs_evidence.specs.Programs.{program_shown_of, rest_formulas, AreOverRules};
ghost use Rattle.mcs_evidence.specs.Programs.{IsAcceptedProgram, IsRefutation};
ghost use Rattle.mcs_program.specs.Asked.{program_names, program_rules, program_beliefs};
ghost use Rattle.mcs_program.specs.Asked.{HasFoundAll, IsSearchFor};

use crate::listing::list_all;
use crate::once::once_with_facts;
use crate::search::{Search, find_all};
use mcs_base::{Memory, Vars};
use mcs_classical::{Satisfied, satisfy_from};
use mcs_evidence::rest_clauses;
use mcs_minimal::LogicProgram;
use mcs_system::{Name, ProgRule, with_facts};
use mcs_trace::{ProgramCert, Trace};
use std::alloc::Global;

/// A trace that no model is left: each has one of these views, or one of the smaller sets undoes
/// it. This has to be so.
fn refute_rest(
    alloc: Global,
    program: &LogicProgram<'_>,
    smaller: &[Vars],
    views: &[Vars],
) -> Result<Trace, Memory>
    requires { (a : List plain.Name) → ¬ IsTrue (holds_all a
        (rest_formulas (program_names program.now) (program_rules program.now)
        (program_beliefs program.now) smaller.now views.now)) }
    ensures { IfOk result (λ t. IsRefutation (program_names program.now)
        (rest_formulas (program_names program.now) (program_rules program.now)
        (program_beliefs program.now) smaller.now views.now) (inferences_of t)) }
{
    let rest = rest_clauses(
        alloc,
        program.atoms,
        program.rules,
        program.beliefs,
        smaller,
        views,
    )?;
    let found = satisfy_from(alloc, &rest, program.atoms);
    drop(rest);
    match found? {
        Satisfied::Refuted(trace) => Ok(trace),
        Satisfied::Model(_places) => unreachable!(),
    }
}

/// The numbers of the sets.
fn numbers(alloc: Global, sets: &[Vars]) -> Result<Vec<u64>, Memory>
    ensures { IfOk result (λ numbers. numbers.items ≡ sets.now) }
{
    let mut numbers = Vec::new(alloc);
    for set in sets {
        numbers.push(set.number())?;
    }
    Ok(numbers)
}

/// The views, and the certificate, of a search that has found all answer sets.
fn certified(
    alloc: Global,
    program: &LogicProgram<'_>,
    search: Search,
) -> Result<(Vec<Vars>, ProgramCert), Memory>
    requires search { IsSearchFor program.now search }
    requires all { HasFoundAll program.now search }
    ensures { IfOk result (λ r. IsAcceptedProgram (program_names program.now)
        (program_rules program.now) (program_beliefs program.now) r.0.items
        (program_shown_of r.1)) }
{
    let Search {
        known,
        smaller,
        views,
        models,
    } = search;
    drop(known);
    match parts(alloc, program, &smaller, &views) {
        Ok((smaller, none)) => Ok((
            views,
            ProgramCert {
                models,
                smaller,
                none,
            },
        )),
        Err(want) => {
            drop((views, models));
            Err(want)
        }
    }
}

/// The smaller sets and the trace of a certificate.
fn parts(
    alloc: Global,
    program: &LogicProgram<'_>,
    smaller: &[Vars],
    views: &[Vars],
) -> Result<(Vec<u64>, Trace), Memory>
    requires { (a : List plain.Name) → ¬ IsTrue (holds_all a
        (rest_formulas (program_names program.now) (program_rules program.now)
        (program_beliefs program.now) smaller.now views.now)) }
    ensures smaller { IfOk result (λ r. r.0.items ≡ smaller.now) }
    ensures rest { IfOk result (λ r. IsRefutation (program_names program.now)
        (rest_formulas (program_names program.now) (program_rules program.now)
        (program_beliefs program.now) smaller.now views.now) (inferences_of r.1)) }
{
    let numbers = numbers(alloc, smaller)?;
    let none = refute_rest(alloc, program, smaller, views)?;
    Ok((numbers, none))
}

/// The views of the answer sets of the rules, and a certificate that they are all.
fn found_and_shown(
    alloc: Global,
    program: &LogicProgram<'_>,
) -> Result<(Vec<Vars>, ProgramCert), Memory>
    ensures { IfOk result (λ r. IsAcceptedProgram (program_names program.now)
        (program_rules program.now) (program_beliefs program.now) r.0.items
        (program_shown_of r.1)) }
{
    let search = find_all(alloc, program)?;
    certified(alloc, program, search)
}

/// The views of the beliefs that a program with further facts accepts: for each of its answer sets
/// (Gelfond & Lifschitz 1991) the numbers, from 0, of the beliefs in it. Each view is there once,
/// in the order of states, and a certificate shows that they are all. All atoms have to be among
/// `atoms`, of which there are at most 64, and there may be at most 64 beliefs.
pub fn answer_sets(
    alloc: Global,
    rules: &[ProgRule],
    added: &[Name],
    beliefs: &[Name],
    atoms: &[Name],
) -> Result<(Vec<Vars>, ProgramCert), Memory>
    requires few { length atoms.now ≤ 64 }
    requires few_beliefs { length beliefs.now ≤ 64 }
    requires different { has_twins atoms.now ≡ false }
    requires rules { AreOverRules atoms.now (map rule_of rules.now) }
    requires added { AllByRecursion (λ n. IsTrue (is_in n atoms.now)) added.now }
    requires beliefs { AllByRecursion (λ n. IsTrue (is_in n atoms.now)) beliefs.now }
    ensures exact { IfOk result (λ r. IsListing (IsAcceptedView
        (with_heads (Program (map rule_of rules.now)) (map Atom added.now))
        (map Atom beliefs.now)) StateBefore r.0.items) }
    ensures accepted { IfOk result (λ r. IsAcceptedProgram atoms.now
        (map rule_of rules.now ++ filter_map fact_of (map Atom added.now))
        (map Atom beliefs.now) r.0.items (program_shown_of r.1)) }
{
    let added: Vec<&Name> = added.iter().collect(alloc)?;
    let beliefs: Vec<&Name> = beliefs.iter().collect(alloc)?;
    answer_sets_from(alloc, rules, &added, &beliefs, atoms)
}

/// The same for references to names.
pub fn answer_sets_from(
    alloc: Global,
    rules: &[ProgRule],
    added: &[&Name],
    beliefs: &[&Name],
    atoms: &[Name],
) -> Result<(Vec<Vars>, ProgramCert), Memory>
    requires few { length atoms.now ≤ 64 }
    requires few_beliefs { length beliefs.now ≤ 64 }
    requires different { has_twins atoms.now ≡ false }
    requires rules { AreOverRules atoms.now (map rule_of rules.now) }
    requires added { AllByRecursion (λ n. IsTrue (is_in n atoms.now)) (map (λ b. b.now) added.now) }
    requires beliefs { AllByRecursion (λ n. IsTrue (is_in n atoms.now))
        (map (λ b. b.now) beliefs.now) }
    ensures exact { IfOk result (λ r. IsListing (IsAcceptedView
        (with_heads (Program (map rule_of rules.now)) (map Atom (map (λ b. b.now) added.now)))
        (map Atom (map (λ b. b.now) beliefs.now))) StateBefore r.0.items) }
    ensures accepted { IfOk result (λ r. IsAcceptedProgram atoms.now
        (map rule_of rules.now ++ filter_map fact_of (map Atom (map (λ b. b.now) added.now)))
        (map Atom (map (λ b. b.now) beliefs.now)) r.0.items (program_shown_of r.1)) }
{
    let all = with_facts(alloc, rules, added)?;
    let program = LogicProgram {
        atoms,
        rules: &all,
        beliefs,
    };
    let result = found_and_shown(alloc, &program);
    drop(all);
    result
}

/// The views alone, without a certificate, for references to names.
pub fn list_answer_sets(
    alloc: Global,
    rules: &[ProgRule],
    added: &[&Name],
    beliefs: &[&Name],
    atoms: &[Name],
) -> Result<Vec<Vars>, Memory>
    requires few { length atoms.now ≤ 64 }
    requires few_beliefs { length beliefs.now ≤ 64 }
    requires different { has_twins atoms.now ≡ false }
    requires rules { AreOverRules atoms.now (map rule_of rules.now) }
    requires added { AllByRecursion (λ n. IsTrue (is_in n atoms.now)) (map (λ b. b.now) added.now) }
    requires beliefs { AllByRecursion (λ n. IsTrue (is_in n atoms.now))
        (map (λ b. b.now) beliefs.now) }
    ensures exact { IfOk result (λ r. IsListing (IsAcceptedView
        (with_heads (Program (map rule_of rules.now)) (map Atom (map (λ b. b.now) added.now)))
        (map Atom (map (λ b. b.now) beliefs.now))) StateBefore r.items) }
{
    let given = LogicProgram {
        atoms,
        rules,
        beliefs,
    };
    let all = once_with_facts(alloc, &given, added)?;
    let program = LogicProgram {
        atoms,
        rules: &all,
        beliefs,
    };
    let result = list_all(alloc, &program);
    drop(all);
    result
}
