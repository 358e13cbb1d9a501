//! The rules of a program, each once. A program has the same answer sets without a rule whose twin
//! it has.

ghost use Rattle.std.specs.Prelude.{◌++◌, map, IfOk};
ghost use Rattle.std.specs.List.{filter_map};
ghost use Rattle.mcs_system.specs.Logic.{fact_of};
ghost use Rattle.mcs_system.specs.Plain as plain;
ghost use Rattle.mcs_system.specs.Seen.{rule_of};
ghost use Rattle.mcs_evidence.specs.Programs.{AreOverRules};
ghost use Rattle.mcs_evidence.specs.Pushing.{AreNamesOf};
ghost use Rattle.mcs_program.specs.Asked.{program_names, program_rules};
ghost use Rattle.mcs_program.specs.Once.{IsOnce};

use crate::placing::PlacedRule;
use mcs_base::Memory;
use mcs_minimal::LogicProgram;
use mcs_system::{Name, ProgRule, with_facts};
use std::alloc::Global;
use std::collections::BTreeSet;

/// Copies of the rules, in order, but for each one whose head, positive and negative body have the
/// atoms of those of an earlier one.
fn rules_once(alloc: Global, program: &LogicProgram<'_>) -> Result<Vec<ProgRule>, Memory>
    ensures { IfOk result (λ once. IsOnce (program_rules program.now) (map rule_of once.items)) }
{
    let rules = program.rules;
    let mut seen = BTreeSet::new(alloc);
    let mut once = Vec::new(alloc);
    for rule in rules {
        if seen.insert(PlacedRule::of(program, rule))? {
            once.push(rule.copy(alloc)?)?;
        }
    }
    Ok(once)
}

/// The rules, each once, followed by each of the names as a fact.
pub(crate) fn once_with_facts(
    alloc: Global,
    program: &LogicProgram<'_>,
    added: &[&Name],
) -> Result<Vec<ProgRule>, Memory>
    requires { AreNamesOf (program_names program.now) (map (λ b. b.now) added.now) }
    ensures over { IfOk result (λ all. AreOverRules (program_names program.now)
        (map rule_of all.items)) }
    ensures once { IfOk result (λ all. IsOnce (program_rules program.now
        ++ filter_map fact_of (map plain.Atom (map (λ b. b.now) added.now)))
        (map rule_of all.items)) }
{
    let once = rules_once(alloc, program)?;
    let all = with_facts(alloc, &once, added);
    drop(once);
    all
}
