//! What is asked of a disjunctive program.

ghost use Rattle.std.specs.Prelude.{◌≡◌, ◌≤◌, false, length, map};
ghost use Rattle.mcs_system.specs.Faults.{has_twins};
ghost use Rattle.mcs_system.specs.Seen.{rule_of};
ghost use Rattle.mcs_evidence.specs.Programs.{AreOverRules};
ghost use Rattle.mcs_evidence.specs.Pushing.{AreNamesOf};
ghost use Rattle.mcs_asked.specs.OneProof.{AreNamesOf-prop, AreOverRules-prop};

use mcs_system::{Name, ProgRule};

/// The rules of a disjunctive program, the atoms that they are over, each once and at most 64, and
/// the beliefs that it is asked for, at most 64.
#[derive(Clone, Copy)]
pub struct LogicProgram<'a> {
    pub atoms: &'a [Name],
    pub rules: &'a [ProgRule],
    pub beliefs: &'a [&'a Name],
    ghost few: { length atoms.now ≤ 64 },
    ghost different: { has_twins atoms.now ≡ false },
    ghost few_beliefs: { length beliefs.now ≤ 64 },
    ghost rules_over: { AreOverRules atoms.now (map rule_of rules.now) } by { AreOverRules-prop
        atoms.now (map rule_of rules.now) },
    ghost beliefs_over: { AreNamesOf atoms.now (map
        (λ b. b.now) beliefs.now) } by { AreNamesOf-prop atoms.now (map (λ b. b.now) beliefs.now) },
}
