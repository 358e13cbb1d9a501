//! A program that is asked.

ghost use Rattle.std.specs.Prelude.{◌≤◌, length, map};
ghost use Rattle.mcs_system.specs.Seen.{rule_of};
ghost use Rattle.mcs_evidence.specs.Programs.{AreOverRules};
ghost use Rattle.mcs_evidence.specs.Pushing.{AreNamesOf};
ghost use Rattle.mcs_asked.specs.OneProof.{AreOverRules-prop, AreNamesOf-prop};

use mcs_system::{Name, ProgRule};

/// The atoms of a program, at most 64, its rules and the facts that it was given, and atoms that it
/// is asked for, at most 64.
#[derive(Clone, Copy)]
pub struct AskedProgram<'a> {
    pub atoms: &'a [Name],
    pub rules: &'a [ProgRule],
    pub beliefs: &'a [&'a Name],
    pub ghost few: { length atoms.now ≤ 64 },
    pub ghost few_beliefs: { length beliefs.now ≤ 64 },
    pub ghost over: { AreOverRules atoms.now (map rule_of rules.now) } by { AreOverRules-prop
        atoms.now (map rule_of rules.now) },
    pub ghost names: { AreNamesOf atoms.now (map (λ b. b.now) beliefs.now) } by { AreNamesOf-prop
        atoms.now (map (λ b. b.now) beliefs.now) },
}
