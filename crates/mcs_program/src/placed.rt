//! A program, with its rules and beliefs by the places of their atoms.

ghost use Rattle.std.specs.Prelude.{map};
ghost use Rattle.mcs_system.specs.Seen.{rule_of};
ghost use Rattle.mcs_program.specs.Placing.{IsPlacing};
ghost use Rattle.mcs_program.specs.PlacingProofs.{IsPlacing-prop};

use crate::placing::Placing;
use mcs_minimal::LogicProgram;

/// A program that is asked, with its rules and beliefs by the places of their atoms.
#[derive(Drop)]
pub(crate) struct PlacedProgram<'a> {
    pub(crate) program: &'a LogicProgram<'a>,
    pub(crate) placing: Placing,
    ghost right: { IsPlacing program.now.atoms.now (map rule_of program.now.rules.now)
        (map (λ b. b.now) program.now.beliefs.now) placing } by { IsPlacing-prop
            program.now.atoms.now (map rule_of program.now.rules.now)
            (map (λ b. b.now) program.now.beliefs.now) placing },
}
