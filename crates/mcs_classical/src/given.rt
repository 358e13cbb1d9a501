//! What is asked, and what may be assumed.

ghost use Rattle.std.specs.Prelude.{◌≡◌, ◌<◌, false, map};
ghost use Rattle.std.specs.List.{AllByRecursion};
ghost use Rattle.mcs_system.specs.Faults.{has_twins};
ghost use Rattle.mcs_system.specs.Seen.{formula_of};
ghost use Rattle.mcs_cnf.specs.ClauseLists.{AreOver};
ghost use Rattle.mcs_cnf.specs.OneProof.{AreOver-prop};
ghost use Rattle.mcs_classical.specs.OneProof.{AreNumbers-prop};
ghost use Rattle.mcs_classical.specs.declared.assumptions.Assumption as declared;

use crate::assumptions::Assumption;
use mcs_asked::Asked;

/// What is asked, where the atoms are different, and formulas over these that may be assumed, with
/// numbers below 64.
#[derive(Clone, Copy)]
pub struct Given<'a> {
    pub asked: &'a Asked<'a>,
    pub assumptions: &'a [Assumption<'a>],
    pub ghost different: { has_twins asked.now.atoms.now ≡ false },
    pub ghost numbers: { AllByRecursion (λ (a : declared.Assumption). a.number < 64)
        assumptions.now } by { AreNumbers-prop assumptions.now },
    pub ghost over: { AreOver asked.now.atoms.now
        (map (λ (a : declared.Assumption). formula_of a.formula.now)
        assumptions.now) } by { AreOver-prop asked.now.atoms.now
            (map (λ (a : declared.Assumption). formula_of a.formula.now) assumptions.now) },
}
