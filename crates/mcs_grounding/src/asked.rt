//! What is asked of a default theory.

ghost use Rattle.std.specs.Prelude.{◌≡◌, ◌≤◌, false, length, map};
ghost use Rattle.mcs_system.specs.Faults.{has_twins};
ghost use Rattle.mcs_system.specs.Seen.{default_of};
ghost use Rattle.mcs_evidence.specs.Theories.{AreOverDefaults};
ghost use Rattle.mcs_asked.specs.OneProof.{AreOverDefaults-prop};

use mcs_asked::Asked;
use mcs_system::Default;

/// The defaults of a theory, at most 10, with the atoms that they are over, each once, and the
/// beliefs that it is asked for.
#[derive(Clone, Copy)]
pub struct Theory<'a> {
    pub asked: &'a Asked<'a>,
    pub defaults: &'a [&'a Default],
    ghost different: { has_twins asked.now.atoms.now ≡ false },
    ghost few_defaults: { length defaults.now ≤ 10 },
    ghost over: { AreOverDefaults asked.now.atoms.now
        (map (λ d. default_of d.now) defaults.now) } by { AreOverDefaults-prop asked.now.atoms.now
            (map (λ d. default_of d.now) defaults.now) },
}
