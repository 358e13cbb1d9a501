//! The atoms of a context and the beliefs that it is asked for.

ghost use Rattle.std.specs.Prelude.{◌≤◌, length, map};
ghost use Rattle.mcs_system.specs.Seen.{formula_of};
ghost use Rattle.mcs_cnf.specs.ClauseLists.{AreOver};
ghost use Rattle.mcs_cnf.specs.OneProof.{AreOver-prop};

use mcs_system::{Formula, Name};

/// The atoms of a context, at most 64, and beliefs over them, at most 64.
#[derive(Clone, Copy)]
pub struct Asked<'a> {
    pub atoms: &'a [Name],
    pub beliefs: &'a [&'a Formula],
    pub ghost few: { length atoms.now ≤ 64 },
    pub ghost few_beliefs: { length beliefs.now ≤ 64 },
    pub ghost over: { AreOver atoms.now (map (λ b. formula_of b.now)
        beliefs.now) } by { AreOver-prop atoms.now (map (λ b. formula_of b.now) beliefs.now) },
}
