//! Default theories that are asked, and what the lines of their certificates may name.

ghost use Rattle.std.specs.Prelude.{◌≡◌, ◌≤◌, ◌++◌, Some, length, map};
ghost use Rattle.std.specs.Coded.{Coded-set, coded_list, coded_ℕ};
ghost use Rattle.mcs_system.specs.Plain.{Fact};
ghost use Rattle.mcs_system.specs.Plain as plain;
ghost use Rattle.mcs_system.specs.Seen.{default_of, formula_of, item_of};
ghost use Rattle.mcs_evidence.specs.Defaults.{defaults_of};
ghost use Rattle.mcs_extensions.specs.Checks.{at_number};
ghost use Rattle.mcs_proof_lines.specs.Walks.{IsNumberOf};

use mcs_asked::AskedTheory;
use mcs_proof_lines::Theory;
use mcs_system::Default;

/// A default theory that is asked, and what the lines of its certificate may name.
#[derive(Clone, Copy)]
pub(crate) struct TheoryLines<'t> {
    pub theory: &'t AskedTheory<'t>,
    pub terms: &'t Theory<'t>,
    pub ghost justs: { terms.now.justs.now ≡ map (λ (d : plain.Default). length d.justs)
        (defaults_of (map item_of theory.now.items.now
        ++ map Fact (map (λ f. formula_of f.now) theory.now.heads.now))) } by { Coded-set
            (coded_list coded_ℕ) terms.now.justs.now (map
            (λ (d : plain.Default). length d.justs) (defaults_of
            (map item_of theory.now.items.now ++ map Fact
            (map (λ f. formula_of f.now) theory.now.heads.now)))) },
    pub ghost beliefs: { terms.now.beliefs ≡ length theory.now.asked.now.beliefs.now },
    pub ghost few_texts: { length terms.now.atoms.now ≤ 64 },
    pub ghost few_numbers: { length terms.now.numbers.now ≤ 64 },
    pub ghost few_justs: { length terms.now.justs.now ≤ 10 },
}

/// The default with this number, counted from 1.
pub(crate) fn default_numbered<'t>(reading: &TheoryLines<'t>, number: u32) -> &'t Default
    requires { IsNumberOf reading.now.terms.now.justs.now number }
    ensures { at_number (map (λ d. default_of d.now) reading.now.theory.now.defaults.now) number
        ≡ Some (default_of result.now) }
{
    let defaults = reading.theory.defaults;
    defaults[(number - 1) as usize]
}
