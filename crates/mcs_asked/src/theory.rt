//! A default theory that is asked.

ghost use Rattle.std.specs.Prelude.{◌≡◌, ◌≤◌, ◌++◌, length, map};
ghost use Rattle.mcs_system.specs.Plain.{Fact};
ghost use Rattle.mcs_system.specs.Seen.{default_of, formula_of, item_of};
ghost use Rattle.mcs_evidence.specs.Defaults.{AreOverItems, defaults_of};
ghost use Rattle.mcs_asked.specs.OneProof.{AreOverItems-prop, SameDefaults-prop};

use crate::asked::Asked;
use mcs_system::{Default, Formula, TheoryItem};

/// A default theory over the atoms, with heads that are facts beside its own, and its defaults, at
/// most 10.
#[derive(Clone, Copy)]
pub struct AskedTheory<'a> {
    pub asked: &'a Asked<'a>,
    pub items: &'a [TheoryItem],
    pub heads: &'a [&'a Formula],
    pub defaults: &'a [&'a Default],
    pub ghost are: { map (λ d. default_of d.now) defaults.now
        ≡ defaults_of (map item_of items.now ++ map Fact
        (map (λ f. formula_of f.now) heads.now)) } by { SameDefaults-prop
            (map (λ d. default_of d.now) defaults.now)
            (defaults_of (map item_of items.now ++ map Fact
            (map (λ f. formula_of f.now) heads.now))) },
    pub ghost few_defaults: { length defaults.now ≤ 10 },
    pub ghost over: { AreOverItems asked.now.atoms.now
        (map item_of items.now ++ map Fact (map (λ f. formula_of f.now)
        heads.now)) } by { AreOverItems-prop asked.now.atoms.now
            (map item_of items.now ++ map Fact (map (λ f. formula_of f.now) heads.now)) },
}
