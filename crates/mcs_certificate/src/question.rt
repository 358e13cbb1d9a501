//! What is asked of a context.

ghost use Rattle.std.specs.Prelude.{◌≤◌, map};
ghost use Rattle.mcs_system.specs.Seen.{formula_of, kb_of};
ghost use Rattle.mcs_cnf.specs.ClauseLists.{AreOver};
ghost use Rattle.mcs_asking.specs.Kinds.{part_count, IsOverKb, AreOfKind};
ghost use Rattle.mcs_cnf.specs.OneProof.{AreOver-prop};
ghost use Rattle.mcs_certificate.specs.OneProof.{IsOverKb-prop, AreOfKind-prop};

use mcs_asked::Asked;
use mcs_system::{Formula, Kb};

/// A knowledge base, of at most 10 defaults, with the heads that it is told, its atoms, and the
/// beliefs that it is asked for: all are over its atoms, and those of a program are atoms.
#[derive(Clone, Copy)]
pub struct Question<'a> {
    pub asked: &'a Asked<'a>,
    pub kb: &'a Kb,
    pub heads: &'a [&'a Formula],
    pub ghost few_parts: { part_count (kb_of kb.now) ≤ 10 },
    pub ghost own: { IsOverKb asked.now.atoms.now
        (kb_of kb.now) } by { IsOverKb-prop asked.now.atoms.now (kb_of kb.now) },
    pub ghost told: { AreOver asked.now.atoms.now
        (map (λ f. formula_of f.now) heads.now) } by { AreOver-prop asked.now.atoms.now
            (map (λ f. formula_of f.now) heads.now) },
    pub ghost kinds: { AreOfKind (kb_of kb.now) (map
        (λ b. formula_of b.now) asked.now.beliefs.now) } by { AreOfKind-prop (kb_of kb.now)
            (map (λ b. formula_of b.now) asked.now.beliefs.now) },
}
