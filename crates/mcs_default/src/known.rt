//! What is known of one set of defaults by all that was found.

ghost use Rattle.std.specs.Prelude.{◌≡◌, ℕ, List, true};
ghost use Rattle.std.specs.List.{AllByRecursion};
ghost use Rattle.mcs_sets.specs.Sets.{has, Within};
ghost use Rattle.mcs_system.specs.Plain as plain;
ghost use Rattle.mcs_evidence.specs.Defaults.{defaults_of};
ghost use Rattle.mcs_evidence.specs.Theories.{IsDefaultAt};
ghost use Rattle.mcs_grounding.specs.Asked.{theory_defaults};
ghost use Rattle.mcs_default.specs.Searches.{IsConflict, IsLower, IsUpper, IsOpenAt};
ghost use Rattle.mcs_default.specs.Known.{IsKnown, without_justs};
ghost use Rattle.mcs_default.specs.Nodes.{IsKnownOf};

use crate::findings::{Lower, Upper, has_conflict};
use crate::searching::Search;
use mcs_base::Vars;
use mcs_grounding::Theory;

/// The number of the set of the first ten defaults. No theory has more.
const TEN_DEFAULTS: u64 = 1023;

/// What is known of a set of defaults.
#[derive(Clone, Copy)]
pub(crate) struct Known {
    /// The set.
    pub(crate) set: Vars,
    /// Defaults that it supports.
    pub(crate) supported: Vars,
    /// Defaults that it does not support.
    pub(crate) unsupported: Vars,
    /// Defaults that it does not block.
    pub(crate) allowed: Vars,
    /// Defaults that it blocks.
    pub(crate) blocked: Vars,
}

/// The sets of defaults that have all that is taken, and nothing that is not in `all`, with what is
/// known of the two.
#[derive(Clone, Copy)]
pub(crate) struct Node {
    pub(crate) taken: Known,
    pub(crate) all: Known,
}

impl Known {
    /// Nothing is known of the set.
    fn nothing(set: Vars) -> Known
        ensures set { result.set ≡ set }
        ensures right { (items : List plain.Item) → IsKnown items result }
    {
        Known {
            set,
            supported: Vars::empty(),
            unsupported: Vars::empty(),
            allowed: Vars::empty(),
            blocked: Vars::empty(),
        }
    }

    /// What is known of a set by which everything follows, where these defaults have no
    /// justification.
    fn of_conflict(set: Vars, free: Vars) -> Known
        ensures set { result.set ≡ set }
        ensures right { (items : List plain.Item) → free ≡ without_justs (defaults_of items)
            → IsConflict items set → IsKnown items result }
    {
        let all = Vars::numbered(TEN_DEFAULTS);
        Known {
            set,
            supported: all,
            unsupported: Vars::empty(),
            allowed: free,
            blocked: all.minus(free),
        }
    }

    /// With what is known of a smaller set.
    fn with_lower(self, found: &Lower) -> Known
        ensures set { result.set ≡ self.set }
        ensures right { (items : List plain.Item) → IsKnown items self → IsLower items found.now
            → IsKnown items result }
    {
        if !found.set.within(self.set) {
            return self;
        }
        Known {
            set: self.set,
            supported: self.supported.union(found.supported),
            unsupported: self.unsupported,
            allowed: self.allowed,
            blocked: self.blocked.union(found.blocked),
        }
    }

    /// With what an assignment shows of a larger set.
    fn with_upper(self, found: &Upper) -> Known
        ensures set { result.set ≡ self.set }
        ensures right { (names : List plain.Name) (items : List plain.Item) → IsKnown items self
            → IsUpper names items found.now → IsKnown items result }
    {
        if !self.set.within(found.set) {
            return self;
        }
        let others = Vars::numbered(TEN_DEFAULTS).minus(found.supported);
        Known {
            set: self.set,
            supported: self.supported,
            unsupported: self.unsupported.union(others),
            allowed: self.allowed.union(found.allowed),
            blocked: self.blocked,
        }
    }

    /// With what is known of all smaller sets.
    fn with_all_lower(self, lower: &[Lower]) -> Known
        ensures set { result.set ≡ self.set }
        ensures right { (items : List plain.Item) → IsKnown items self
            → AllByRecursion (IsLower items) lower.now → IsKnown items result }
    {
        let mut known = self;
        for found in lower {
            known = known.with_lower(found);
        }
        known
    }

    /// With what all assignments show.
    fn with_all_upper(self, upper: &[Upper]) -> Known
        ensures set { result.set ≡ self.set }
        ensures right { (names : List plain.Name) (items : List plain.Item) → IsKnown items self
            → AllByRecursion (IsUpper names items) upper.now → IsKnown items result }
    {
        let mut known = self;
        for found in upper {
            known = known.with_upper(found);
        }
        known
    }
}

/// The defaults that have no justification.
fn without_justs(theory: &Theory<'_>) -> Vars
    ensures { result ≡ without_justs (theory_defaults theory.now) }
{
    let defaults = theory.defaults;
    let mut places = Vars::empty();
    for (index, default) in defaults.iter().enumerate() {
        if default.justs.as_slice().is_empty() {
            places = places.with(index as u32);
        }
    }
    places
}

/// What is known of the set by all that was found.
pub(crate) fn known_of(search: &Search<'_>, set: Vars) -> Known
    ensures set { result.set ≡ set }
    ensures right { IsKnownOf search.now result }
{
    let findings = &search.findings;
    if has_conflict(&findings.conflicts, set) {
        return Known::of_conflict(set, without_justs(search.theory));
    }
    Known::nothing(set)
        .with_all_lower(&findings.lower)
        .with_all_upper(&findings.upper)
}

/// The defaults of which it is known that they leave it open that a set between these two generates
/// an extension.
pub(crate) fn known_open(taken: Known, all: Known) -> Vars
    requires { Within taken.set all.set }
    ensures { (items : List plain.Item) → IsKnown items taken → IsKnown items all → (k : ℕ)
        → has result k ≡ true → IsOpenAt items taken.set all.set k }
{
    let undecided = all.set.minus(taken.set);
    let inside = taken.set.common(all.supported.common(taken.allowed));
    let outside = taken.unsupported.union(all.blocked).minus(all.set);
    undecided.union(inside).union(outside)
}

/// The defaults of which it is known that by them no set between these two generates an extension.
pub(crate) fn known_closed(taken: Known, all: Known) -> Vars
    ensures { (items : List plain.Item) → IsKnown items taken → IsKnown items all
        → (k : ℕ) → has result k ≡ true → (d : plain.Default) → IsDefaultAt items k d
        → ¬ IsOpenAt items taken.set all.set k }
{
    let inside = taken.set.common(all.unsupported.union(taken.blocked));
    let outside = taken.supported.common(all.allowed).minus(all.set);
    inside.union(outside)
}
