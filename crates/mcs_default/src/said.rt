//! What added facts say word for word of a theory's defaults.

ghost use Rattle.std.specs.Prelude.{◌≡◌, ◌≤◌, ◌++◌, ℕ, List, true, Some, length, map, slice_get};
ghost use Rattle.std.specs.Prelude.{IsTrue, IfOk};
ghost use Rattle.std.specs.List.{AllByRecursion};
ghost use Rattle.mcs_sets.specs.Sets.{has};
ghost use Rattle.mcs_system.specs.Logic.{Entails};
ghost use Rattle.mcs_system.specs.Plain.{Fact};
ghost use Rattle.mcs_system.specs.Plain as plain;
ghost use Rattle.mcs_system.specs.Seen.{formula_of, default_of, item_of};
ghost use Rattle.mcs_evidence.specs.Defaults.{defaults_of};
ghost use Rattle.mcs_default.specs.Searches.{IsLower};

use crate::findings::Lower;
use mcs_base::{Memory, Vars};
use mcs_evidence::defaults_of;
use mcs_system::{Default, Formula, TheoryItem, same_formula};
use std::alloc::Global;

/// Whether the formula is one of these, word for word, or says nothing.
fn is_said(formula: &Formula, said: &[&Formula]) -> bool
    ensures { (fs : List plain.Formula) → AllByRecursion (Entails fs)
        (map (λ f. formula_of f.now) said.now) → IsTrue result
        → Entails fs (formula_of formula.now) }
{
    if let Formula::True = formula {
        return true;
    }
    for other in said {
        if same_formula(other, formula) {
            return true;
        }
    }
    false
}

/// The defaults whose prerequisites are said so.
fn with_said_pre(defaults: &[&Default], said: &[&Formula]) -> Vars
    requires { length defaults.now ≤ 10 }
    ensures { (fs : List plain.Formula)
        → AllByRecursion (Entails fs) (map (λ f. formula_of f.now) said.now)
        → (k : ℕ) → has result k ≡ true → (d : plain.Default)
        → slice_get (map (λ d. default_of d.now) defaults.now) k ≡ Some d → Entails fs d.pre }
{
    let mut places = Vars::empty();
    for (index, default) in defaults.iter().enumerate() {
        if is_said(&default.pre, said) {
            places = places.with(index as u32);
        }
    }
    places
}

/// What the added facts support word for word, with any set of defaults. No search is needed to
/// find that.
pub(crate) fn lower_of_said(
    alloc: Global,
    items: &[TheoryItem],
    added: &[&Formula],
) -> Result<Lower, Memory>
    requires { length (defaults_of (map item_of items.now)) ≤ 10 }
    ensures { IfOk result (IsLower (map item_of items.now
        ++ map Fact (map (λ f. formula_of f.now) added.now))) }
{
    let defaults = defaults_of(alloc, items)?;
    let supported = with_said_pre(&defaults, added);
    Ok(Lower {
        set: Vars::empty(),
        supported,
        blocked: Vars::empty(),
    })
}
