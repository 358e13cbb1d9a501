//! The marks of sets of rules.

ghost use Rattle.std.specs.Prelude.{◌≡◌, ◌<◌, ◌%◌, ◌/◌, ◌||◌, ◌&&◌, ℕ, nat_eq};
ghost use Rattle.mcs_sets.specs.Sets.{has, Within};
ghost use Rattle.mcs_system.specs.Plain.{System};
ghost use Rattle.mcs_system.specs.Repairs.{marks_of};
ghost use Rattle.mcs_system.specs.Systems.{all_rules};

use mcs_base::{Active, Marks};

/// The marks and, for each of the rules, the one that says that it is removed, or forced where
/// `offset` is 1.
fn with_marks(marks: Marks, rules: Active, offset: u32) -> Marks
    requires { offset < 2 }
    ensures { (k : ℕ)
        → has result k ≡ (has marks k || (nat_eq (k % 2) offset && has rules (k / 2))) }
{
    let mut all = marks;
    for rule in rules.members() {
        all = all.with(2 * rule + offset);
    }
    all
}

/// The marks that say that the rules of the first set are removed, and those of the second forced.
pub(crate) fn marks_of(removed: Active, forced: Active) -> Marks
    ensures { (m : System) → Within removed (all_rules m) → Within forced (all_rules m)
        → result ≡ marks_of m removed forced }
{
    with_marks(with_marks(Marks::empty(), removed, 0), forced, 1)
}
