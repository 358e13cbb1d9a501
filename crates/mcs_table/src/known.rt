//! Rows whose marks hold one of some sets.

ghost use Rattle.std.specs.Prelude.{◌↔◌, IsTrue};
ghost use Rattle.mcs_base.specs.Antichains.{HasOneWithin};

use mcs_base::Marks;

/// Whether the marks hold one of the sets.
pub fn holds_one(marks: Marks, sets: &[Marks]) -> bool
    ensures { IsTrue result ↔ HasOneWithin sets.now marks }
{
    for set in sets {
        if set.within(marks) {
            return true;
        }
    }
    false
}
