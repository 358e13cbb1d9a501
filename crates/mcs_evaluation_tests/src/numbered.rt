//! Lists of sets, by the numbers of the sets.

use mcs_base::Vars;

/// Whether these are the sets of these numbers.
pub(crate) fn are_numbered(sets: &[Vars], numbers: &[u64]) -> bool {
    if sets.len() != numbers.len() {
        return false;
    }
    for (set, number) in sets.iter().zip(numbers) {
        if set.number() != *number {
            return false;
        }
    }
    true
}
