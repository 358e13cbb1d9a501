//! The least of some numbers.

ghost use Rattle.std.specs.Prelude.{◌++◌, ◌∷◌, [], ℕ, List, Some};
ghost use Rattle.mcs_base.specs.Least.{IsLeastOf};

/// The lesser of the number and the least of those before it, if there are any.
pub fn lesser(least: Option<u64>, number: u64) -> u64
    ensures { (numbers : List ℕ) → IsLeastOf numbers least → IsLeastOf (numbers ++ number ∷ []) (Some result) }
{
    match least {
        None => number,
        Some(least) => least.min(number),
    }
}
