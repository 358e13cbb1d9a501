//! Whether parts of a system are larger than the limit.

ghost use Rattle.std.specs.Prelude.{◌≡◌, Bool, map, min};
ghost use Rattle.std.specs.List.{list_any};
ghost use Rattle.mcs_system.specs.Faults.{has_large_formula, has_large_item, has_large_part};
ghost use Rattle.mcs_system.specs.Faults.{is_large, is_large_rule};
ghost use Rattle.mcs_system.specs.Plain as plain;
ghost use Rattle.mcs_system.specs.Seen.{bridge_of, context_of, formula_of, formula_size, item_of};
ghost use Rattle.mcs_system.specs.Seen.{read_of, rule_of};

use crate::bridge::{Bridge, Read};
use crate::formula::Formula;
use crate::knowledge::{Context, ProgRule, TheoryItem};
use crate::limit::Limit;

/// How many atoms, constants and connectives the formula has; if there are more than the limit, the
/// limit and one.
fn capped_size(formula: &Formula) -> usize
    ensures { result ≡ min (formula_size (formula_of formula.now)) 513 }
{
    let size = match formula {
        Formula::True | Formula::False | Formula::Atom(_) => 1,
        Formula::Not(part) => capped_size(part) + 1,
        Formula::And(left, right)
        | Formula::Or(left, right)
        | Formula::Implies(left, right)
        | Formula::Iff(left, right) => capped_size(left) + capped_size(right) + 1,
    };
    size.min(Limit::FormulaSize.most() + 1)
}

/// A part of a system that may be larger than the limit.
pub(crate) trait HasSize {
    ghost Seen: { Type 0 };

    ghost seen: { Self → Self.Seen };

    ghost large: { Self.Seen → Bool };

    /// Whether it is.
    fn is_large(&self) -> bool
        ensures { result ≡ Self.large (Self.seen self.now) };
}

/// Whether some part is larger than the limit.
pub(crate) fn any_large<T: HasSize>(parts: &[T]) -> bool
    ensures { result ≡ list_any T.large (map T.seen parts.now) }
{
    parts.iter().any(|part| part.is_large())
}

impl HasSize for Formula {
    ghost Seen = { plain.Formula };

    ghost seen = { formula_of };

    ghost large = { is_large };

    fn is_large(&self) -> bool {
        Limit::FormulaSize.is_exceeded_by(capped_size(self))
    }
}

impl HasSize for TheoryItem {
    ghost Seen = { plain.Item };

    ghost seen = { item_of };

    ghost large = { has_large_formula };

    fn is_large(&self) -> bool {
        match self {
            TheoryItem::Fact(formula) => formula.is_large(),
            TheoryItem::Rule(default) => {
                default.pre.is_large() || any_large(&default.justs) || default.conclusion.is_large()
            }
        }
    }
}

/// A program rule is larger than the limit if it has more names.
impl HasSize for ProgRule {
    ghost Seen = { plain.ProgramRule };

    ghost seen = { rule_of };

    ghost large = { is_large_rule };

    fn is_large(&self) -> bool {
        let most = Limit::FormulaSize.most();
        self.head.len().min(most + 1) + self.pos.len().min(most + 1) + self.neg.len().min(most + 1)
            > most
    }
}

/// A read is larger than the limit if its belief is.
impl HasSize for Read {
    ghost Seen = { plain.Read };

    ghost seen = { read_of };

    ghost large = { λ r. is_large r.belief };

    fn is_large(&self) -> bool {
        self.belief.is_large()
    }
}

/// A context is larger than the limit if some item is.
impl HasSize for Context {
    ghost Seen = { plain.Context };

    ghost seen = { context_of };

    ghost large = { λ c. has_large_item c.kb };

    fn is_large(&self) -> bool {
        self.kb.has_large_item()
    }
}

/// A bridge rule is larger than the limit if its head or a belief that it reads is.
impl HasSize for Bridge {
    ghost Seen = { plain.Bridge };

    ghost seen = { bridge_of };

    ghost large = { has_large_part };

    #[tactic(auto, using(mcs_base::proofs::Ranges::any_of_both))]
    fn is_large(&self) -> bool {
        self.head.is_large() || any_large(&self.pos) || any_large(&self.neg)
    }
}
