//! The items of contexts, kind by kind, and the signs of formulas.

ghost use Rattle.std.specs.Prelude.{◌≡◌, IfOk, List, MatchOption, Some, None, [], ◌∷◌};
ghost use Rattle.mcs_system.specs.Plain as plain;
ghost use Rattle.mcs_system.specs.Seen.{formula_of, rule_of};
ghost use Rattle.mcs_system.specs.Seen as seen;
ghost use Rattle.mcs_account.specs.Account as said;
ghost use Rattle.mcs_account.specs.Account.{IsJoining, item_of};
ghost use Rattle.mcs_account.specs.Items.{is_counted, kind_said};
ghost use Rattle.mcs_account.specs.Images.{operands_of};

use mcs_base::Memory;
use mcs_productions::{Action, Class};
use mcs_system::{Default, Formula, Kb, ProgRule, TheoryItem};
use std::alloc::Global;

/// Whether a token of the class counts in the size of its formula, and is no atom.
pub(crate) fn is_counted(class: Class) -> bool
    ensures { result ≡ is_counted class }
{
    matches!(
        class,
        Class::Negates
            | Class::Conjoins
            | Class::Disjoins
            | Class::Implies
            | Class::Equates
            | Class::IsTrue
            | Class::IsFalse
    )
}

/// The knowledge base without items of the kind that a token of the class says, if it says one.
pub(crate) fn empty_kb(alloc: Global, class: Class) -> Option<Kb>
    ensures { MatchOption result (kind_said class ≡ None) (λ kb. (k : plain.Kind)
        × (kind_said class ≡ Some k) × (seen.kb_of kb ≡ plain.OfKind k [])) }
{
    match class {
        Class::SaysClassical => Some(Kb::Classical(Vec::new(alloc))),
        Class::SaysDefault => Some(Kb::DefaultTheory(Vec::new(alloc))),
        Class::SaysProgram => Some(Kb::Program(Vec::new(alloc))),
        _ => None,
    }
}

/// The item of these formulas: one is a fact; of more the first is the prerequisite of a default,
/// and the last its consequent.
fn item(formulas: Vec<Formula>) -> Option<TheoryItem>
    ensures { MatchOption result (operands_of formulas.items ≡ []) (λ i. (f : plain.Formula)
        × (fs : List plain.Formula) × (operands_of formulas.items ≡ f ∷ fs)
        × (seen.item_of i ≡ item_of f fs [])) }
{
    let mut formulas = formulas;
    let conclusion = formulas.pop()?;
    if formulas.is_empty() {
        return Some(TheoryItem::Fact(conclusion));
    }
    let pre = formulas.remove(0);
    Some(TheoryItem::Rule(Default {
        pre,
        justs: formulas,
        conclusion,
    }))
}

/// Both formulas, joined by what the action says.
pub(crate) fn joined(
    alloc: Global,
    action: Action,
    left: Formula,
    right: Formula,
) -> Result<Formula, Memory>
    requires { IsJoining action }
    ensures { IfOk result (λ f. said.joined action (formula_of right ∷ formula_of left ∷ [])
        ≡ formula_of f ∷ []) }
{
    let left = Box::new(alloc, left)?;
    let right = Box::new(alloc, right)?;
    Ok(match action {
        Action::ToAnd => Formula::And(left, right),
        Action::ToOr => Formula::Or(left, right),
        Action::ToImplies => Formula::Implies(left, right),
        _ => Formula::Iff(left, right),
    })
}

/// Adds an item: the last formula, the default that the formulas make, or the program rule.
pub(crate) fn add_item(kb: &mut Kb, formulas: Vec<Formula>, rule: ProgRule) -> Result<(), Memory>
    ensures { IfOk result (λ _. seen.kb_of kb.new
        ≡ said.more_kb (operands_of formulas.items) (rule_of rule) (seen.kb_of kb.old)) }
{
    let mut formulas = formulas;
    match kb {
        Kb::Classical(all) => {
            if let Some(formula) = formulas.pop() {
                all.push(formula)?;
            }
        }
        Kb::DefaultTheory(items) => {
            if let Some(item) = item(formulas) {
                items.push(item)?;
            }
        }
        Kb::Program(rules) => rules.push(rule)?,
    }
    Ok(())
}
