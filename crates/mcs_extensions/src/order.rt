//! The order in which the defaults of a set apply.

ghost use Rattle.std.specs.Prelude.{◌≡◌, ◌≤◌, ◌↔◌, map, IsTrue, IfOk, OnOk, MatchOption, None};
ghost use Rattle.std.specs.Prelude.{Some};
ghost use Rattle.mcs_system.specs.Seen.{default_of};
ghost use Rattle.mcs_cnf.specs.ClauseLists.{clause_list};
ghost use Rattle.mcs_cnf.specs.Entailments.{entailment_of};
ghost use Rattle.mcs_evidence.specs.Defaults.{facts_of, AreGrounded};
ghost use Rattle.mcs_asked.specs.Questions.{theory_names, theory_items};
ghost use Rattle.mcs_extensions.specs.Checks.{at_number, IsNumberIn, AreNumbersOf};
ghost use Rattle.mcs_cnf.specs.Growing.{HasMoreFormulas};

use mcs_asked::AskedTheory;
use mcs_base::{Memory, Vars};
use mcs_cnf::push_formula;
use mcs_entailment::shows;
use mcs_system::Default;
use mcs_trace::{Cnf, Entail};
use std::alloc::Global;

/// Whether the number, counted from 1, is that of a member of the set.
pub fn is_member(set: Vars, number: u32) -> bool
    ensures exact { IsTrue result ↔ IsNumberIn set number }
    ensures low { IsTrue result → number ≤ 64 }
{
    // The contract of `count` ensures that the members are below 64.
    let _ = set.count();
    if number == 0 {
        return false;
    }
    if number > 64 {
        return false;
    }
    set.has(number - 1)
}

/// Whether these are the numbers of the members, each once, in any order.
pub(crate) fn are_numbers(set: Vars, numbers: &[u32]) -> bool
    ensures { IsTrue result ↔ AreNumbersOf set numbers.now }
{
    let mut left = set;
    for number in numbers {
        if !is_member(left, *number) {
            return false;
        }
        left = left.without(*number - 1);
    }
    left == Vars::empty()
}

/// The default with this number, counted from 1.
pub(crate) fn numbered_default<'f>(defaults: &[&'f Default], number: u32) -> Option<&'f Default>
    ensures { MatchOption result (at_number (map (λ d. default_of d.now) defaults.now) number
        ≡ None)
        (λ d. at_number (map (λ d. default_of d.now) defaults.now) number
        ≡ Some (default_of d.now)) }
{
    if number == 0 || (number - 1) as usize >= defaults.len() {
        return None;
    }
    Some(defaults[(number - 1) as usize])
}

/// Whether it is shown that the prerequisites of the defaults with these numbers follow one after
/// the other, each by means of the consequents before it. The clauses of the consequents are added
/// to `known`, which has those of the facts.
fn derives(
    alloc: Global,
    known: &mut Cnf,
    theory: &AskedTheory<'_>,
    order: &[u32],
    pres: &[Entail],
) -> Result<bool, Memory>
    requires { known.old
        ≡ clause_list (theory_names theory.now) (facts_of (theory_items theory.now)) }
    ensures grown { OnOk result (HasMoreFormulas (theory_names theory.now) known.old known.new) }
    ensures exact { IfOk result (λ yes. IsTrue yes
        ↔ AreGrounded (theory_names theory.now) (theory_items theory.now)
        (facts_of (theory_items theory.now)) order.now (map entailment_of pres.now)) }
{
    if order.len() != pres.len() {
        return Ok(false);
    }
    let atoms = theory.asked.atoms;
    for (index, number) in order.iter().enumerate() {
        let pre = &pres[index];
        let Some(default) = numbered_default(theory.defaults, *number) else {
            return Ok(false);
        };
        let shown = shows(alloc, known, &default.pre, atoms, pre)?;
        if !shown {
            return Ok(false);
        }
        push_formula(alloc, known, atoms, &default.conclusion)?;
    }
    Ok(true)
}

/// The same, but the clauses that are added are removed again.
pub(crate) fn are_grounded(
    alloc: Global,
    known: &mut Cnf,
    theory: &AskedTheory<'_>,
    order: &[u32],
    pres: &[Entail],
) -> Result<bool, Memory>
    requires { known.old
        ≡ clause_list (theory_names theory.now) (facts_of (theory_items theory.now)) }
    ensures kept { OnOk result (known.new ≡ known.old) }
    ensures exact { IfOk result (λ yes. IsTrue yes
        ↔ AreGrounded (theory_names theory.now) (theory_items theory.now)
        (facts_of (theory_items theory.now)) order.now (map entailment_of pres.now)) }
{
    let vars = known.vars();
    let count = known.clauses().len();
    let grounded = derives(alloc, known, theory, order, pres)?;
    known.cut(vars, count);
    Ok(grounded)
}
