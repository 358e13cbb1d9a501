//! The formulas with which a context is asked, and their clauses.

ghost use Rattle.std.specs.Prelude.{◌≡◌, ◌++◌, map, IfOk};
ghost use Rattle.mcs_system.specs.Seen.{formula_of};
ghost use Rattle.mcs_cnf.specs.ClauseLists.{clause_list, AreOver};

use mcs_asked::Asked;
use mcs_base::Memory;
use mcs_cnf::push_all;
use mcs_system::Formula;
use mcs_trace::Cnf;
use std::alloc::Global;

/// The clauses of the formulas.
pub fn clauses_of(alloc: Global, asked: &Asked<'_>, formulas: &[&Formula]) -> Result<Cnf, Memory>
    requires { AreOver asked.now.atoms.now (map (λ f. formula_of f.now) formulas.now) }
    ensures { IfOk result (λ known. known
        ≡ clause_list asked.now.atoms.now (map (λ f. formula_of f.now) formulas.now)) }
{
    let mut known = Cnf::new(alloc, asked.atoms.len() as u64);
    push_all(alloc, &mut known, formulas, asked.atoms)?;
    Ok(known)
}

/// The formulas of a classical knowledge base, followed by those that are added.
pub fn formulas_with<'f>(
    alloc: Global,
    formulas: &'f [Formula],
    added: &[&'f Formula],
) -> Result<Vec<&'f Formula>, Memory>
    ensures { IfOk result (λ all. map (λ f. formula_of f.now) all.items
        ≡ map formula_of formulas.now ++ map (λ f. formula_of f.now) added.now) }
{
    let mut all = lend(alloc, formulas)?;
    all.extend_from_slice(added)?;
    Ok(all)
}

/// References to the formulas.
pub fn lend(alloc: Global, formulas: &[Formula]) -> Result<Vec<&Formula>, Memory>
    ensures { IfOk result (λ all. map (λ f. formula_of f.now) all.items
        ≡ map formula_of formulas.now) }
{
    let mut all = Vec::new(alloc);
    for formula in formulas {
        all.push(formula)?;
    }
    Ok(all)
}
