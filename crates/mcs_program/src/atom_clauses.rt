//! Clauses over the variables of atoms alone: those of rules, and those that a view is another one.

ghost use Rattle.std.specs.Prelude.{◌≡◌, ◌<◌, ◌≤◌, ◌^◌, [], ◌∷◌, ◌++◌, length, map, IfOk, OnOk};
ghost use Rattle.std.specs.Prelude.{IsTrue};
ghost use Rattle.mcs_system.specs.Logic.{is_in};
ghost use Rattle.mcs_system.specs.Plain as plain;
ghost use Rattle.mcs_system.specs.Seen.{rule_of};
ghost use Rattle.mcs_cnf.specs.ClauseLists.{atom_number};
ghost use Rattle.mcs_evidence.specs.Programs.{rule_formula, other_formula, IsOverRule};
ghost use Rattle.mcs_evidence.specs.Pushing.{AreNamesOf};
ghost use Rattle.mcs_program.specs.Asked.{program_names, program_rules, program_beliefs};
ghost use Rattle.mcs_program.specs.Asked.{belief_names};
ghost use Rattle.mcs_meant.specs.Meanings.{AddsFormula, AreMeantBy};
ghost use Rattle.mcs_program.specs.Clauses.{literal_of, literals_of_names, rule_literals};
ghost use Rattle.mcs_program.specs.Clauses.{other_literals};
ghost use Rattle.mcs_program.specs.Splitting.{value_formula};

use mcs_base::{Memory, Vars};
use mcs_cnf::{atom_number, push_clause};
use mcs_minimal::LogicProgram;
use mcs_sat::ClauseBase;
use mcs_system::{Name, ProgRule};
use mcs_trace::Cnf;
use std::alloc::Global;

/// The literal that the variable is true, or, if `sign` is false, that it is false.
fn literal(sign: bool, variable: u64) -> i64
    requires { variable < 2 ^ 63 }
    ensures { result ≡ literal_of sign variable }
{
    if sign {
        variable as i64
    } else {
        -(variable as i64)
    }
}

/// Appends for each of the names the literal that it is true, or, if `sign` is false, that it is
/// false.
fn add_literals(
    literals: &mut Vec<i64>,
    program: &LogicProgram<'_>,
    sign: bool,
    names: &[Name],
) -> Result<(), Memory>
    requires { AreNamesOf (program_names program.now) names.now }
    ensures { IfOk result (λ _. literals.new.items
        ≡ literals.old.items ++ literals_of_names (program_names program.now) sign names.now) }
{
    for name in names {
        literals.push(literal(sign, atom_number(program.atoms, name)))?;
    }
    Ok(())
}

/// The literals of the rule as a clause: a positive body atom is false, or a negative one or a head
/// atom is true.
fn rule_literals(
    alloc: Global,
    program: &LogicProgram<'_>,
    rule: &ProgRule,
) -> Result<Vec<i64>, Memory>
    requires { IsOverRule (program_names program.now) (rule_of rule.now) }
    ensures { IfOk result (λ literals. literals.items
        ≡ rule_literals (program_names program.now) (rule_of rule.now)) }
{
    let mut literals = Vec::new(alloc);
    add_literals(&mut literals, program, false, &rule.pos)?;
    add_literals(&mut literals, program, true, &rule.neg)?;
    add_literals(&mut literals, program, true, &rule.head)?;
    Ok(literals)
}

/// Adds the clause of the rule.
fn push_rule(
    alloc: Global,
    cnf: &mut Cnf,
    program: &LogicProgram<'_>,
    rule: &ProgRule,
) -> Result<(), Memory>
    requires over { IsOverRule (program_names program.now) (rule_of rule.now) }
    requires room { length (program_names program.now) ≤ cnf.old.vars }
    ensures { IfOk result (λ _. AddsFormula (program_names program.now)
        (rule_formula (rule_of rule.now)) cnf.old cnf.new) }
{
    let literals = rule_literals(alloc, program, rule)?;
    push_clause(alloc, cnf, &literals)
}

/// The clauses of the rules.
pub(crate) fn clauses_of_rules(alloc: Global, program: &LogicProgram<'_>) -> Result<Cnf, Memory>
    ensures { IfOk result (AreMeantBy (program_names program.now)
        (map rule_formula (program_rules program.now))) }
{
    let rules = program.rules;
    let mut cnf = Cnf::new(alloc, program.atoms.len() as u64);
    for rule in rules {
        push_rule(alloc, &mut cnf, program, rule)?;
    }
    Ok(cnf)
}

/// The literals of the clause that the view of the beliefs is another one.
fn other_literals(alloc: Global, program: &LogicProgram<'_>, view: Vars) -> Result<Vec<i64>, Memory>
    ensures { IfOk result (λ literals. literals.items
        ≡ other_literals (program_names program.now) 0 (belief_names program.now) view) }
{
    let beliefs = program.beliefs;
    let mut literals = Vec::new(alloc);
    for (k, belief) in beliefs.iter().enumerate() {
        literals.push(literal(!view.has(k as u32), atom_number(program.atoms, belief)))?;
    }
    Ok(literals)
}

/// Adds the clauses of the list, which may be over more variables. The list is dropped.
pub(crate) fn add_to(known: &mut ClauseBase, more: Cnf) -> Result<(), Memory>
    requires { known.old.vars ≤ more.vars }
    ensures { IfOk result (λ _. known.new
        ≡ record { vars = more.vars; clauses = known.old.clauses ++ more.clauses }) }
{
    let added = known.append(&more);
    drop(more);
    added
}

/// Adds the clause that the view of the beliefs is another one.
pub(crate) fn push_other(
    alloc: Global,
    known: &mut ClauseBase,
    program: &LogicProgram<'_>,
    view: Vars,
) -> Result<(), Memory>
    requires { length (program_names program.now) ≤ known.old.vars }
    ensures { IfOk result (λ _. AddsFormula (program_names program.now)
        (other_formula (program_beliefs program.now) view) known.old known.new) }
{
    let literals = other_literals(alloc, program, view)?;
    let mut more = Cnf::new(alloc, known.vars());
    push_clause(alloc, &mut more, &literals)?;
    add_to(known, more)
}

/// Adds the clause that the belief has this value.
pub(crate) fn push_value(
    known: &mut ClauseBase,
    program: &LogicProgram<'_>,
    belief: &Name,
    value: bool,
) -> Result<(), Memory>
    requires over { IsTrue (is_in belief.now (program_names program.now)) }
    requires room { length (program_names program.now) ≤ known.old.vars }
    ensures clause { OnOk result (known.new ≡ record known.old {
      clauses = known.old.clauses
          ++ (literal_of value (atom_number (program_names program.now) belief.now) ∷ []) ∷ [];
    }) }
    ensures adds { OnOk result (AddsFormula (program_names program.now)
        (value_formula (plain.Atom belief.now) value) known.old known.new) }
{
    known.add(&[literal(value, atom_number(program.atoms, belief))])
}
