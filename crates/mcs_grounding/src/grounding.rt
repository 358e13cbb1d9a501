//! Whether the prerequisites of the defaults of a set follow one after the other.

ghost use Rattle.std.specs.Prelude.{◌≡◌, ◌≤◌, ◌++◌, ◌∷◌, [], List, length, IfOk, OnOk};
ghost use Rattle.mcs_sets.specs.Sets.{Within};
ghost use Rattle.mcs_system.specs.Plain as plain;
ghost use Rattle.mcs_grounding.specs.Asked.{theory_names, theory_defaults};
ghost use Rattle.mcs_grounding.specs.Theories.{AreClausesOf};
ghost use Rattle.mcs_cnf.specs.Growing.{HasMoreFormulas};
ghost use Rattle.mcs_evidence.specs.Theories.{all_of};
ghost use Rattle.mcs_grounding.specs.Told.{IsOrder, IsToldNext, IsNextInRange};
ghost use Rattle.mcs_grounding.specs.Told.{IsToldOfOrder};

use crate::asked::Theory;
use mcs_base::{Memory, Vars};
use mcs_classical::{Given, entails_from, says_yes};
use mcs_cnf::push_formula;
use mcs_trace::{Cnf, Entail};
use std::alloc::Global;

/// What is told of the prerequisites of the defaults that are left.
#[derive(Drop)]
enum Next {
    /// That of the default at this index follows.
    Supported(u32, Entail),
    /// None follows.
    Stuck(Vec<Entail>),
}

/// What is told of the prerequisites of the defaults of a set.
#[derive(Drop)]
pub enum Grounding {
    /// They follow one after the other, in this order of the defaults' numbers.
    Grounded(Vec<u32>, Vec<Entail>),
    /// By the defaults of the part of the set that has this number none of the others follows.
    Stuck(u32, Vec<Entail>),
}

/// Defaults one after the other, by their numbers, and what shows of each that its prerequisite
/// follows.
#[derive(Drop)]
struct Order {
    numbers: Vec<u32>,
    pres: Vec<Entail>,
}

impl Order {
    fn none(alloc: Global) -> Order
        ensures { IsOrder [] [] result }
    {
        Order {
            numbers: Vec::new(alloc),
            pres: Vec::new(alloc),
        }
    }

    fn push(&mut self, number: u32, pre: Entail) -> Result<(), Memory>
        ensures { OnOk result (IsOrder (self.old.numbers.items ++ number ∷ [])
            (self.old.pres.items ++ pre ∷ []) self.new) }
    {
        self.pres.push(pre)?;
        self.numbers.push(number)?;
        Ok(())
    }
}

/// Asks of each default that is left whether its prerequisite follows, up to the first of which it
/// does.
fn ask_next(alloc: Global, known: &mut Cnf, theory: &Theory<'_>, left: Vars) -> Result<Next, Memory>
    requires room { length (theory_names theory.now) ≤ known.old.vars }
    ensures kept { known.new ≡ known.old }
    ensures told { IfOk result (λ told. (fs : List plain.Formula)
        → AreClausesOf (theory_names theory.now) fs known.old
        → IsToldNext (theory_names theory.now) fs (theory_defaults theory.now) left told) }
    ensures in_range { IfOk result (IsNextInRange (length theory.now.defaults.now) left) }
{
    let defaults = theory.defaults;
    let given = Given {
        asked: theory.asked,
        assumptions: &[],
    };
    let mut denied = Vec::new(alloc);
    for (index, default) in defaults.iter().enumerate() {
        if left.has(index as u32) {
            let pre = entails_from(alloc, known, &default.pre, &given)?;
            if says_yes(&pre) {
                return Ok(Next::Supported(index as u32, pre));
            }
            denied.push(pre)?;
        }
    }
    Ok(Next::Stuck(denied))
}

/// Asks for one default after the other, each by the facts and the consequents of those before it.
fn ask_order(
    alloc: Global,
    known: &mut Cnf,
    theory: &Theory<'_>,
    set: Vars,
) -> Result<Grounding, Memory>
    requires room { length (theory_names theory.now) ≤ known.old.vars }
    requires set { Within set (all_of (theory_defaults theory.now)) }
    ensures grown { OnOk result (HasMoreFormulas (theory_names theory.now) known.old known.new) }
    ensures told { IfOk result (λ told. (fs : List plain.Formula)
        → AreClausesOf (theory_names theory.now) fs known.old
        → IsToldOfOrder (theory_names theory.now) fs (theory_defaults theory.now) set told) }
{
    let defaults = theory.defaults;
    let mut left = set;
    let mut order = Order::none(alloc);
    while left.count() > 0 {
        match ask_next(alloc, known, theory, left)? {
            Next::Supported(index, pre) => {
                order.push(index + 1, pre)?;
                push_formula(
                    alloc,
                    known,
                    theory.asked.atoms,
                    &defaults[index as usize].conclusion,
                )?;
                left = left.without(index);
            }
            Next::Stuck(denied) => {
                let closed = set.minus(left).number() as u32;
                return Ok(Grounding::Stuck(closed, denied));
            }
        }
    }
    let Order { numbers, pres } = order;
    Ok(Grounding::Grounded(numbers, pres))
}

/// The same by the facts, whose clauses are `known`.
pub fn tell_order(
    alloc: Global,
    known: &mut Cnf,
    theory: &Theory<'_>,
    set: Vars,
) -> Result<Grounding, Memory>
    requires room { length (theory_names theory.now) ≤ known.old.vars }
    requires set { Within set (all_of (theory_defaults theory.now)) }
    ensures kept { OnOk result (known.new ≡ known.old) }
    ensures told { IfOk result (λ told. (fs : List plain.Formula)
        → AreClausesOf (theory_names theory.now) fs known.old
        → IsToldOfOrder (theory_names theory.now) fs (theory_defaults theory.now) set told) }
{
    let vars = known.vars();
    let count = known.clauses().len();
    let told = ask_order(alloc, known, theory, set)?;
    known.cut(vars, count);
    Ok(told)
}
