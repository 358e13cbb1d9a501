//! Lists of clauses, in conjunctive normal form.

ghost use Rattle.std.specs.Prelude.{◌≡◌, ◌+◌, ◌<◌, ◌≤◌, ◌^◌, ◌++◌, [], ◌∷◌, ◌↔◌, IsTrue, take};
ghost use Rattle.std.specs.List.{AllByRecursion};
ghost use Rattle.std.specs.Result.{OnOk, OnErr};
ghost use Rattle.mcs_trace.specs.Clauses.{IsWithin, IsClauseList};

use crate::clause::Clause;
use mcs_base::Memory;
use std::alloc::Global;
use std::marker::Model;

/// A list of clauses over the variables 1 to `vars`. The clauses are numbered from 1 in their
/// order.
pub struct Cnf {
    vars: u64,
    clauses: Vec<Clause>,
}

impl Drop for Cnf {
    fn drop(self) {
        let Cnf {
            vars: _,
            clauses: _,
        } = self;
    }
}

impl Model for Cnf {
    ghost use Rattle.mcs_trace.specs.Clauses.{ClauseList, IsClauseList};

    ghost Value = { ClauseList };

    ghost view = { λ f. record { vars = f.vars; clauses = f.clauses.items } };

    ghost invariant = { λ f. IsClauseList (record { vars = f.vars; clauses = f.clauses.items }) };
}

impl Cnf {
    /// The list without clauses, over the variables 1 to `vars`.
    pub fn new(alloc: Global, vars: u64) -> Cnf
        requires { vars < 2 ^ 63 }
        ensures { result ≡ record { vars = vars; clauses = [] } }
    {
        Cnf {
            vars,
            clauses: Vec::new(alloc),
        }
    }

    /// The number of variables.
    pub fn vars(&self) -> u64
        ensures value { result ≡ self.now.vars }
        ensures kept { IsClauseList self.now }
    {
        self.vars
    }

    /// The clauses, in order.
    pub fn clauses(&self) -> &[Clause]
        ensures value { result.now ≡ self.now.clauses }
        ensures kept { IsClauseList self.now }
    {
        &self.clauses
    }

    /// Whether the variable of each literal is one of the list's, as `push` requires.
    pub fn can_push(&self, clause: &Clause) -> bool
        ensures { IsTrue result ↔ IsWithin self.now.vars clause.now }
    {
        clause
            .literals()
            .iter()
            .all(|literal| literal.unsigned_abs() <= self.vars)
    }

    /// Appends a clause. If memory runs out, the list is as before.
    pub fn push(&mut self, clause: Clause) -> Result<(), Memory>
        requires { IsWithin self.old.vars clause }
        ensures ok { OnOk result (self.new
            ≡ record self.old { clauses = self.old.clauses ++ clause ∷ [] }) }
        ensures err { OnErr result (self.new ≡ self.old) }
    {
        // The contract of `literals` ensures that it is a clause, as the invariant of the list
        // requires.
        let _ = clause.literals();
        self.clauses.push(clause)?;
        Ok(())
    }

    /// Appends the clauses of another list, which has the same variables or more. If memory runs
    /// out, the list is as before.
    pub fn append(&mut self, mut other: Cnf) -> Result<(), Memory>
        requires { self.old.vars ≤ other.vars }
        ensures ok { OnOk result (self.new
            ≡ record { vars = other.vars; clauses = self.old.clauses ++ other.clauses }) }
        ensures err { OnErr result (self.new ≡ self.old) }
    {
        self.clauses.append(&mut other.clauses)?;
        self.vars = other.vars;
        Ok(())
    }

    /// Adds a variable, which occurs in no clause yet. Returns its number, which is the next one.
    pub fn add_variable(&mut self) -> u64
        requires { self.old.vars + 1 < 2 ^ 63 }
        ensures number { result ≡ self.old.vars + 1 }
        ensures added { self.new ≡ record self.old { vars = self.old.vars + 1 } }
    {
        self.vars += 1;
        self.vars
    }

    /// Keeps the first `count` clauses, over the variables 1 to `vars`. The variables of these
    /// clauses have to be among them.
    pub fn cut(&mut self, vars: u64, count: usize)
        requires fewer { vars ≤ self.old.vars }
        requires within { AllByRecursion (IsWithin vars) (take count self.old.clauses) }
        ensures { self.new ≡ record { vars = vars; clauses = take count self.old.clauses } }
    {
        self.vars = vars;
        self.clauses.truncate(count);
    }
}
