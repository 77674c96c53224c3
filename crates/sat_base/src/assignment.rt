//! Assignments.

ghost use Rattle.std.specs.Prelude.{◌≡◌, ◌≢◌, ℕ, ◌≤◌, ◌↔◌, IsTrue, false, length, replicate, IfOk};
ghost use Rattle.sat_base.specs.Clauses.{EachVariable, NameOnly};
ghost use Rattle.sat_base.specs.Truth.{is_true, Satisfies, SatisfiesClause};
ghost use Rattle.sat_base.specs.Valuation.{valuation_of};

use crate::formula::Formula;
use crate::lit::Lit;
use qc_base::NoMemory;
use std::alloc::Global;
use std::marker::Model;

/// A truth value for each variable from 1 to their number. Contracts see the list of the values.
#[derive(Debug, Drop)]
pub struct Assignment {
    values: Vec<bool>,
}

impl Model for Assignment {
    ghost use Rattle.std.specs.Prelude.{List, Bool};

    ghost Value = { List Bool };

    ghost view = { λ a. a.values.items };
}

impl Assignment {
    /// So many variables, all false.
    pub fn new(alloc: Global, vars: u32) -> Result<Assignment, NoMemory>
        ensures { IfOk result (λ assignment. assignment ≡ replicate vars false) }
    {
        let values = vec![in alloc; false; vars as usize]?;
        Ok(Assignment { values })
    }

    /// Gives a variable a value.
    pub fn set(&mut self, var: u32, value: bool)
        requires from_1 { 1 ≤ var }
        requires within { var ≤ length self.old }
        ensures vars { length self.new ≡ length self.old }
        ensures value { valuation_of self.new var ≡ value }
        ensures others { (other : ℕ) → other ≢ var → valuation_of self.new other ≡ valuation_of self.old other }
    {
        self.values[var as usize - 1] = value;
    }

    /// The value of a variable.
    pub fn value(&self, var: u32) -> bool
        requires from_1 { 1 ≤ var }
        requires within { var ≤ length self.now }
        ensures { result ≡ valuation_of self.now var }
    {
        self.values[var as usize - 1]
    }

    // Whether a literal is true.
    fn is_true(&self, lit: Lit) -> bool
        requires { lit.var ≤ length self.now }
        ensures { result ≡ is_true (valuation_of self.now) lit }
    {
        self.value(lit.var()) == lit.positive()
    }

    // Whether some literal of a clause is true.
    fn satisfies_clause(&self, clause: &[Lit]) -> bool
        requires { EachVariable (λ var. var ≤ length self.now) clause.now }
        ensures { IsTrue result ↔ SatisfiesClause (valuation_of self.now) clause.now }
    {
        for &lit in clause {
            if self.is_true(lit) {
                return true;
            }
        }
        false
    }

    /// Whether each clause has a true literal.
    pub fn satisfies(&self, formula: &Formula) -> bool
        requires { NameOnly (λ var. var ≤ length self.now) formula.now }
        ensures { IsTrue result ↔ Satisfies (valuation_of self.now) formula.now }
    {
        for k in 0..formula.len() {
            if !self.satisfies_clause(formula.clause(k + 1)) {
                return false;
            }
        }
        true
    }
}
