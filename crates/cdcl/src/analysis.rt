//! The analysis of conflicts.

ghost use Rattle.std.specs.Prelude.{◌≡◌, ◌≢◌, ◌<◌, ◌≤◌, ◌↔◌, IsTrue, List, [], ◌∷◌, ◌++◌, Some, None, length, map, take, OnOk, IfSome, IfNone, IfOk, ℕ, max};
ghost use Rattle.sat_base.specs.Literal.{Literal, negated};
ghost use Rattle.sat_base.specs.Clauses.{Has, SameLiterals, NameOnly};
ghost use Rattle.sat_base.specs.Resolution.{IsJoined, ResolveTo};
ghost use Rattle.derivation_log.specs.Log.{chain_of, clause_of, IsLine};
ghost use Rattle.cdcl.specs.Clauses.{clauses_in};
ghost use Rattle.solver_trail.specs.Trail.{literals_of, IsFalse, AreForced, IsFalseAt};
ghost use Rattle.cdcl.specs.Solver.{IsSound};
ghost use Rattle.cdcl.specs.Learning.{Chained, IsResolved, IsVisited, IsReduced, IsTarget, IsResolvent};
ghost use Rattle.cdcl.specs.Watching.{IsPairOf, WatchesTarget};
ghost use Rattle.cdcl.specs.Learning.{HasNoTrue, HasAnotherAt, HasAnother, CanResolve, IsKept, IsAsserting};

use crate::watching::Pair;
use derivation_log::{LineId, Log};
use qc_base::NoMemory;
use sat_base::{Lit, LitSet};
use solver_trail::{Assigned, Values};
use std::alloc::Global;
use std::marker::Model;

/// A clause that is resolved from a false line to the one that is learnt, and the lines that gave it so far.
#[derive(Debug, Drop)]
pub(crate) struct Analysis {
    clause: LitSet,
    chain: Vec<LineId>,
}

impl Model for Analysis {
    ghost use Rattle.cdcl.specs.Learning.{Chained};

    ghost Value = { Chained };

    ghost view = { λ a. record { clause = a.clause; chain = a.chain.items } };
}

// Whether another literal of the clause is false at that level.
fn has_another(values: &Values, clause: &[Lit], literal: Lit, level: u32) -> bool
    requires { (other : Literal) → Has clause.now other → other.var ≤ values.now.vars }
    ensures { IsTrue result ↔ HasAnotherAt values.now.entries level clause.now literal }
{
    for &other in clause {
        if values.is_false_at(other, level) {
            if other != literal {
                return true;
            }
        }
    }
    false
}

// A literal of the clause, other than that one, that is false at that level.
fn other_at(values: &Values, clause: &[Lit], literal: Lit, level: u32) -> Option<Lit>
    requires { IsFalse (literals_of values.now.entries) clause.now }
    ensures some { IfSome result (λ other. Has clause.now other × (other ≢ literal)
        × IsFalseAt values.now.entries level other) }
    ensures none { IfNone result ((other : Literal) → Has clause.now other → other ≢ literal
        → IsFalseAt values.now.entries level other → ⊥) }
{
    for &other in clause {
        if values.level_of(other) == level {
            if other != literal {
                return Some(other);
            }
        }
    }
    None
}

// The larger of two numbers.
fn larger(a: u32, b: u32) -> u32
    ensures { result ≡ max a b }
{
    if a < b { b } else { a }
}

// The one literal of the current level, and the highest level of the others.
fn target_of(values: &Values, clause: &[Lit]) -> (Lit, u32)
    requires level { 1 ≤ values.now.level }
    requires asserting { (literal : Literal) ×
        IsAsserting values.now.entries values.now.level clause.now literal }
    requires falsified { IsFalse (literals_of values.now.entries) clause.now }
    ensures { IsTarget values.now.entries values.now.level clause.now result.0 result.1 }
{
    let _order = values.entries();
    let mut asserted = clause[0];
    let mut target = 0;
    for &literal in clause {
        let level = values.level_of(literal);
        if level == values.level() {
            asserted = literal;
        } else {
            target = larger(target, level);
        }
    }
    (asserted, target)
}

impl Analysis {
    /// No clause.
    pub(crate) fn new(alloc: Global) -> Analysis {
        Analysis {
            clause: LitSet::new(alloc),
            chain: Vec::new(alloc),
        }
    }

    /// The lines that the clause comes from, in the order of resolution.
    pub(crate) fn chain(&self) -> &[LineId]
        ensures { result.now ≡ self.now.chain }
    {
        &self.chain
    }

    /// Begins with the clause of a line.
    pub(crate) fn start(&mut self, log: &Log, line: LineId) -> Result<(), NoMemory>
        requires { IsLine log.now line }
        ensures clause { OnOk result (SameLiterals self.new.clause (clause_of log.now line)) }
        ensures chain { OnOk result (self.new.chain ≡ line ∷ []) }
    {
        self.clause.clear();
        self.chain.clear();
        self.clause.add_all(log.clause(line))?;
        self.chain.push(line)?;
        Ok(())
    }

    // Resolves with the line that forced a literal.
    fn resolve(&mut self, log: &Log, literal: Lit, reason: LineId) -> Result<(), NoMemory>
        requires { IsLine log.now reason }
        ensures clause { OnOk result (IsJoined self.old.clause (clause_of log.now reason) literal self.new.clause) }
        ensures chain { OnOk result (self.new.chain ≡ self.old.chain ++ reason ∷ []) }
    {
        self.clause.remove(literal.negated());
        self.clause.add_others(log.clause(reason), literal)?;
        self.chain.push(reason)?;
        Ok(())
    }

    // Whether the line's other literals are in the clause already, or false at level 0: then the line takes
    // a literal out and adds none.
    fn adds_nothing(&self, log: &Log, values: &Values, literal: Lit, line: LineId) -> bool
        requires line { IsLine log.now line }
        requires named { NameOnly (λ var. var ≤ values.now.vars) (clauses_in log.now) }
    {
        for &other in log.clause(line) {
            if other != literal && !self.clause.has(other) && !values.is_false_at(other, 0) {
                return false;
            }
        }
        true
    }

    // The line to resolve with, where a literal of the clause is false by this entry and is not kept.
    fn resolving_line(&self, log: &Log, values: &Values, entry: Assigned) -> Option<LineId>
        requires named { NameOnly (λ var. var ≤ values.now.vars) (clauses_in log.now) }
        requires literals { (literal : Literal) → Has self.now.clause literal → literal.var ≤ values.now.vars }
        requires reason { IfSome entry.reason (IsLine log.now) }
        ensures some { IfSome result (CanResolve values.now self.now.clause entry) }
        ensures none { IfNone result (Has self.now.clause (negated entry.literal)
            → IsKept values.now self.now.clause entry) }
    {
        let line = entry.reason?;
        let negation = entry.literal.negated();
        if !self.clause.has(negation) {
            None
        } else if self.is_removable(log, values, entry, line) {
            Some(line)
        } else {
            None
        }
    }

    // Whether the literal that is false by this entry is taken out: at level 0; at the current level where another
    // literal of that level is left; and in between where the line adds nothing.
    fn is_removable(&self, log: &Log, values: &Values, entry: Assigned, line: LineId) -> bool
        requires named { NameOnly (λ var. var ≤ values.now.vars) (clauses_in log.now) }
        requires literals { (literal : Literal) → Has self.now.clause literal → literal.var ≤ values.now.vars }
        requires line { IsLine log.now line }
        ensures base { entry.level ≡ 0 → IsTrue result }
        ensures current { 1 ≤ entry.level → entry.level ≡ values.now.level
            → IsTrue result ↔ HasAnother values.now self.now.clause entry }
    {
        if entry.level == 0 {
            true
        } else if entry.level == values.level() {
            has_another(
                values,
                self.clause.members(),
                entry.literal.negated(),
                entry.level,
            )
        } else {
            self.adds_nothing(log, values, entry.literal, line)
        }
    }

    // Takes out the literal that is false by this entry, where it is in the clause and is not kept.
    fn visit(&mut self, log: &Log, values: &Values, entry: Assigned) -> Result<(), NoMemory>
        requires named { NameOnly (λ var. var ≤ values.now.vars) (clauses_in log.now) }
        requires literals { (literal : Literal) → Has self.old.clause literal → literal.var ≤ values.now.vars }
        requires reason { IfSome entry.reason (IsLine log.now) }
        ensures { OnOk result (IsVisited log.now values.now entry self.old self.new) }
    {
        let literal = entry.literal;
        let Some(line) = self.resolving_line(log, values, entry) else {
            return Ok(());
        };
        self.resolve(log, literal, line)
    }

    /// Walks back over the first entries of the trail, and resolves with the lines that forced them: at the
    /// current level until one literal of it is left, at level 0 always, and in between where that makes the clause
    /// smaller.
    pub(crate) fn reduce(&mut self, log: &Log, values: &Values, end: usize) -> Result<(), NoMemory>
        requires named { NameOnly (λ var. var ≤ values.now.vars) (clauses_in log.now) }
        requires forced { AreForced log.now [] values.now.entries }
        requires end { end ≤ length values.now.entries }
        requires resolved { IsResolved log.now (literals_of (take end values.now.entries)) self.old }
        requires none_true { HasNoTrue (literals_of (take end values.now.entries)) self.old.clause }
        requires literals { (literal : Literal) → Has self.old.clause literal → literal.var ≤ values.now.vars }
        ensures { OnOk result
            (IsReduced log.now values.now (take end values.now.entries) self.old.clause self.new) }
    {
        for index in (0..end).rev() {
            self.visit(log, values, values.entries()[index])?;
        }
        Ok(())
    }

    // The one literal of the current level, and the highest level of the others.
    fn target(&self, values: &Values) -> (Lit, u32)
        requires level { 1 ≤ values.now.level }
        requires asserting { (literal : Literal) ×
            IsAsserting values.now.entries values.now.level self.now.clause literal }
        requires falsified { IsFalse (literals_of values.now.entries) self.now.clause }
        ensures { IsTarget values.now.entries values.now.level self.now.clause result.0 result.1 }
    {
        target_of(values, self.clause.members())
    }

    /// The literal to assert and one of the level to go back to; none where the clause has no other.
    pub(crate) fn pair(&self, values: &Values, asserted: Lit, target: u32) -> Option<Pair>
        requires target { IsTarget values.now.entries values.now.level self.now.clause asserted target }
        requires falsified { IsFalse (literals_of values.now.entries) self.now.clause }
        ensures pair { IsPairOf self.now.clause result }
        ensures watches { WatchesTarget values.now.entries target asserted result }
    {
        let second = other_at(values, self.clause.members(), asserted, target)?;
        Some(Pair {
            first: asserted,
            second,
        })
    }

    /// Resolves a false line to a clause with one literal of the current level, and answers that literal and the
    /// level to go back to.
    pub(crate) fn conflict(
        &mut self,
        log: &Log,
        values: &Values,
        falsified: LineId,
    ) -> Result<(Lit, u32), NoMemory>
        requires sound { IsSound log.now values.now }
        requires level { 1 ≤ values.now.level }
        requires is_line { IsLine log.now falsified }
        requires falsified { IsFalse (literals_of values.now.entries) (clause_of log.now falsified) }
        ensures resolvent { OnOk result (IsResolvent log.now values.now.entries self.new) }
        ensures target { IfOk result (λ found.
            IsTarget values.now.entries values.now.level self.new.clause found.0 found.1) }
    {
        let end = values.entries().len();
        self.start(log, falsified)?;
        self.reduce(log, values, end)?;
        Ok(self.target(values))
    }
}
