//! The solver.

ghost use Rattle.std.specs.Prelude.{◌≡◌, ◌≢◌, ◌+◌, ◌<◌, ◌≤◌, ◌^◌, ◌↔◌, true, false, IsTrue, List, [], ◌∷◌, ◌++◌, Some, None, length, take, All, IfOk, OnOk, OnErr, IsErr, IfSome, IfNone};
ghost use Rattle.sat_base.specs.Literal.{Literal, negated};
ghost use Rattle.sat_base.specs.Clauses.{Has, HasDistinctVariables, EachVariable};
ghost use Rattle.sat_base.specs.Derivation.{Refutes, AnyRefutes};
ghost use Rattle.sat_base.specs.Fresh.{IsFreshOver};
ghost use Rattle.derivation_log.specs.Log.{Derived, log_of, clause_of, clauses_of, IsLine};
ghost use Rattle.cdcl.specs.Clauses.{clauses_in};
ghost use Rattle.solver_trail.specs.Trail.{literals_of, back_to, value_in, values_of, assigned, IsClosed, IsInOrder};
ghost use Rattle.cdcl.specs.Solver.{SolverState, empty_solver, with_trail, with_vars, with_clause, out_of_memory};
ghost use Rattle.cdcl.specs.Solver.{Propagates, IsFalsified, Learns, IsRefuting, IsModel, IsVerdict};
ghost use Rattle.cdcl.specs.Searching.{ChangesTrailOnly, IsAssumed, IsConflict, AddsLine, IsLearnt, IsRest, IsDenied};
ghost use Rattle.cdcl.specs.Searching.{IsChosen, IsDeepened, HasOneLeft};
ghost use Rattle.cdcl.specs.Watching.{IsPairOf};
ghost use Rattle.cdcl.specs.Learning.{HasNoTrue};

use crate::analysis::Analysis;
use crate::propagation::propagate_all;
use crate::restarts::Restarts;
use crate::verdict::Verdict;
use crate::watching::{Pair, Watching};
use derivation_log::{LineId, Log};
use qc_base::NoMemory;
use sat_base::Lit;
use solver_trail::{Pick, Values};
use std::alloc::Global;
use std::marker::Model;

/// Clauses, what was learnt from them, and a partial assignment. Contracts see the log, the trail, and whether
/// memory ran out; from then on each call that can run out of memory answers so.
#[derive(Drop)]
pub struct Solver<P: Pick> {
    log: Log,
    values: Values,
    watching: Watching,
    pick: P,
    analysis: Analysis,
    failed: bool,
}

impl<P: Pick> Model for Solver<P> {
    ghost use Rattle.cdcl.specs.Solver.{SolverState, IsSound};
    ghost use Rattle.cdcl.specs.Watching.{AreWatched, kept_of};

    ghost Value = { SolverState };

    ghost view = { λ s. record { log = s.log; trail = s.values; failed = s.failed } };

    ghost invariant = { λ s. IsSound s.log s.values × AreWatched s.log s.values (kept_of s.watching) };
}

/// Why the assignment can not be extended.
#[derive(Clone, Copy, Debug)]
pub(crate) enum Conflict {
    /// The line is false.
    Falsified(LineId),
    /// The assumption is false at level 0.
    Denied,
}

/// What a decision comes to.
#[derive(Clone, Copy, Debug)]
pub(crate) enum Choice {
    /// The assumption is false.
    Denied,
    /// All variables have values.
    Nothing,
    Decided(Lit),
}

/// What propagation and a decision come to.
#[derive(Clone, Copy, Debug)]
pub(crate) enum Deepened {
    Conflict(Conflict),
    Complete,
    Decided,
}

// The assumption where it is open, and else what the pick chooses.
fn choose<P: Pick>(values: &Values, pick: &mut P, assumption: Lit) -> Choice
    requires { assumption.var ≤ values.now.vars }
    ensures { IsChosen values.now assumption result }
{
    match values.truth(assumption) {
        Some(false) => Choice::Denied,
        None => Choice::Decided(assumption),
        Some(true) => match pick.pick(values) {
            Some(literal) => Choice::Decided(literal),
            None => Choice::Nothing,
        },
    }
}

// The first two literals of a clause; none where it has at most one.
fn first_pair(lits: &[Lit]) -> Option<Pair>
    requires { HasDistinctVariables lits.now }
    ensures { IsPairOf lits.now result }
{
    if lits.len() < 2 {
        return None;
    }
    Some(Pair {
        first: lits[0],
        second: lits[1],
    })
}

// Whether a clause has no literal other than the negated goal.
fn refutes(clause: &[Lit], goal: Lit) -> bool
    ensures { IsTrue result ↔ Refutes goal clause.now }
{
    for &literal in clause {
        if literal != goal.negated() {
            return false;
        }
    }
    true
}

// Hands the variables of a clause to the pick.
fn meet_clause<P: Pick>(pick: &mut P, clause: &[Lit]) {
    for literal in clause {
        pick.met(literal.var());
    }
}

// Hands the variables of the lines to the pick.
fn meet_lines<P: Pick>(pick: &mut P, log: &Log, lines: &[LineId])
    requires { All (IsLine log.now) lines.now }
{
    for &line in lines {
        meet_clause(pick, log.clause(line));
    }
}

// Variables count from 1: each literal that is read has such a variable.
fn count_from_1(lits: &[Lit])
    ensures { EachVariable (λ var. 1 ≤ var) lits.now }
{
    for lit in lits {
        let _var = lit.var();
    }
}

impl<P: Pick> Solver<P> {
    /// No variables and no clauses. It takes no memory.
    pub fn new(alloc: Global, pick: P) -> Solver<P>
        ensures { result ≡ empty_solver }
    {
        Solver {
            log: Log::new(alloc),
            values: Values::new(alloc),
            watching: Watching::new(alloc),
            pick,
            analysis: Analysis::new(alloc),
            failed: false,
        }
    }

    /// Adds so many variables, unassigned.
    pub fn add_vars(&mut self, n: u32) -> Result<(), NoMemory>
        requires { self.old.trail.vars + n < 2 ^ 31 }
        ensures ok { OnOk result (self.new ≡ with_vars n self.old) }
        ensures err { OnErr result (self.new ≡ out_of_memory self.old) }
        ensures failed { IsTrue self.old.failed → IsErr result }
    {
        if self.failed {
            return Err(NoMemory);
        }
        self.failed = true;
        self.pick.grow(n)?;
        self.watching.grow(self.values.vars() + n)?;
        self.values.add_vars(n)?;
        self.failed = false;
        Ok(())
    }

    /// Adds a clause, and goes back to level 0.
    pub fn add_clause(&mut self, lits: &[Lit]) -> Result<(), NoMemory>
        requires distinct { HasDistinctVariables lits.now }
        requires named { EachVariable (λ var. var ≤ self.old.trail.vars) lits.now }
        ensures ok { OnOk result (self.new ≡ with_clause lits.now self.old) }
        ensures err { OnErr result (self.new ≡ out_of_memory self.old) }
        ensures failed { IsTrue self.old.failed → IsErr result }
    {
        if self.failed {
            return Err(NoMemory);
        }
        self.failed = true;
        count_from_1(lits);
        let watched = first_pair(lits);
        self.watching.prepare(&watched)?;
        let line = self.log.axiom(lits)?;
        self.watching.commit(&watched, line);
        self.values.backjump(0);
        // The new clause may watch literals that are false already.
        self.watching.restart();
        self.failed = false;
        Ok(())
    }

    /// Looks for values that satisfy each clause and the assumption, by deriving lines, until the log has as many
    /// derived lines as the budget says. Each line is fresh over the clauses and lines before it, or refutes the
    /// assumption; after such a line none is derived. An `Err` leaves the lines that were derived.
    pub fn solve(&mut self, assumption: Lit, budget: u64) -> Result<Verdict, NoMemory>
        requires named { assumption.var ≤ self.old.trail.vars }
        requires budget { length self.old.log.derived ≤ budget }
        ensures verdict { IfOk result (IsVerdict self.new assumption budget) }
        ensures learns { Learns self.old.log self.new.log assumption }
        ensures budget { length self.new.log.derived ≤ budget }
        ensures vars { self.new.trail.vars ≡ self.old.trail.vars }
        ensures fails { OnErr result (self.new.failed ≡ true) }
        ensures works { OnOk result (self.new.failed ≡ false) }
        ensures failed { IsTrue self.old.failed → IsErr result }
    {
        if self.failed {
            return Err(NoMemory);
        }
        self.failed = true;
        let verdict = self.search(assumption, budget)?;
        self.failed = false;
        Ok(verdict)
    }

    /// The variable's value on the trail; false where it is unassigned. It takes no memory.
    pub fn value(&self, var: u32) -> bool
        requires from_1 { 1 ≤ var }
        requires within { var ≤ self.now.trail.vars }
        ensures { result ≡ values_of self.now.trail.entries var }
    {
        self.values.get(var).unwrap_or(false)
    }

    /// The log: the clauses, as axioms in the order in which they were added, and the derived lines.
    pub fn log(&self) -> &Log
        ensures { result.now ≡ self.now.log }
    {
        &self.log
    }

    /// Hands out the log as it is.
    pub fn into_log(self) -> Log
    where
        P: Drop,
        ensures { result ≡ self.log }
    {
        let Solver {
            log,
            values: _,
            watching: _,
            pick: _,
            analysis: _,
            failed: _,
        } = self;
        log
    }

    /// Adds to the trail, at the current level, the literals that clauses and lines force, until one of them is
    /// false, which it answers, or nothing is left to add. It takes no memory.
    pub fn propagate(&mut self) -> Option<LineId>
        ensures adds { Propagates self.old.log self.old.trail self.new.trail }
        ensures rest { self.new ≡ with_trail self.new.trail self.old }
        ensures order { IsInOrder self.new.trail }
        ensures falsified { IfSome result (λ line. IsFalsified self.new.log self.new.trail line) }
        ensures closed { IfNone result (IsClosed (literals_of self.new.trail.entries) (clauses_in self.new.log)) }
    {
        let falsified = propagate_all(&self.log, &mut self.values, &mut self.watching);
        let _order = self.values.entries();
        falsified
    }

    /// Goes back to that level: keeps exactly the literals of a level up to it. It takes no memory.
    pub fn backjump(&mut self, level: u32)
        requires { level ≤ self.old.trail.level }
        ensures keeps { self.new ≡ with_trail (back_to level self.old.trail) self.old }
        ensures order { IsInOrder self.new.trail }
    {
        let _before = self.values.entries();
        self.values.backjump(level);
        let order = self.values.entries();
        self.watching.cut(order.len());
    }

    /// How many links propagation looked at. It never falls. It takes no memory.
    pub fn visited(&self) -> u64 {
        self.watching.visited
    }

    // A derived line that refutes the goal.
    fn refuting(&self, goal: Lit) -> Option<LineId>
        ensures some { IfSome result (IsRefuting self.now.log goal) }
        ensures none { IfNone result (AnyRefutes goal (clauses_of self.now.log.derived) → ⊥) }
    {
        for index in 0..self.log.derived() {
            let line = LineId {
                derived: true,
                number: index + 1,
            };
            if refutes(self.log.clause(line), goal) {
                return Some(line);
            }
        }
        None
    }

    // Propagates, and decides the assumption, or else what the pick chooses.
    fn deepen(&mut self, assumption: Lit) -> Deepened
        requires named { assumption.var ≤ self.old.trail.vars }
        requires assumed { IsAssumed assumption self.old.trail }
        ensures trail_only { ChangesTrailOnly self.old self.new }
        ensures assumed { IsAssumed assumption self.new.trail }
        ensures comes { IsDeepened self.old self.new assumption result }
    {
        if let Some(line) = propagate_all(&self.log, &mut self.values, &mut self.watching) {
            return Deepened::Conflict(Conflict::Falsified(line));
        }
        let _order = self.values.entries();
        match choose(&self.values, &mut self.pick, assumption) {
            Choice::Denied => Deepened::Conflict(Conflict::Denied),
            Choice::Nothing => Deepened::Complete,
            Choice::Decided(literal) => {
                self.values.assign(literal, None);
                let _few = self.values.entries();
                Deepened::Decided
            }
        }
    }

    // Decides the assumption first, and then what the pick chooses, until there is a conflict or nothing is left.
    fn descend(&mut self, assumption: Lit) -> Option<Conflict>
        requires named { assumption.var ≤ self.old.trail.vars }
        requires assumed { IsAssumed assumption self.old.trail }
        ensures trail_only { ChangesTrailOnly self.old self.new }
        ensures assumed { IsAssumed assumption self.new.trail }
        ensures complete { IfNone result (IsModel self.new assumption) }
        ensures conflict { IfSome result (IsConflict self.new assumption) }
    {
        loop {
            match self.deepen(assumption) {
                Deepened::Conflict(conflict) => return Some(conflict),
                Deepened::Complete => return None,
                Deepened::Decided => {}
            }
        }
    }

    // Derives what is left of the line's clause, at level 0, without the literals that are false before this
    // place of the trail.
    fn refute(&mut self, line: LineId, end: usize) -> Result<LineId, NoMemory>
        requires level { self.old.trail.level ≡ 0 }
        requires end { end ≤ length self.old.trail.entries }
        requires is_line { IsLine self.old.log line }
        requires none_true { HasNoTrue (literals_of (take end self.old.trail.entries))
            (clause_of self.old.log line) }
        requires one { HasOneLeft (literals_of (take end self.old.trail.entries)) (clause_of self.old.log line) }
        ensures adds { IfOk result (AddsLine self.old.log self.new.log) }
        ensures left { IfOk result (λ new. IsRest (literals_of (take end self.old.trail.entries))
            (clause_of self.old.log line) (clause_of self.new.log new)) }
        ensures rest { self.new ≡ record self.old { log = self.new.log } }
        ensures err { OnErr result (self.new.log ≡ self.old.log) }
    {
        let _order = self.values.entries();
        self.analysis.start(&self.log, line)?;
        self.analysis.reduce(&self.log, &self.values, end)?;
        self.watching.prepare(&None)?;
        let new = self.log.derive(self.analysis.chain())?;
        self.watching.commit(&None, new);
        Ok(new)
    }

    // Derives the empty clause from a line that is false at level 0.
    fn contradict(&mut self, falsified: LineId) -> Result<LineId, NoMemory>
        requires level { self.old.trail.level ≡ 0 }
        requires falsified { IsFalsified self.old.log self.old.trail falsified }
        ensures adds { IfOk result (AddsLine self.old.log self.new.log) }
        ensures empty { IfOk result (λ line.
            (literal : Literal) → Has (clause_of self.new.log line) literal → ⊥) }
        ensures rest { self.new ≡ record self.old { log = self.new.log } }
        ensures err { OnErr result (self.new.log ≡ self.old.log) }
    {
        let end = self.values.entries().len();
        let line = self.refute(falsified, end)?;
        Ok(line)
    }

    // Derives the negation of an assumption that is false at level 0.
    fn deny(&mut self, assumption: Lit) -> Result<LineId, NoMemory>
        requires { IsDenied self.old.trail assumption }
        ensures adds { IfOk result (AddsLine self.old.log self.new.log) }
        ensures refutes { IfOk result (λ line. Refutes assumption (clause_of self.new.log line)) }
        ensures rest { self.new ≡ record self.old { log = self.new.log } }
        ensures err { OnErr result (self.new.log ≡ self.old.log) }
    {
        let negation = assumption.negated();
        let place = self.values.place(negation);
        let entries = self.values.entries();
        let reason = entries[place].reason.unwrap();
        let line = self.refute(reason, place)?;
        Ok(line)
    }

    // Hands the variables of the line to the pick.
    fn meet(&mut self, line: LineId)
        requires { IsLine self.old.log line }
        ensures { self.new ≡ self.old }
    {
        meet_clause(&mut self.pick, self.log.clause(line));
    }

    // Derives a line from a false one, goes back to the level where it forces a literal, and adds that literal.
    fn learn(&mut self, falsified: LineId) -> Result<LineId, NoMemory>
        requires level { 1 ≤ self.old.trail.level }
        requires falsified { IsFalsified self.old.log self.old.trail falsified }
        ensures adds { IfOk result (AddsLine self.old.log self.new.log) }
        ensures fresh { IfOk result (λ line.
            IsFreshOver (clauses_in self.old.log) (clause_of self.new.log line)) }
        ensures assumed { OnOk result ((goal : Literal) →
            IsAssumed goal self.old.trail → IsAssumed goal self.new.trail) }
        ensures err { OnErr result (self.new.log ≡ self.old.log) }
        ensures vars { self.new.trail.vars ≡ self.old.trail.vars }
        ensures failed { self.new.failed ≡ self.old.failed }
    {
        let _order = self.values.entries();
        let (asserted, target) = self.analysis.conflict(&self.log, &self.values, falsified)?;
        let watched = self.analysis.pair(&self.values, asserted, target);
        self.watching.prepare(&watched)?;
        let lines = self.analysis.chain();
        meet_lines(&mut self.pick, &self.log, lines);
        let line = self.log.derive(lines)?;
        self.watching.commit(&watched, line);
        self.values.backjump(target);
        let kept = self.values.entries();
        self.watching.cut(kept.len());
        self.values.assign(asserted, Some(line));
        Ok(line)
    }

    // Derives a line from a conflict.
    fn resolve(&mut self, assumption: Lit, conflict: Conflict) -> Result<LineId, NoMemory>
        requires conflict { IsConflict self.old assumption conflict }
        requires assumed { IsAssumed assumption self.old.trail }
        ensures adds { IfOk result (AddsLine self.old.log self.new.log) }
        ensures learnt { IfOk result (λ line.
            IsLearnt self.old.log assumption (clause_of self.new.log line)) }
        ensures assumed { OnOk result (IsAssumed assumption self.new.trail) }
        ensures err { OnErr result (self.new.log ≡ self.old.log) }
        ensures vars { self.new.trail.vars ≡ self.old.trail.vars }
        ensures failed { self.new.failed ≡ self.old.failed }
    {
        let line = match conflict {
            Conflict::Falsified(line) if self.values.level() > 0 => self.learn(line)?,
            Conflict::Falsified(line) => self.contradict(line)?,
            Conflict::Denied => self.deny(assumption)?,
        };
        self.meet(line);
        Ok(line)
    }

    // Decides and learns, until there is a verdict.
    fn search(&mut self, assumption: Lit, budget: u64) -> Result<Verdict, NoMemory>
        requires named { assumption.var ≤ self.old.trail.vars }
        requires budget { length self.old.log.derived ≤ budget }
        ensures verdict { IfOk result (IsVerdict self.new assumption budget) }
        ensures learns { Learns self.old.log self.new.log assumption }
        ensures budget { length self.new.log.derived ≤ budget }
        ensures vars { self.new.trail.vars ≡ self.old.trail.vars }
        ensures failed { self.new.failed ≡ self.old.failed }
    {
        if let Some(line) = self.refuting(assumption) {
            return Ok(Verdict::Refuted { line });
        }
        self.backjump(0);
        let mut restarts = Restarts::new();
        loop {
            let Some(conflict) = self.descend(assumption) else {
                return Ok(Verdict::Model);
            };
            if self.log.derived() == budget {
                return Ok(Verdict::Spent);
            }
            let line = self.resolve(assumption, conflict)?;
            if refutes(self.log.clause(line), assumption) {
                return Ok(Verdict::Refuted { line });
            }
            if restarts.is_due() {
                self.backjump(0);
            }
        }
    }
}
